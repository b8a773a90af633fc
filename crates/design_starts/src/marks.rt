//! The digits of `\init` on the bits of nets.
ghost use Rattle.std.specs.Prelude.{◌≡◌, ◌++◌, ◌<◌, ◌^◌, IfOk, OnOk, Option, Some, length, map, option_copied, slice_get};
ghost use Rattle.circuit.specs.declared.netlist.Net.{Net as TheNet};
ghost use Rattle.rtlil_tree.specs.declared.sig.Const.{Const as TheConst};
ghost use Rattle.design_starts.specs.Marks.{IsMaskOf, is_definite, marks, marks_at, marks_below, marks_on};
ghost use Rattle.rtlil_signals.specs.Values.{const_value};

use circuit::Net;
use rtlil_signals::const_bits;
use rtlil_tree::Const;
use sim_base::{Bits, NoMemory};
use std::alloc::Global;

/// A bit of a net, and its digit of `\init`, which is 0 or 1.
#[derive(Clone, Copy, Debug, PartialEq, Eq)]
pub struct Mark {
    pub net: u32,
    pub bit: u32,
    pub digit: bool,
}

/// The bits that are 1 where a constant's digit is 0 or 1, if not all of its digits are.
fn mask_of(alloc: Global, constant: &Const) -> Result<Option<Bits>, NoMemory>
    ensures { IfOk result (λ mask. IsMaskOf constant.now mask) }
{
    match constant {
        Const::Digits(digits) => Ok(Some(digits.known(alloc)?)),
        Const::Integer(_) | Const::String(_) => Ok(None),
    }
}

/// Whether a digit is 0 or 1.
fn is_definite(constant: &Const, mask: &Option<Bits>, bit: u32) -> bool
    requires mask { IsMaskOf constant.now mask.now }
    requires inside { bit < (const_value constant.now).width }
    ensures { result ≡ is_definite constant.now bit }
{
    let _ = constant;
    match mask {
        Some(known) => known.bit(bit),
        None => true,
    }
}

/// Appends a bit of a net, if its digit is 0 or 1.
fn push_mark(
    net: u32,
    constant: &Const,
    value: &Bits,
    mask: &Option<Bits>,
    bit: u32,
    found: &mut Vec<Mark>,
) -> Result<(), NoMemory>
    requires value { value.now ≡ const_value constant.now }
    requires mask { IsMaskOf constant.now mask.now }
    ensures { OnOk result (found.new.items ≡ found.old.items ++ marks_at net constant.now bit) }
{
    if bit < value.width() && is_definite(constant, mask, bit) {
        found.push(Mark {
            net,
            bit,
            digit: value.bit(bit),
        })?;
    }
    Ok(())
}

/// Appends the bits of a net whose digit is 0 or 1.
fn push_marks(
    net: u32,
    width: u32,
    constant: &Const,
    value: &Bits,
    mask: &Option<Bits>,
    found: &mut Vec<Mark>,
) -> Result<(), NoMemory>
    requires value { value.now ≡ const_value constant.now }
    requires mask { IsMaskOf constant.now mask.now }
    ensures { OnOk result (found.new.items ≡ found.old.items ++ marks_below net constant.now width) }
{
    for bit in 0..width {
        push_mark(net, constant, value, mask, bit, found)?;
    }
    Ok(())
}

/// Appends the bits of a net whose digit of a constant is 0 or 1.
fn push_net(
    alloc: Global,
    net: u32,
    width: u32,
    constant: &Const,
    found: &mut Vec<Mark>,
) -> Result<(), NoMemory>
    ensures { OnOk result (found.new.items ≡ found.old.items ++ marks_below net constant.now width) }
{
    let value = const_bits(alloc, constant)?;
    let mask = mask_of(alloc, constant)?;
    push_marks(net, width, constant, &value, &mask, found)
}

fn init_at<'a, 't>(inits: &[Option<&'a Const<'t>>], net: usize) -> Option<&'a Const<'t>>
    requires { net < length inits.now }
    ensures { slice_get inits.now net ≡ Some result }
{
    inits[net]
}

/// Appends the bits of a net whose digit is 0 or 1, if it has a constant.
fn push_init(
    alloc: Global,
    nets: &[Net],
    inits: &[Option<&Const>],
    net: usize,
    found: &mut Vec<Mark>,
) -> Result<(), NoMemory>
    requires few { length nets.now < 2 ^ 32 }
    requires net { net < length nets.now }
    requires init { net < length inits.now }
    ensures { OnOk result ((x : TheNet) (init : Option TheConst) → slice_get nets.now net ≡ Some x → slice_get (map option_copied inits.now) net ≡ Some init → found.new.items ≡ found.old.items ++ marks_on net x.width init) }
{
    match init_at(inits, net) {
        Some(constant) => push_net(alloc, net as u32, nets[net].width, constant, found),
        None => Ok(()),
    }
}

/// The digits 0 and 1 of `\init` in net order, from the constant of each net that has one. For 2^32 nets and more
/// there is no memory.
pub fn marks_of(
    alloc: Global,
    nets: &[Net],
    inits: &[Option<&Const>],
) -> Result<Vec<Mark>, NoMemory>
    ensures { IfOk result (λ found. found.items ≡ marks nets.now (map option_copied inits.now)) }
{
    if nets.len() > u32::MAX as usize {
        return Err(NoMemory);
    }
    let mut found = Vec::new(alloc);
    for net in 0..nets.len().min(inits.len()) {
        push_init(alloc, nets, inits, net, &mut found)?;
    }
    Ok(found)
}

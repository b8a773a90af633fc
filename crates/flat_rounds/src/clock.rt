//! The number of each register after a round.
ghost use Rattle.std.specs.Prelude.{◌≡◌, ◌<◌, ◌^◌, length};
ghost use Rattle.circuit.specs.Next.{next_number, next_numbers};
ghost use Rattle.circuit.specs.Signal.{digits_of_nets, sig_width};
ghost use Rattle.flat_design.specs.Flat.{IsFlat};
ghost use Rattle.flat_rounds.specs.Pass.{AreNetNumbers, AreRegNumbers};
ghost use Rattle.flat_rounds.specs.Word.{IsWordSig};

use crate::word::sig_word;
use circuit::{Circuit, Reg, RegKind};

/// The next number of a plain register.
fn next_word(reg: &Reg, before: &[u64], nets: &[u64], present: u64) -> u64
    requires kind { reg.now.kind ≡ RegKind.Dff }
    requires clk_before { IsWordSig before.now reg.now.clk }
    requires clk { IsWordSig nets.now reg.now.clk }
    requires d { IsWordSig nets.now reg.now.d }
    requires wide { sig_width reg.now.d ≡ reg.now.width }
    requires present { present < 2 ^ reg.now.width }
    ensures value { result ≡ next_number (digits_of_nets before.now) (digits_of_nets nets.now) reg.now present }
    ensures below { result < 2 ^ reg.now.width }
{
    let active = if reg.pol.clk { 1 } else { 0 };
    let was = sig_word(reg.clk.as_slice(), before);
    let is = sig_word(reg.clk.as_slice(), nets);
    if was != active && is == active {
        sig_word(reg.d.as_slice(), nets)
    } else {
        present
    }
}

/// Makes `next` the numbers of the registers after a round.
pub fn clock(circuit: &Circuit, before: &[u64], nets: &[u64], regs: &[u64], next: &mut Vec<u64>)
    requires flat { IsFlat circuit.now }
    requires before { AreNetNumbers circuit.now before.now }
    requires nets { AreNetNumbers circuit.now nets.now }
    requires regs { AreRegNumbers circuit.now regs.now }
    requires long { length next.old.items ≡ length regs.now }
    ensures regs { AreRegNumbers circuit.now next.new.items }
    ensures numbers { next.new.items ≡ next_numbers (digits_of_nets before.now) (digits_of_nets nets.now) circuit.now.regs regs.now }
{
    for (n, reg) in circuit.regs.as_slice().iter().enumerate() {
        next[n] = next_word(reg, before, nets, regs[n]);
    }
}

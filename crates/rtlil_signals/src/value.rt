//! The values that constants stand for.
ghost use Rattle.std.specs.Prelude.{◌≡◌, ◌+◌, ◌*◌, ◌^◌, ◌<◌, ◌≤◌, IfOk, length};
ghost use Rattle.sim_base.specs.BitValue.{bit_value};
ghost use Rattle.rtlil_signals.specs.Spans.{value_part};
ghost use Rattle.rtlil_signals.specs.Values.{bytes_number, const_value, word_of};

use rtlil_tree::Const;
use sim_base::{Bits, NoMemory};
use std::alloc::Global;

/// The width of a constant in bits.
pub fn const_width(constant: &Const) -> u128
    ensures { result ≡ (const_value constant.now).width }
{
    match constant {
        Const::Digits(digits) => digits.width() as u128,
        Const::Integer(_) => 32,
        Const::String(bytes) => 8 * bytes.len() as u128,
    }
}

/// The 32 bits of a number in two's complement.
fn word_of(number: i32) -> u32
    ensures { result ≡ word_of number }
{
    if number < 0 {
        u32::MAX - (number.unsigned_abs() - 1)
    } else {
        number.unsigned_abs()
    }
}

/// The value of 32 bits.
fn word_bits(alloc: Global, word: u32) -> Result<Bits, NoMemory>
    ensures { IfOk result (λ bits. bits ≡ bit_value 32 word) }
{
    let mut bits = Bits::zero(alloc, 32)?;
    bits.put(word as u64);
    Ok(bits)
}

/// Writes a byte above so many others, where nothing is above these yet.
fn put_byte(bits: &mut Bits, done: usize, byte: u8)
    requires room { 8 * (done + 1) ≤ bits.old.width }
    requires below { bits.old.number < 2 ^ (8 * done) }
    ensures width { bits.new.width ≡ bits.old.width }
    ensures number { bits.new.number ≡ byte * 2 ^ (8 * done) + bits.old.number }
    ensures below { bits.new.number < 2 ^ (8 * (done + 1)) }
{
    let _ = bits.width();
    bits.put_field(8 * done as u32, 8, byte as u64);
}

/// Writes bytes to the lowest bits, the last byte lowest.
fn put_bytes(bits: &mut Bits, bytes: &[u8])
    requires room { 8 * length bytes.now ≤ bits.old.width }
    requires zero { bits.old.number ≡ 0 }
    ensures width { bits.new.width ≡ bits.old.width }
    ensures number { bits.new.number ≡ bytes_number bytes.now }
{
    for done in 0..bytes.len() {
        put_byte(bits, done, bytes[bytes.len() - 1 - done]);
    }
}

/// The value of bytes, the first of which is the most significant. Of 2^29 bytes and more there is no memory for
/// it.
fn bytes_bits(alloc: Global, bytes: &[u8]) -> Result<Bits, NoMemory>
    ensures { IfOk result (λ bits. bits ≡ bit_value (8 * length bytes.now) (bytes_number bytes.now)) }
{
    if bytes.len() >= 0x2000_0000 {
        return Err(NoMemory);
    }
    let mut bits = Bits::zero(alloc, 8 * bytes.len() as u32)?;
    put_bytes(&mut bits, bytes);
    Ok(bits)
}

/// The value of a constant.
pub fn const_bits(alloc: Global, constant: &Const) -> Result<Bits, NoMemory>
    ensures { IfOk result (λ bits. bits ≡ const_value constant.now) }
{
    match constant {
        Const::Digits(digits) => digits.value(alloc),
        Const::Integer(number) => word_bits(alloc, word_of(*number)),
        Const::String(quoted) => {
            let name = quoted.to_name(alloc)?;
            bytes_bits(alloc, name.as_bytes())
        }
    }
}

/// So many bits of a value, from one on; those beyond it are 0.
pub fn bits_part(alloc: Global, whole: &Bits, at: u64, width: u32) -> Result<Bits, NoMemory>
    ensures { IfOk result (λ bits. bits ≡ value_part whole.now at width) }
{
    let mut bits = Bits::zero(alloc, width)?;
    let from = at.min(whole.width() as u64) as u32;
    let there = (whole.width() - from).min(width);
    bits.copy(0, whole, from, there);
    Ok(bits)
}

/// So many bits of a constant, from one on.
pub fn const_part(alloc: Global, constant: &Const, at: u64, width: u32) -> Result<Bits, NoMemory>
    ensures { IfOk result (λ bits. bits ≡ value_part (const_value constant.now) at width) }
{
    let whole = const_bits(alloc, constant)?;
    bits_part(alloc, &whole, at, width)
}

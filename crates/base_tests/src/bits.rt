//! Values of bits.
ghost use Rattle.std.specs.Prelude.{◌≡◌, IfOk};

use sim_base::{Bits, NoMemory};
use std::alloc::Global;
use std::process::Abort;
use std::test::Fail;

/// A value of 200 bits of which every third is 1, from bit 0 on.
fn every_third(alloc: Global) -> Result<Bits, NoMemory>
    ensures { IfOk result (λ b. b.width ≡ 200) }
{
    let mut bits = Bits::zero(alloc, 200)?;
    bits.put_word(0, 0x9249_2492_4924_9249);
    bits.put_word(1, 0x4924_9249_2492_4924);
    bits.put_word(2, 0x2492_4924_9249_2492);
    bits.put_word(3, 0x49);
    Ok(bits)
}

/// The value of 72 bits that a text of hexadecimal digits stands for, and 0 where there is none.
fn value(alloc: Global, text: Option<&str>) -> Result<Bits, NoMemory>
    ensures { IfOk result (λ b. b.width ≡ 72) }
{
    let mut bits = Bits::zero(alloc, 72)?;
    bits.put_hexadecimal(text.unwrap_or("").as_bytes());
    Ok(bits)
}

fn number(text: Option<&str>) -> u32 {
    text.unwrap_or("").parse::<u32>().unwrap_or(0)
}

/// What is told of a copy, and the value after it.
fn copied(rt: &impl Abort, alloc: Global, row: &str) -> Result<String, Fail> {
    let mut words = row.split_whitespace();
    let mut into = value(alloc, words.next())?;
    let at = number(words.next());
    let from = value(alloc, words.next())?;
    let from_at = number(words.next());
    let n = number(words.next());
    assert!(rt; n <= 72 && at <= 72 - n && from_at <= 72 - n, "{row}");
    let changed = into.copy(at, &from, from_at, n);
    let mut digits = Vec::new(alloc);
    into.push_hexadecimal(&mut digits)?;
    let digits = str::from_utf8(digits.as_slice()).unwrap_or("");
    Ok(format!(in alloc; "{changed} {digits}")?)
}

/// Each row's value, the place in it, the value of which a part is copied to this place, the part's place and width,
/// and then ` -> `, whether the value changed, and the value.
const COPIES: &str = "000000000000000000 0 249249249249249249 0 72 -> true 249249249249249249
249249249249249249 0 249249249249249249 0 72 -> false 249249249249249249
249249249249249249 3 249249249249249249 0 69 -> false 249249249249249249
249249249249249249 3 249249249249249249 6 66 -> false 249249249249249249
249249249249249249 1 249249249249249249 0 71 -> true 492492492492492493
000000000000000000 60 ffffffffffffffffff 3 10 -> true 3ff000000000000000
3fffffffffffffffff 60 ffffffffffffffffff 3 10 -> false 3fffffffffffffffff
ffffffffffffffffff 64 249249249249249249 0 1 -> false ffffffffffffffffff
ffffffffffffffffff 63 000000000000000000 71 1 -> true ff7fffffffffffffff
000000000000000000 71 000000000000000020 5 1 -> true 800000000000000000
249249249249249249 40 ffffffffffffffffff 40 0 -> false 249249249249249249
008000000000000000 62 03c000000000000000 61 2 -> false 008000000000000000";

#[test]
fn a_copy_tells_whether_the_value_changed(rt: HostRuntime) -> Result<(), Fail> {
    for row in COPIES.lines() {
        let (copy, want) = row.split_once(" -> ").unwrap_or((row, ""));
        let got = copied(&rt, rt.alloc(), copy)?;
        assert_eq!(rt; got.as_str(), want, "of {copy}");
    }
    Ok(())
}

#[test]
fn values_are_the_same_in_width_and_number(rt: HostRuntime) -> Result<(), Fail> {
    let mut one = every_third(rt.alloc())?;
    let mut other = every_third(rt.alloc())?;
    assert!(rt; one.same(&other));
    other.set(199, true);
    assert!(rt; !one.same(&other));
    let copy = one.try_clone(rt.alloc())?;
    assert!(rt; copy.same(&one));
    one.clear();
    assert!(rt; !one.same(&copy));
    assert!(rt; one.same(&Bits::zero(rt.alloc(), 200)?));
    assert!(rt; !one.same(&Bits::zero(rt.alloc(), 199)?));
    Ok(())
}

#[test]
fn words_and_parts_are_read_and_put_in_their_places(rt: HostRuntime) -> Result<(), Fail> {
    let mut bits = every_third(rt.alloc())?;
    assert!(rt; bits.bit(198) && !bits.bit(199));
    assert_eq!(rt; bits.field(60, 10), 0b10_0100_1001);
    assert_eq!(rt; bits.view().half(1), 0x9249_2492);
    assert_eq!(rt; bits.view().half(6), 0x49);
    let part = bits.part(rt.alloc(), 61, 70)?;
    assert_eq!(rt; part.width(), 70);
    assert!(rt; part.words() == [0x4924_9249_2492_4924, 0x12].as_slice());
    assert!(rt; bits.put_field(64, 64, 5));
    assert!(rt; !bits.put_field(0, 64, 0x9249_2492_4924_9249));
    bits.put_word(3, 0xA5);
    let third = 0x2492_4924_9249_2492;
    assert!(rt; bits.words() == [0x9249_2492_4924_9249, 5, third, 0xA5].as_slice());
    let mut small = Bits::zero(rt.alloc(), 20)?;
    small.put(0xF_FFFE);
    assert_eq!(rt; small.word(), 0xF_FFFE);
    assert_eq!(rt; Bits::zero(rt.alloc(), 0)?.word(), 0);
    Ok(())
}

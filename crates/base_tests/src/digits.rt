//! Numbers in digits.
use sim_base::{Bits, number_in_digits, write_lowest_digits};
use std::alloc::Global;
use std::test::Fail;

/// The digits that are written for a value of this width that takes a text's number, with a mark before them.
fn written(alloc: Global, width: u32, text: &str) -> Result<Vec<u8>, Fail> {
    let mut bits = Bits::zero(alloc, width)?;
    let mut digits = Vec::new(alloc);
    digits.push(b'=')?;
    if bits.put_hexadecimal(text.as_bytes()) {
        bits.push_hexadecimal(&mut digits)?;
    }
    Ok(digits)
}

/// Each row's width and text, ` -> =` and the digits that are written, which are none where the width does not hold
/// the number.
const HEXADECIMAL: &str = "0 0 -> =0
0 000 -> =0
0 1 -> =
1 1 -> =1
1 2 -> =
8 fF -> =ff
8 A -> =0a
8 0000ff -> =ff
8 100 -> =
8 0g -> =
8  -> =
8 +1 -> =
9 1Ff -> =1ff
9 200 -> =
64 fedcba9876543210 -> =fedcba9876543210
70 2a00000000DEADBEEF -> =2a00000000deadbeef
70 3fffffffffffffffff -> =3fffffffffffffffff
70 400000000000000000 -> =";

#[test]
fn hexadecimal_texts_are_read_and_written_at_a_width(rt: HostRuntime) -> Result<(), Fail> {
    for row in HEXADECIMAL.lines() {
        let (from, want) = row.split_once(" -> ").unwrap_or((row, ""));
        let (width, text) = from.split_once(" ").unwrap_or((from, ""));
        let width = width.parse::<u32>().unwrap_or(0);
        let got = written(rt.alloc(), width, text)?;
        assert_eq!(rt; got.as_slice(), want.as_bytes(), "of {from}");
    }
    Ok(())
}

#[test]
fn digits_are_read_up_to_a_length(rt: HostRuntime) {
    assert_eq!(rt; number_in_digits(b"0042", 4), Some(42));
    assert_eq!(rt; number_in_digits(b"00042", 4), None);
    assert_eq!(rt; number_in_digits(b"4a", 4), None);
    assert_eq!(rt; number_in_digits(b"", 4), None);
    let most = 999_999_999_999_999_999;
    assert_eq!(rt; number_in_digits(b"999999999999999999", 18), Some(most));
}

#[test]
fn the_lowest_digits_are_written(rt: HostRuntime) -> Result<(), Fail> {
    let mut digits = [0u8; 6];
    write_lowest_digits(&mut digits, 10, 1_234_567);
    assert_eq!(rt; &digits, b"234567");
    write_lowest_digits(&mut digits, 36, 71);
    assert_eq!(rt; &digits, b"00001z");
    let mut bits = Bits::zero(rt.alloc(), 16)?;
    bits.put(0xBEEF);
    bits.write_hexadecimal(&mut digits);
    assert_eq!(rt; &digits, b"00beef");
    Ok(())
}

ghost use Rattle.std.specs.Prelude.{◌≡◌, IfOk, ◌≤◌};

use circuit::{Piece, sig_width};
use signal_words::{
    SigReader, SigWord, one_piece, one_word, sig_bit, sig_field, sig_word, whole_value, word_of,
};
use sim_base::{Bits, BitsView, NoMemory, Values};
use std::alloc::Global;
use std::test::Fail;

/// A value of this width whose lowest 64 bits, at most, are those of a number.
fn value(alloc: Global, width: u32, number: u64) -> Result<Bits, NoMemory>
    requires { width ≤ 65536 }
    ensures { IfOk result (λ value. value.width ≡ width) }
{
    let mut value = Bits::zero(alloc, width)?;
    value.put_field(0, width.min(64), number);
    Ok(value)
}

#[test]
fn pieces_are_put_together_from_the_least_on(rt: HostRuntime) -> Result<(), Fail> {
    let alloc = rt.alloc();
    let values = vec![in alloc;
        value(alloc, 16, 0xA5C3)?,
        value(alloc, 64, 0x0123_4567_89AB_CDEF)?,
    ]?;
    let nets = Values::of(alloc, values.as_slice())?;
    let sig = [
        Piece::Part {
            net: 0,
            at: 4,
            width: 8,
        },
        Piece::Const(value(alloc, 4, 0xA)?),
        Piece::Part {
            net: 1,
            at: 60,
            width: 4,
        },
        Piece::Part {
            net: 1,
            at: 0,
            width: 16,
        },
    ];
    assert_eq!(rt; sig_width(&sig), 32);
    assert_eq!(rt; sig_word(&sig, &nets), 0xCDEF_0A5C);
    assert_eq!(rt; sig_field(&sig, &nets, 6, 10), 0x29);
    assert_eq!(rt; sig_field(&sig, &nets, 28, 64), 0xC);
    assert!(rt; sig_bit(&sig, &nets, 2));
    assert!(rt; !sig_bit(&sig, &nets, 5));
    assert!(rt; sig_bit(&sig, &nets, 31));
    assert!(rt; !sig_bit(&sig, &nets, 32));
    assert_eq!(rt; sig_width(&[]), 0);
    assert_eq!(rt; sig_word(&[], &nets), 0);
    Ok(())
}

#[test]
fn a_wide_signal_is_read_from_its_least_bit_on(rt: HostRuntime) -> Result<(), Fail> {
    let alloc = rt.alloc();
    let values = vec![in alloc;
        value(alloc, 100, 0xFFFF_0000_FFFF_0001)?,
        value(alloc, 0, 0)?,
        value(alloc, 64, 0x0123_4567_89AB_CDEF)?,
    ]?;
    let nets = Values::of(alloc, values.as_slice())?;
    let sig = [
        Piece::Part {
            net: 0,
            at: 0,
            width: 100,
        },
        Piece::Part {
            net: 1,
            at: 0,
            width: 0,
        },
        Piece::Part {
            net: 2,
            at: 0,
            width: 64,
        },
    ];
    assert_eq!(rt; sig_width(&sig), 164);
    let mut reader = SigReader::new(&sig, &nets);
    assert_eq!(rt; reader.take(4), 1);
    assert_eq!(rt; reader.take(0), 0);
    assert_eq!(rt; reader.take(64), 0x0FFF_F000_0FFF_F000);
    reader.skip(24);
    assert_eq!(rt; reader.take(16), 0xEF00);
    assert_eq!(rt; reader.take(64), 0x0001_2345_6789_ABCD);
    assert_eq!(rt; reader.take(64), 0);
    let mut reader = SigReader::new(&sig, &nets);
    reader.skip(163);
    assert_eq!(rt; reader.take(64), 0);
    reader.skip(1000);
    assert_eq!(rt; reader.take(1), 0);
    Ok(())
}

/// The width and the number of a word, and a width that no word has where there is none.
fn told(word: Option<SigWord>) -> (u32, u64) {
    match word {
        Some(word) => (word.width, word.number),
        None => (65, 0),
    }
}

#[test]
fn one_piece_of_one_word_is_told_from_others(rt: HostRuntime) -> Result<(), Fail> {
    let alloc = rt.alloc();
    let values = vec![in alloc; value(alloc, 16, 0xA5C3)?, value(alloc, 100, 1)?]?;
    let nets = Values::of(alloc, values.as_slice())?;
    let whole = [Piece::Part {
        net: 0,
        at: 0,
        width: 16,
    }];
    assert_eq!(rt; told(one_word(&whole, &nets)), (16, 0xA5C3));
    let part = [Piece::Part {
        net: 0,
        at: 4,
        width: 8,
    }];
    assert_eq!(rt; told(one_word(&part, &nets)), (8, 0x5C));
    let constant = [Piece::Const(value(alloc, 4, 0xA)?)];
    assert_eq!(rt; told(one_word(&constant, &nets)), (4, 0xA));
    assert_eq!(rt; told(one_word(&[], &nets)), (0, 0));
    let wide = [Piece::Part {
        net: 1,
        at: 0,
        width: 65,
    }];
    assert!(rt; one_word(&wide, &nets).is_none());
    assert!(rt; word_of(&wide, &nets).is_none());
    Ok(())
}

#[test]
fn pieces_of_one_word_are_read_together(rt: HostRuntime) -> Result<(), Fail> {
    let alloc = rt.alloc();
    let values = vec![in alloc; value(alloc, 16, 0xA5C3)?]?;
    let nets = Values::of(alloc, values.as_slice())?;
    let sig = [
        Piece::Part {
            net: 0,
            at: 4,
            width: 8,
        },
        Piece::Part {
            net: 0,
            at: 0,
            width: 4,
        },
    ];
    assert!(rt; one_word(&sig, &nets).is_none());
    assert!(rt; one_piece(&sig, &nets).is_none());
    assert_eq!(rt; told(word_of(&sig, &nets)), (12, 0x35C));
    Ok(())
}

#[test]
fn one_piece_is_read_from_its_least_bit_on(rt: HostRuntime) -> Result<(), Fail> {
    let alloc = rt.alloc();
    let values = vec![in alloc; value(alloc, 100, 0xFFFF_0000_FFFF_0001)?]?;
    let nets = Values::of(alloc, values.as_slice())?;
    let sig = [Piece::Part {
        net: 0,
        at: 12,
        width: 80,
    }];
    match one_piece(&sig, &nets) {
        Some(reader) => {
            let mut reader = reader;
            assert_eq!(rt; reader.width(), 80);
            assert_eq!(rt; reader.take(8), 0xF0);
            assert_eq!(rt; reader.take(64), 0xFFF_F000_0FFF);
            assert_eq!(rt; reader.width(), 8);
            assert_eq!(rt; reader.take(64), 0);
            assert_eq!(rt; reader.width(), 0);
        }
        None => assert!(rt; false),
    }
    Ok(())
}

/// The width and the lowest 16 bits of a whole value, and a width that no value has where there is none.
fn told_whole(value: Option<BitsView>) -> (u32, u64) {
    match value {
        Some(value) => (value.width(), value.field(0, value.width().min(16))),
        None => (u32::MAX, 0),
    }
}

#[test]
fn whole_values_are_told_from_parts(rt: HostRuntime) -> Result<(), Fail> {
    let alloc = rt.alloc();
    let values = vec![in alloc; value(alloc, 100, 0xA5C3)?]?;
    let nets = Values::of(alloc, values.as_slice())?;
    let whole = [Piece::Part {
        net: 0,
        at: 0,
        width: 100,
    }];
    assert_eq!(rt; told_whole(whole_value(&whole, &nets)), (100, 0xA5C3));
    let part = [Piece::Part {
        net: 0,
        at: 0,
        width: 99,
    }];
    assert!(rt; whole_value(&part, &nets).is_none());
    let high = [Piece::Part {
        net: 0,
        at: 1,
        width: 99,
    }];
    assert!(rt; whole_value(&high, &nets).is_none());
    let constant = [Piece::Const(value(alloc, 65, 0xA)?)];
    assert_eq!(rt; told_whole(whole_value(&constant, &nets)), (65, 0xA));
    assert!(rt; whole_value(&[], &nets).is_none());
    Ok(())
}

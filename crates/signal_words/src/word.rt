//! Signals of one word.
ghost use Rattle.std.specs.Prelude.{◌≡◌, ◌<◌, ◌≤◌, ◌^◌, ◌↔◌, IfSome, IsSome};
ghost use Rattle.sim_base.specs.BitValue.{bit_value};
ghost use Rattle.circuit.specs.Signal.{piece_number, piece_width, sig_value, sig_width};
ghost use Rattle.std.specs.Option.{is_some};
ghost use Rattle.signal_words.specs.Values.{digits_in, AreInside, IsInside, IsWordOf};
ghost use Rattle.signal_words.specs.Wholes.{is_at_most_one, is_one, is_small, is_small_whole, is_whole, is_whole_of};

use crate::piece::{piece_of_width, piece_value, piece_value_of_width, piece_word};
use crate::signal::sig_word;
use crate::values::SigWord;
use circuit::{Piece, sig_width};
use sim_base::{BitsView, Values};

/// The width and the number of a piece of at most 64 bits.
#[inline(always)]
fn word_of_piece(piece: &Piece, nets: &Values) -> Option<SigWord>
    requires { IsInside nets.now piece.now }
    ensures small { IfSome result (λ word. word.width ≤ 64) }
    ensures width { IfSome result (λ word. word.width ≡ piece_width piece.now) }
    ensures number { IfSome result (λ word. word.number ≡ piece_number (digits_in nets.now) piece.now) }
    ensures below { IfSome result (λ word. word.number < 2 ^ word.width) }
    ensures some { is_some result ≡ is_small piece.now }
{
    match piece {
        Piece::Const(value) if value.width() <= 64 => Some(SigWord {
            width: value.width(),
            number: value.word(),
        }),
        Piece::Part { width, .. } if *width <= 64 => Some(SigWord {
            width: *width,
            number: piece_word(piece, nets),
        }),
        _ => None,
    }
}

/// The width and the number of a piece that is a whole value of at most 64 bits: a constant, or a net.
#[inline(always)]
fn word_of_whole_piece(piece: &Piece, nets: &Values) -> Option<SigWord>
    requires { IsInside nets.now piece.now }
    ensures small { IfSome result (λ word. word.width ≤ 64) }
    ensures width { IfSome result (λ word. word.width ≡ piece_width piece.now) }
    ensures number { IfSome result (λ word. word.number ≡ piece_number (digits_in nets.now) piece.now) }
    ensures below { IfSome result (λ word. word.number < 2 ^ word.width) }
    ensures some { is_some result ≡ is_small_whole nets.now piece.now }
{
    match piece {
        Piece::Const(value) if value.width() <= 64 => Some(SigWord {
            width: value.width(),
            number: value.word(),
        }),
        Piece::Part { width, .. } if *width <= 64 => {
            let number = piece_of_width(piece, nets, *width)?;
            Some(SigWord {
                width: *width,
                number,
            })
        }
        _ => None,
    }
}

/// The width and the number of a signal that is one piece, a whole value of at most 64 bits.
#[inline(always)]
pub fn whole_sig_word(sig: &[Piece], nets: &Values) -> Option<SigWord>
    requires { AreInside nets.now sig.now }
    ensures word { IfSome result (λ word. IsWordOf nets.now sig.now word.width word.number) }
    ensures some { is_some result ≡ is_one (is_small_whole nets.now) sig.now }
{
    match sig {
        [piece] => word_of_whole_piece(piece, nets),
        _ => None,
    }
}

/// The width and the number of a signal that is one piece, a whole value of at most 64 bits, or has no piece. Most
/// signals are, and they are read without a loop and without a shift.
#[inline(always)]
pub fn word_of_whole(sig: &[Piece], nets: &Values) -> Option<SigWord>
    requires { AreInside nets.now sig.now }
    ensures word { IfSome result (λ word. IsWordOf nets.now sig.now word.width word.number) }
    ensures some { is_some result ≡ is_at_most_one (is_small_whole nets.now) sig.now }
{
    match sig {
        [piece] => word_of_whole_piece(piece, nets),
        [] => Some(SigWord {
            width: 0,
            number: 0,
        }),
        _ => None,
    }
}

/// The width and the number of a signal that is one piece of at most 64 bits, or has no piece. It is read without
/// a loop.
#[inline(always)]
pub fn one_word(sig: &[Piece], nets: &Values) -> Option<SigWord>
    requires { AreInside nets.now sig.now }
    ensures word { IfSome result (λ word. IsWordOf nets.now sig.now word.width word.number) }
    ensures some { is_some result ≡ is_at_most_one is_small sig.now }
{
    match sig {
        [piece] => word_of_piece(piece, nets),
        [] => Some(SigWord {
            width: 0,
            number: 0,
        }),
        _ => None,
    }
}

/// The width and the number of a signal of any pieces, where it has at most 64 bits.
pub fn word_of(sig: &[Piece], nets: &Values) -> Option<SigWord>
    requires inside { AreInside nets.now sig.now }
    requires fits { sig_width sig.now < 2 ^ 32 }
    ensures word { IfSome result (λ word. IsWordOf nets.now sig.now word.width word.number) }
    ensures some { IsSome result ↔ (sig_width sig.now ≤ 64) }
{
    let width = sig_width(sig);
    if width > 64 {
        return None;
    }
    let number = sig_word(sig, nets);
    Some(SigWord { width, number })
}

/// The value that a signal is, where it is one piece: a constant, or a whole net.
#[inline(always)]
pub fn whole_value<'a>(sig: &'a [Piece], nets: &'a Values) -> Option<BitsView<'a>>
    requires { AreInside nets.now sig.now }
    ensures value { IfSome result (λ value. value ≡ sig_value (digits_in nets.now) sig.now) }
    ensures some { is_some result ≡ is_one (is_whole nets.now) sig.now }
{
    match sig {
        [piece] => piece_value(piece, nets),
        _ => None,
    }
}

/// The value that a signal of this width is, where it is one piece: a constant, or a whole net.
#[inline(always)]
pub fn whole_value_of_width<'a>(
    sig: &'a [Piece],
    nets: &'a Values,
    width: u32,
) -> Option<BitsView<'a>>
    requires { AreInside nets.now sig.now }
    ensures value { IfSome result (λ value. value ≡ sig_value (digits_in nets.now) sig.now) }
    ensures width { IfSome result (λ value. value.width ≡ width) }
    ensures some { is_some result ≡ is_one (is_whole_of nets.now width) sig.now }
{
    match sig {
        [piece] => piece_value_of_width(piece, nets, width),
        _ => None,
    }
}

/// The number of a signal of this width, at most 64 bits, where it is one piece: a constant, or a whole net.
#[inline(always)]
pub fn whole_word(sig: &[Piece], nets: &Values, width: u32) -> Option<u64>
    requires inside { AreInside nets.now sig.now }
    requires small { width ≤ 64 }
    ensures value { IfSome result (λ number. bit_value width number ≡ sig_value (digits_in nets.now) sig.now) }
    ensures below { IfSome result (λ number. number < 2 ^ width) }
    ensures some { is_some result ≡ is_one (is_whole_of nets.now width) sig.now }
{
    match sig {
        [piece] => piece_of_width(piece, nets, width),
        _ => None,
    }
}

//! One piece of a signal.
ghost use Rattle.std.specs.Prelude.{◌≡◌, ◌+◌, ◌/◌, ◌%◌, ◌^◌, ◌<◌, ◌≤◌, IfSome};
ghost use Rattle.sim_base.specs.BitValue.{bit_value};
ghost use Rattle.circuit.specs.Signal.{piece_number, piece_width};
ghost use Rattle.std.specs.Option.{is_some};
ghost use Rattle.signal_words.specs.Values.{digits_in, IsInside};
ghost use Rattle.signal_words.specs.Wholes.{is_whole, is_whole_of};

use crate::values::SigWord;
use circuit::Piece;
use sim_base::{BitsView, Values};

/// The number of `n` bits of a piece from its bit `at` on.
#[inline]
pub fn piece_field(piece: &Piece, nets: &Values, at: u32, n: u32) -> u64
    requires inside { IsInside nets.now piece.now }
    requires small { n ≤ 64 }
    requires within { at + n ≤ piece_width piece.now }
    ensures { result ≡ piece_number (digits_in nets.now) piece.now / 2 ^ at % 2 ^ n }
{
    match piece {
        Piece::Const(value) => value.field(at, n),
        Piece::Part { net, at: first, .. } => {
            let value = nets.view(*net);
            let _ = value.width();
            value.field(*first + at, n)
        }
    }
}

/// The number of a piece of at most 64 bits. Most pieces are whole nets, and those need no shift.
#[inline(always)]
pub fn piece_word(piece: &Piece, nets: &Values) -> u64
    requires inside { IsInside nets.now piece.now }
    requires small { piece_width piece.now ≤ 64 }
    ensures value { result ≡ piece_number (digits_in nets.now) piece.now }
    ensures below { result < 2 ^ piece_width piece.now }
{
    match piece {
        Piece::Const(value) => {
            let _ = value.width();
            value.word()
        }
        Piece::Part { net, at, width } => match nets.word_of_width(*net, *width) {
            Some(word) => word,
            None => nets.view(*net).field(*at, *width),
        },
    }
}

/// The width and the number of a piece of at most 64 bits.
#[inline(always)]
pub fn piece_sig_word(piece: &Piece, nets: &Values) -> SigWord
    requires inside { IsInside nets.now piece.now }
    requires small { piece_width piece.now ≤ 64 }
    ensures width { result.width ≡ piece_width piece.now }
    ensures number { result.number ≡ piece_number (digits_in nets.now) piece.now }
    ensures below { result.number < 2 ^ piece_width piece.now }
{
    match piece {
        Piece::Const(value) => SigWord {
            width: value.width(),
            number: value.word(),
        },
        Piece::Part { width, .. } => SigWord {
            width: *width,
            number: piece_word(piece, nets),
        },
    }
}

/// The number of a piece that is a whole value of this width, at most 64 bits: a constant, or a net. One look-up tells
/// whether it is.
#[inline(always)]
pub fn piece_of_width(piece: &Piece, nets: &Values, width: u32) -> Option<u64>
    requires inside { IsInside nets.now piece.now }
    requires small { width ≤ 64 }
    ensures width { IfSome result (λ number. piece_width piece.now ≡ width) }
    ensures value { IfSome result (λ number. number ≡ piece_number (digits_in nets.now) piece.now) }
    ensures below { IfSome result (λ number. number < 2 ^ width) }
    ensures some { is_some result ≡ is_whole_of nets.now width piece.now }
{
    match piece {
        Piece::Const(value) if value.width() == width => Some(value.word()),
        Piece::Part {
            net,
            width: part,
            ..
        } if *part == width => nets.word_of_width(*net, width),
        _ => None,
    }
}

/// The value that a piece is: a constant, or a net that the piece is the whole of.
#[inline(always)]
pub fn piece_value<'a>(piece: &'a Piece, nets: &'a Values) -> Option<BitsView<'a>>
    requires { IsInside nets.now piece.now }
    ensures value { IfSome result (λ value. value ≡ bit_value (piece_width piece.now) (piece_number (digits_in nets.now) piece.now)) }
    ensures some { is_some result ≡ is_whole nets.now piece.now }
{
    match piece {
        Piece::Const(value) => Some(value.view()),
        Piece::Part { net, width, .. } => {
            let value = nets.view(*net);
            if *width == value.width() {
                return Some(value);
            }
            None
        }
    }
}

/// The value that a piece of this width is: a constant, or a net that the piece is the whole of.
#[inline(always)]
pub fn piece_value_of_width<'a>(
    piece: &'a Piece,
    nets: &'a Values,
    width: u32,
) -> Option<BitsView<'a>>
    requires { IsInside nets.now piece.now }
    ensures value { IfSome result (λ value. value ≡ bit_value (piece_width piece.now) (piece_number (digits_in nets.now) piece.now)) }
    ensures width { IfSome result (λ value. value.width ≡ width) }
    ensures some { is_some result ≡ is_whole_of nets.now width piece.now }
{
    match piece {
        Piece::Const(value) if value.width() == width => Some(value.view()),
        Piece::Part { width: part, .. } if *part == width => piece_value(piece, nets),
        _ => None,
    }
}

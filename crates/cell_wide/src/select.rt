//! Cells that select among the bits of their ports.
ghost use Rattle.std.specs.Prelude.{◌≡◌, ℕ, ◌*◌, ◌/◌, ◌%◌, ◌^◌, ◌<◌, ◌≤◌, ◌==◌, true, length};
ghost use Rattle.circuit.specs.Output.{lowest_from, output};
ghost use Rattle.circuit.specs.Signal.{sig_number, sig_width};
ghost use Rattle.circuit.specs.declared.cell.Op.TheVariants as op;
ghost use Rattle.signal_words.specs.Values.{digits_in, AreInside, IsSignalOf};
ghost use Rattle.cell_wide.specs.Kinds.{IsWideReady, is_selection_but_mux};
ghost use Rattle.sim_base.specs.Values.{IsPut, width_at};

use crate::count::lowest;
use crate::operand::is_zero;
use crate::values::write_unary;
use crate::words::{Bitwise, Chain, Fill, Inverse, Pair};
use crate::write::write;
use circuit::{Cell, Op, Piece, sig_width};
use signal_words::{SigReader, one_piece, sig_field, sig_word, whole_value, whole_word, word_of};
use sim_base::Values;

/// Writes the bits of a signal from its bit `at` on.
fn copy(sig: &[Piece], nets: &Values, at: u32, into: &mut Values, out: u32) -> bool
    requires there { out < length into.old }
    requires signal { IsSignalOf nets.now sig.now }
    ensures { IsPut out (sig_number (digits_in nets.now) sig.now / 2 ^ at % 2 ^ (width_at into.old out)) into.old into.new result }
{
    let width = into.width(out);
    if width <= 64 {
        return into.put_word(out, sig_field(sig, nets, at, width));
    }
    let mut digits = SigReader::new(sig, nets);
    digits.skip(at);
    write(&mut digits, into, out)
}

/// Writes a signal that has the width of the value.
#[inline(always)]
fn copy_whole(sig: &[Piece], nets: &Values, into: &mut Values, out: u32) -> bool
    requires there { out < length into.old }
    requires signal { IsSignalOf nets.now sig.now }
    requires width { sig_width sig.now ≡ width_at into.old out }
    ensures { IsPut out (sig_number (digits_in nets.now) sig.now % 2 ^ (width_at into.old out)) into.old into.new result }
{
    let width = into.width(out);
    if width <= 64 {
        if let Some(word) = whole_word(sig, nets, width) {
            return into.put_word(out, word);
        }
    }
    copy_of_words(sig, nets, into, out)
}

/// Writes a signal of many words that has the width of the value.
#[inline(never)]
fn copy_of_words<'a>(sig: &'a [Piece], nets: &'a Values, into: &mut Values, out: u32) -> bool
    requires there { out < length into.old }
    requires signal { IsSignalOf nets.now sig.now }
    requires width { sig_width sig.now ≡ width_at into.old out }
    ensures { IsPut out (sig_number (digits_in nets.now) sig.now % 2 ^ (width_at into.old out)) into.old into.new result }
{
    match whole_value(sig, nets) {
        Some(value) => {
            let _ = value.width();
            write_unary(Op::Pos, &value, into, out)
        }
        None => copy_pieces(sig, nets, into, out),
    }
}

/// Writes a signal of any pieces that has the width of the value.
#[inline(never)]
fn copy_pieces(sig: &[Piece], nets: &Values, into: &mut Values, out: u32) -> bool
    requires there { out < length into.old }
    requires signal { IsSignalOf nets.now sig.now }
    requires width { sig_width sig.now ≡ width_at into.old out }
    ensures { IsPut out (sig_number (digits_in nets.now) sig.now % 2 ^ (width_at into.old out)) into.old into.new result }
{
    match word_of(sig, nets) {
        Some(word) => into.put_word(out, word.number),
        None => copy_words(sig, nets, into, out),
    }
}

/// Writes as many of the lowest bits of a signal as the value has, word by word.
fn copy_words<'a>(sig: &'a [Piece], nets: &'a Values, into: &mut Values, out: u32) -> bool
    requires there { out < length into.old }
    requires signal { IsSignalOf nets.now sig.now }
    ensures { IsPut out (sig_number (digits_in nets.now) sig.now % 2 ^ (width_at into.old out)) into.old into.new result }
{
    match one_piece(sig, nets) {
        Some(digits) => {
            let mut digits = digits;
            write(&mut digits, into, out)
        }
        None => write(&mut SigReader::new(sig, nets), into, out),
    }
}

/// Whether the number of a signal of one bit is 1.
#[inline(always)]
fn is_one(sig: &[Piece], nets: &Values) -> bool
    requires inside { AreInside nets.now sig.now }
    requires narrow { sig_width sig.now ≡ 1 }
    ensures { result ≡ (sig_number (digits_in nets.now) sig.now == 1) }
{
    match whole_word(sig, nets, 1) {
        Some(word) => word == 1,
        None => is_one_of_pieces(sig, nets),
    }
}

/// Whether the number of a signal of one bit and any pieces is 1.
#[inline(never)]
fn is_one_of_pieces(sig: &[Piece], nets: &Values) -> bool
    requires inside { AreInside nets.now sig.now }
    requires narrow { sig_width sig.now ≡ 1 }
    ensures { result ≡ (sig_number (digits_in nets.now) sig.now == 1) }
{
    sig_word(sig, nets) == 1
}

/// Where the part begins that `s` selects among parts of this width, all of which have at most 65,536
/// bits.
fn selected(width: u32, s: &[Piece], nets: &Values) -> u32
    requires s { IsSignalOf nets.now s.now }
    requires most { width * 2 ^ sig_width s.now ≤ 65536 }
    ensures { 0 < width → result ≡ width * sig_number (digits_in nets.now) s.now }
{
    if width == 0 {
        return 0;
    }
    width * sig_word(s, nets) as u32
}

/// `$mux`.
#[inline(always)]
pub fn mux(cell: &Cell, nets: &Values, into: &mut Values, out: u32) -> bool
    requires kind { cell.now.op ≡ op.Mux }
    requires ready { IsWideReady nets.now cell.now into.old out }
    ensures { IsPut out (output (digits_in nets.now) cell.now) into.old into.new result }
{
    if is_one(cell.s.as_slice(), nets) {
        copy_whole(cell.b.as_slice(), nets, into, out)
    } else {
        copy_whole(cell.a.as_slice(), nets, into, out)
    }
}

/// The place of the lowest bit of a signal that is 1, and its width where there is none.
fn lowest_bit(sig: &[Piece], nets: &Values) -> u32
    requires { IsSignalOf nets.now sig.now }
    ensures place { result ≡ lowest_from (sig_width sig.now) 0 (sig_number (digits_in nets.now) sig.now) }
    ensures most { result ≤ sig_width sig.now }
{
    let width = sig_width(sig);
    let mut number = SigReader::new(sig, nets);
    lowest(&mut number, width)
}

fn pmux(cell: &Cell, nets: &Values, into: &mut Values, out: u32) -> bool
    requires kind { cell.now.op ≡ op.Pmux }
    requires ready { IsWideReady nets.now cell.now into.old out }
    ensures { IsPut out (output (digits_in nets.now) cell.now) into.old into.new result }
{
    let s = cell.s.as_slice();
    if is_zero(s, nets) {
        copy(cell.a.as_slice(), nets, 0, into, out)
    } else {
        let at = cell.width * lowest_bit(s, nets);
        copy(cell.b.as_slice(), nets, at, into, out)
    }
}

fn bmux(cell: &Cell, nets: &Values, into: &mut Values, out: u32) -> bool
    requires kind { cell.now.op ≡ op.Bmux }
    requires ready { IsWideReady nets.now cell.now into.old out }
    ensures { IsPut out (output (digits_in nets.now) cell.now) into.old into.new result }
{
    let at = selected(cell.width, cell.s.as_slice(), nets);
    copy(cell.a.as_slice(), nets, at, into, out)
}

fn demux(cell: &Cell, nets: &Values, into: &mut Values, out: u32) -> bool
    requires kind { cell.now.op ≡ op.Demux }
    requires ready { IsWideReady nets.now cell.now into.old out }
    ensures { IsPut out (output (digits_in nets.now) cell.now) into.old into.new result }
{
    let a = cell.a.as_slice();
    let mut digits = Chain {
        low: Fill { ones: false },
        left: selected(sig_width(a), cell.s.as_slice(), nets),
        high: SigReader::new(a, nets),
    };
    write(&mut digits, into, out)
}

fn bwmux(cell: &Cell, nets: &Values, into: &mut Values, out: u32) -> bool
    requires kind { cell.now.op ≡ op.Bwmux }
    requires ready { IsWideReady nets.now cell.now into.old out }
    ensures { IsPut out (output (digits_in nets.now) cell.now) into.old into.new result }
{
    let a = cell.a.as_slice();
    let different = Pair {
        one: SigReader::new(a, nets),
        other: SigReader::new(cell.b.as_slice(), nets),
        by: Bitwise::Xor,
    };
    let turned = Pair {
        one: different,
        other: SigReader::new(cell.s.as_slice(), nets),
        by: Bitwise::And,
    };
    let mut digits = Pair {
        one: SigReader::new(a, nets),
        other: turned,
        by: Bitwise::Xor,
    };
    write(&mut digits, into, out)
}

fn bweqx(cell: &Cell, nets: &Values, into: &mut Values, out: u32) -> bool
    requires kind { cell.now.op ≡ op.Bweqx }
    requires ready { IsWideReady nets.now cell.now into.old out }
    ensures { IsPut out (output (digits_in nets.now) cell.now) into.old into.new result }
{
    let of = Pair {
        one: SigReader::new(cell.a.as_slice(), nets),
        other: SigReader::new(cell.b.as_slice(), nets),
        by: Bitwise::Xor,
    };
    write(&mut Inverse { of }, into, out)
}

fn concat(cell: &Cell, nets: &Values, into: &mut Values, out: u32) -> bool
    requires kind { cell.now.op ≡ op.Concat }
    requires ready { IsWideReady nets.now cell.now into.old out }
    ensures { IsPut out (output (digits_in nets.now) cell.now) into.old into.new result }
{
    let a = cell.a.as_slice();
    let mut digits = Chain {
        low: SigReader::new(a, nets),
        left: sig_width(a),
        high: SigReader::new(cell.b.as_slice(), nets),
    };
    write(&mut digits, into, out)
}

/// `$pmux`, `$bmux`, `$demux`, `$bwmux`, `$bweqx`, `$slice` and `$concat`.
#[inline(never)]
pub fn selection(cell: &Cell, nets: &Values, into: &mut Values, out: u32) -> bool
    requires kind { is_selection_but_mux cell.now.op ≡ true }
    requires ready { IsWideReady nets.now cell.now into.old out }
    ensures { IsPut out (output (digits_in nets.now) cell.now) into.old into.new result }
{
    match cell.op {
        Op::Pmux => pmux(cell, nets, into, out),
        Op::Bmux => bmux(cell, nets, into, out),
        Op::Demux => demux(cell, nets, into, out),
        Op::Bwmux => bwmux(cell, nets, into, out),
        Op::Bweqx => bweqx(cell, nets, into, out),
        Op::Slice => copy(cell.a.as_slice(), nets, cell.offset, into, out),
        _ => concat(cell, nets, into, out),
    }
}

//! Registers and latches.
ghost use Rattle.std.specs.Prelude.{◌≡◌, ℕ, ◌+◌, ◌-◌, ◌/◌, ◌%◌, ◌^◌, ◌<◌, ◌≤◌, ◌==◌, not, true, length, if◌then◌else◌};
ghost use Rattle.std.specs.Int.{bit_at};
ghost use Rattle.sim_base.specs.Values.{IsPut, number_at, width_at};
ghost use Rattle.circuit.specs.Next.{register_inputs, bit_by_bit, next_number};
ghost use Rattle.circuit.specs.Signal.{Digits, sig_number, sig_value, sig_width};
ghost use Rattle.circuit.specs.Valid.{ports_of_kind, widest};
ghost use Rattle.signal_words.specs.Values.{AreInside, digits_in};
ghost use Rattle.state_cells.specs.Registers.{HasWidths, IsRegisterOf};
ghost use Rattle.state_cells.specs.Sources.{has_source, sourced_number};

use crate::parts::{active_digits, overlaid};
use crate::source::{Source, source_of};
use circuit::{Piece, Reg, RegKind, Store, sig_width};
use signal_words::{SigReader, sig_word};
use sim_base::{Bits, Values};

/// Puts the next number of a register, from the values of the nets in the round before and in this one,
/// in the place `out` of its present one, and tells whether the two differ. It takes no memory.
pub fn next(reg: &Reg, before: &Store, now: &Store, into: &mut Values, out: u32) -> bool
    requires fits { IsRegisterOf before.now.nets now.now.nets reg.now }
    requires there { out < length into.old }
    requires width { width_at into.old out ≡ reg.now.width }
    ensures { IsPut out (next_number (digits_in before.now.nets) (digits_in now.now.nets) reg.now (number_at into.old out)) into.old into.new result }
{
    let nets = &now.nets;
    let source = source_of(reg, &before.nets, nets);
    if has_bits(reg.kind) {
        put_under_bits(reg, source.is_input(), nets, into, out)
    } else {
        put_whole(reg, source, nets, into, out)
    }
}

/// Whether registers of a kind have ports that set and clear each bit.
fn has_bits(kind: RegKind) -> bool
    ensures { result ≡ (ports_of_kind kind).bits }
{
    matches!(
        kind,
        RegKind::Dffsr | RegKind::Dffsre | RegKind::Sr | RegKind::Dlatchsr
    )
}

/// Puts the number that comes from a source.
fn put_whole(reg: &Reg, source: Source, nets: &Values, into: &mut Values, out: u32) -> bool
    requires kind { has_source (ports_of_kind reg.now.kind) source ≡ true }
    requires widths { HasWidths (ports_of_kind reg.now.kind) reg.now }
    requires d { AreInside nets.now reg.now.d }
    requires ad { AreInside nets.now reg.now.ad }
    requires there { out < length into.old }
    requires width { width_at into.old out ≡ reg.now.width }
    ensures { (before : Digits) → IsPut out (sourced_number source (register_inputs before (digits_in nets.now) reg.now) (number_at into.old out)) into.old into.new result }
{
    match source {
        Source::Own => false,
        Source::Input => put_signal(reg.d.as_slice(), nets, into, out),
        Source::Load => put_signal(reg.ad.as_slice(), nets, into, out),
        Source::Value => into.put(out, &reg.value.view()),
    }
}

/// Puts another value of the same width, and tells whether the number changed.
pub fn put_value(value: &Bits, into: &mut Bits) -> bool
    requires { into.old.width ≡ value.now.width }
    ensures value { into.new ≡ value.now }
    ensures changed { result ≡ not (into.new.number == into.old.number) }
{
    let width = value.width();
    into.copy(0, value, 0, width)
}

/// Puts the number of a signal of the same width.
fn put_signal(sig: &[Piece], nets: &Values, into: &mut Values, out: u32) -> bool
    requires inside { AreInside nets.now sig.now }
    requires small { sig_width sig.now ≤ widest }
    requires there { out < length into.old }
    requires width { width_at into.old out ≡ sig_width sig.now }
    ensures { IsPut out (sig_number (digits_in nets.now) sig.now) into.old into.new result }
{
    if into.width(out) <= 64 {
        into.put_word(out, sig_word(sig, nets))
    } else {
        put_words(sig, nets, into, out)
    }
}

/// Puts the number of a signal of the same width, 64 bits at a time.
fn put_words(sig: &[Piece], nets: &Values, into: &mut Values, out: u32) -> bool
    requires inside { AreInside nets.now sig.now }
    requires small { sig_width sig.now ≤ widest }
    requires there { out < length into.old }
    requires width { width_at into.old out ≡ sig_width sig.now }
    ensures { IsPut out (sig_number (digits_in nets.now) sig.now) into.old into.new result }
{
    let width = sig_width(sig);
    let _ = into.width(out);
    let mut reader = SigReader::new(sig, nets);
    let mut changed = false;
    let mut at = 0u32;
    while at < width {
        let n = (width - at).min(64);
        let word = reader.take(n);
        changed |= into.put_word_at(out, at / 64, word);
        at += n;
    }
    changed
}

/// One of two words.
fn input_or_own(from_input: bool, input: u64, own: u64) -> u64
    ensures { result ≡ (if from_input then input else own) }
{
    if from_input { input } else { own }
}

/// Puts each bit cleared, or else set, or else that of the input or its own.
fn put_under_bits(reg: &Reg, from_input: bool, nets: &Values, into: &mut Values, out: u32) -> bool
    requires d { AreInside nets.now reg.now.d }
    requires set { AreInside nets.now reg.now.set }
    requires clr { AreInside nets.now reg.now.clr }
    requires d_small { sig_width reg.now.d ≤ widest }
    requires set_small { sig_width reg.now.set ≤ widest }
    requires clr_small { sig_width reg.now.clr ≤ widest }
    requires small { reg.now.width ≤ widest }
    requires there { out < length into.old }
    requires width { width_at into.old out ≡ reg.now.width }
    ensures { (before : Digits) → IsPut out (bit_by_bit reg.now.width (register_inputs before (digits_in nets.now) reg.now)
        (if from_input then sig_number (digits_in nets.now) reg.now.d else number_at into.old out)) into.old into.new result }
{
    let width = into.width(out);
    let mut input = SigReader::new(reg.d.as_slice(), nets);
    let mut set = SigReader::new(reg.set.as_slice(), nets);
    let mut clr = SigReader::new(reg.clr.as_slice(), nets);
    let mut changed = false;
    let mut at = 0u32;
    while at < width {
        let n = (width - at).min(64);
        let own = into.view(out).field(at, n);
        let rest = input_or_own(from_input, input.take(n), own);
        let set_digits = active_digits(reg.pol.set, set.take(n));
        let clr_digits = active_digits(reg.pol.clr, clr.take(n));
        changed |= into.put_field(out, at, n, overlaid(rest, set_digits, clr_digits));
        at += n;
    }
    changed
}

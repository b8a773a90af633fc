//! Where the next value of a register comes from.
ghost use Rattle.std.specs.Prelude.{◌≡◌, ℕ, ◌≤◌, true, if◌then◌else◌};
ghost use Rattle.circuit.specs.Next.{RegisterInputs, register_inputs, has_edge, is_active, next_number};
ghost use Rattle.circuit.specs.Signal.{sig_width};
ghost use Rattle.circuit.specs.Valid.{Ports, ports_of_kind};
ghost use Rattle.signal_words.specs.Values.{AreInside, digits_in};
ghost use Rattle.state_cells.specs.Registers.{IsRegisterOf};
ghost use Rattle.state_cells.specs.Sources.{has_source, is_input, sourced_number, under_bits};

use crate::port::{has_edge, is_active};
use circuit::{Reg, RegKind};
use sim_base::Values;

/// Where the next value of a register comes from, apart from the bits that are set or cleared one by one.
#[derive(Clone, Copy, Debug)]
pub(crate) enum Source {
    /// It keeps its value.
    Own,
    Input,
    Load,
    /// The value to which it is reset.
    Value,
}

impl Source {
    /// Whether it is the input.
    pub(crate) fn is_input(self) -> bool
        ensures { result ≡ is_input self }
    {
        matches!(self, Source::Input)
    }
}

/// Whether the clock has its edge.
fn edge(reg: &Reg, before: &Values, now: &Values) -> bool
    requires before { AreInside before.now reg.now.clk }
    requires now { AreInside now.now reg.now.clk }
    requires small { sig_width reg.now.clk ≤ 64 }
    ensures { result ≡ has_edge reg.now.pol.clk (digits_in before.now) (digits_in now.now) reg.now.clk }
{
    has_edge(reg.pol.clk, before, now, reg.clk.as_slice())
}

/// Whether the enable is active.
fn enabled(reg: &Reg, now: &Values) -> bool
    requires inside { AreInside now.now reg.now.en }
    requires small { sig_width reg.now.en ≤ 64 }
    ensures { result ≡ is_active reg.now.pol.en (digits_in now.now) reg.now.en }
{
    is_active(reg.pol.en, reg.en.as_slice(), now)
}

/// Whether the reset of all bits is active.
fn reset(reg: &Reg, now: &Values) -> bool
    requires inside { AreInside now.now reg.now.clr }
    requires small { sig_width reg.now.clr ≤ 64 }
    ensures { result ≡ is_active reg.now.pol.clr (digits_in now.now) reg.now.clr }
{
    is_active(reg.pol.clr, reg.clr.as_slice(), now)
}

/// Whether the load is active.
fn loaded(reg: &Reg, now: &Values) -> bool
    requires inside { AreInside now.now reg.now.load }
    requires small { sig_width reg.now.load ≤ 64 }
    ensures { result ≡ is_active reg.now.pol.load (digits_in now.now) reg.now.load }
{
    is_active(reg.pol.load, reg.load.as_slice(), now)
}

/// The input where this holds.
fn input_where(holds: bool) -> Source
    ensures number { (a : RegisterInputs) (own : ℕ) → sourced_number result a own ≡ (if holds then a.input else own) }
    ensures there { (ports : Ports) → ports.d ≡ true → has_source ports result ≡ true }
{
    if holds { Source::Input } else { Source::Own }
}

/// The value of the reset where that is active, and else another source.
fn reset_or(active: bool, other: Source) -> Source
    ensures number { (a : RegisterInputs) (own : ℕ) → sourced_number result a own ≡ (if active then a.value else sourced_number other a own) }
    ensures there { (ports : Ports) → ports.reset ≡ true → has_source ports other ≡ true → has_source ports result ≡ true }
{
    if active { Source::Value } else { other }
}

/// The load where it is active, and else another source.
fn load_or(active: bool, other: Source) -> Source
    ensures number { (a : RegisterInputs) (own : ℕ) → sourced_number result a own ≡ (if active then a.load else sourced_number other a own) }
    ensures there { (ports : Ports) → ports.load ≡ true → has_source ports other ≡ true → has_source ports result ≡ true }
{
    if active { Source::Load } else { other }
}

/// Where the next value comes from: by the first line of its kind's table that holds.
pub(crate) fn source_of(reg: &Reg, before: &Values, now: &Values) -> Source
    requires { IsRegisterOf before.now now.now reg.now }
    ensures there { has_source (ports_of_kind reg.now.kind) result ≡ true }
    ensures number { (own : ℕ) → let a = register_inputs (digits_in before.now) (digits_in now.now) reg.now in
        under_bits (ports_of_kind reg.now.kind).bits reg.now.width a (sourced_number result a own) ≡ next_number (digits_in before.now) (digits_in now.now) reg.now own }
{
    match reg.kind {
        RegKind::Dff | RegKind::Dffsr => input_where(edge(reg, before, now)),
        RegKind::Dffe | RegKind::Dffsre => {
            input_where(edge(reg, before, now) && enabled(reg, now))
        }
        RegKind::Adff => reset_or(reset(reg, now), input_where(edge(reg, before, now))),
        RegKind::Adffe => {
            let input = input_where(edge(reg, before, now) && enabled(reg, now));
            reset_or(reset(reg, now), input)
        }
        RegKind::Sdff if edge(reg, before, now) => reset_or(reset(reg, now), Source::Input),
        RegKind::Sdffe if edge(reg, before, now) => {
            reset_or(reset(reg, now), input_where(enabled(reg, now)))
        }
        RegKind::Sdffce if edge(reg, before, now) && enabled(reg, now) => {
            reset_or(reset(reg, now), Source::Input)
        }
        RegKind::Sdff | RegKind::Sdffe | RegKind::Sdffce | RegKind::Sr => Source::Own,
        RegKind::Aldff => load_or(loaded(reg, now), input_where(edge(reg, before, now))),
        RegKind::Aldffe => {
            let input = input_where(edge(reg, before, now) && enabled(reg, now));
            load_or(loaded(reg, now), input)
        }
        RegKind::Dlatch | RegKind::Dlatchsr => input_where(enabled(reg, now)),
        RegKind::Adlatch => reset_or(reset(reg, now), input_where(enabled(reg, now))),
    }
}

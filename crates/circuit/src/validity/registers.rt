//! Registers and latches.
ghost use Rattle.std.specs.Prelude.{◌≡◌, true};
ghost use Rattle.circuit.specs.Valid.{flip_flop, latch, ports_of_kind, width_where, register_has, register_fits};

use crate::netlist::Net;
use crate::register::{Reg, RegKind};
use crate::validity::signals::{WIDEST, sig_of};
use std::marker::Model;

/// Which ports a kind has: a bit for the clock, the enable and the load, one bit or one for each bit of
/// the register for the rest.
#[derive(Drop)]
struct Ports {
    clk: bool,
    d: bool,
    en: bool,
    load: bool,
    /// One bit that resets.
    reset: bool,
    /// Set and clear, bit by bit.
    bits: bool,
}

impl Model for Ports {
    ghost use Rattle.circuit.specs.Valid.{Ports};

    ghost Value = { Ports };

    ghost view = { λ p. record { clk = p.clk; d = p.d; en = p.en; load = p.load; reset = p.reset; bits = p.bits } };
}

fn flip_flop() -> Ports
    ensures { result ≡ flip_flop }
{
    Ports {
        clk: true,
        d: true,
        en: false,
        load: false,
        reset: false,
        bits: false,
    }
}

fn latch() -> Ports
    ensures { result ≡ latch }
{
    Ports {
        clk: false,
        en: true,
        ..flip_flop()
    }
}

fn with_enable(ports: Ports) -> Ports
    ensures { result ≡ record ports { en = true } }
{
    Ports { en: true, ..ports }
}

fn with_reset(ports: Ports) -> Ports
    ensures { result ≡ record ports { reset = true } }
{
    Ports {
        reset: true,
        ..ports
    }
}

fn with_load(ports: Ports) -> Ports
    ensures { result ≡ record ports { load = true } }
{
    Ports {
        load: true,
        ..ports
    }
}

fn with_bits(ports: Ports) -> Ports
    ensures { result ≡ record ports { bits = true } }
{
    Ports {
        bits: true,
        ..ports
    }
}

fn ports_of_kind(kind: RegKind) -> Ports
    ensures { result ≡ ports_of_kind kind }
{
    match kind {
        RegKind::Dff => flip_flop(),
        RegKind::Dffe => with_enable(flip_flop()),
        RegKind::Adff | RegKind::Sdff => with_reset(flip_flop()),
        RegKind::Adffe | RegKind::Sdffe | RegKind::Sdffce => with_enable(with_reset(flip_flop())),
        RegKind::Aldff => with_load(flip_flop()),
        RegKind::Aldffe => with_enable(with_load(flip_flop())),
        RegKind::Dffsr => with_bits(flip_flop()),
        RegKind::Dffsre => with_enable(with_bits(flip_flop())),
        RegKind::Sr => Ports {
            clk: false,
            d: false,
            ..with_bits(flip_flop())
        },
        RegKind::Dlatch => latch(),
        RegKind::Adlatch => with_reset(latch()),
        RegKind::Dlatchsr => with_bits(latch()),
    }
}

fn width_where(there: bool, width: u32) -> u32
    ensures { result ≡ width_where there width }
{
    if there { width } else { 0 }
}

/// Whether each port has its width, and the others are empty.
fn register_has(nets: &[Net], ports: &Ports, reg: &Reg) -> bool
    ensures { result ≡ register_has nets.now ports.now reg.now }
{
    let each = width_where(ports.bits, reg.width);
    let clr = if ports.bits {
        reg.width
    } else {
        width_where(ports.reset, 1)
    };
    sig_of(nets, width_where(ports.clk, 1), reg.clk.as_slice())
        && (sig_of(nets, width_where(ports.d, reg.width), reg.d.as_slice())
            && (sig_of(nets, width_where(ports.en, 1), reg.en.as_slice())
                && (sig_of(nets, each, reg.set.as_slice())
                    && (sig_of(nets, clr, reg.clr.as_slice())
                        && (sig_of(nets, width_where(ports.load, 1), reg.load.as_slice())
                            && sig_of(
                                nets,
                                width_where(ports.load, reg.width),
                                reg.ad.as_slice(),
                            ))))))
}

/// Whether the ports, the reset value and the start value of a register have their widths.
pub fn register_fits(nets: &[Net], reg: &Reg) -> bool
    ensures { result ≡ register_fits nets.now reg.now }
{
    reg.width <= WIDEST
        && (register_has(nets, &ports_of_kind(reg.kind), reg)
            && (reg.value.width() == reg.width && reg.init.width() == reg.width))
}

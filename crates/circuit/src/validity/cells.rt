//! Combinational cells.
ghost use Rattle.std.specs.Prelude.{◌≡◌, ◌*◌, ◌^◌, ◌==◌, ◌≤◌};
ghost use Rattle.circuit.specs.Signal.{sig_width};
ghost use Rattle.circuit.specs.Valid.{is_unary, is_binary, is_narrow, widths_fit, widths_of, cell_fits};

use crate::cell::{Cell, Op};
use crate::netlist::Net;
use crate::validity::signals::{WIDEST, capped_width, sig_fits};
use std::marker::Model;

/// The most bits of a port of an arithmetic cell.
const WIDEST_ARITHMETIC: u32 = 128;

/// The widths of a cell's output and of its signals, and its offset.
#[derive(Drop)]
struct Widths {
    width: u32,
    offset: u32,
    a: u32,
    b: u32,
    s: u32,
}

impl Model for Widths {
    ghost use Rattle.circuit.specs.Valid.{Widths};

    ghost Value = { Widths };

    ghost view = { λ w. record { width = w.width; offset = w.offset; a = w.a; b = w.b; s = w.s } };
}

fn is_unary(w: &Widths) -> bool
    ensures { result ≡ is_unary w.now }
{
    w.b == 0 && w.s == 0
}

fn is_binary(w: &Widths) -> bool
    ensures { result ≡ is_binary w.now }
{
    w.s == 0
}

fn is_narrow(w: &Widths) -> bool
    ensures { result ≡ is_narrow w.now }
{
    w.width <= WIDEST_ARITHMETIC && (w.a <= WIDEST_ARITHMETIC && w.b <= WIDEST_ARITHMETIC)
}

/// Whether a width is the product of another one and 2 to the width of a selector.
#[tactic(auto, using(crate::proofs::Multiples::too_small))]
fn is_multiple(wide: u32, width: u32, selector: u32) -> bool
    requires { wide ≤ 65536 }
    ensures { result ≡ (wide == width * 2 ^ selector) }
{
    if width == 0 {
        wide == 0
    } else if selector > 16 {
        false
    } else {
        u64::from(wide) == u64::from(width) * (1u64 << selector)
    }
}

fn is_product(wide: u32, left: u32, right: u32) -> bool
    ensures { result ≡ (wide == left * right) }
{
    u64::from(wide) == u64::from(left) * u64::from(right)
}

/// Whether each port has the width that the type gives it, and a port that the type lacks is empty.
fn widths_fit(op: Op, w: &Widths) -> bool
    requires width { w.now.width ≤ 65536 }
    requires a { w.now.a ≤ 65536 }
    requires b { w.now.b ≤ 65536 }
    requires s { w.now.s ≤ 65536 }
    ensures { result ≡ widths_fit op w.now }
{
    match op {
        Op::Mux => w.a == w.width && (w.b == w.width && w.s == 1),
        Op::Pmux => w.a == w.width && is_product(w.b, w.width, w.s),
        Op::Bmux => is_multiple(w.a, w.width, w.s) && w.b == 0,
        Op::Demux => is_multiple(w.width, w.a, w.s) && w.b == 0,
        Op::Bwmux => w.a == w.width && (w.b == w.width && w.s == w.width),
        Op::Bweqx => w.a == w.width && (w.b == w.width && w.s == 0),
        Op::Slice => u64::from(w.offset) + u64::from(w.width) <= u64::from(w.a) && is_unary(w),
        Op::Concat => w.width == w.a + w.b && w.s == 0,
        Op::Not | Op::Pos => is_unary(w),
        Op::ReduceAnd | Op::ReduceOr | Op::ReduceBool => is_unary(w),
        Op::ReduceXor | Op::ReduceXnor | Op::LogicNot => is_unary(w),
        Op::Neg => is_unary(w) && is_narrow(w),
        Op::Add | Op::Sub | Op::Mul => is_binary(w) && is_narrow(w),
        Op::Div | Op::Mod | Op::DivFloor | Op::ModFloor => is_binary(w) && is_narrow(w),
        Op::Lt | Op::Le | Op::Ge | Op::Gt => is_binary(w) && is_narrow(w),
        Op::And | Op::Or | Op::Xor | Op::Xnor => is_binary(w),
        Op::LogicAnd | Op::LogicOr => is_binary(w),
        Op::Eq | Op::Ne | Op::Eqx | Op::Nex => is_binary(w),
        Op::Shl | Op::Sshl | Op::Shr | Op::Sshr | Op::Shift | Op::Shiftx => is_binary(w),
    }
}

/// The widths of a cell whose signals are not too wide.
fn widths_of(cell: &Cell) -> Widths
    requires a { sig_width cell.now.a ≤ 65536 }
    requires b { sig_width cell.now.b ≤ 65536 }
    requires s { sig_width cell.now.s ≤ 65536 }
    ensures { result ≡ widths_of cell.now }
{
    Widths {
        width: cell.width,
        offset: cell.offset,
        a: capped_width(cell.a.as_slice()),
        b: capped_width(cell.b.as_slice()),
        s: capped_width(cell.s.as_slice()),
    }
}

/// Whether the signals of a cell fit, and have the widths that its type gives them.
pub fn cell_fits(nets: &[Net], cell: &Cell) -> bool
    ensures { result ≡ cell_fits nets.now cell.now }
{
    sig_fits(nets, cell.a.as_slice())
        && (sig_fits(nets, cell.b.as_slice())
            && (sig_fits(nets, cell.s.as_slice())
                && (cell.width <= WIDEST && widths_fit(cell.op, &widths_of(cell)))))
}

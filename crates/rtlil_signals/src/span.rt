//! Parts of constants and of nets: the pieces of a signal before the bits of constants are written out.
ghost use Rattle.std.specs.Prelude.{◌≡◌, ◌≤◌, ◌+◌, ◌-◌, ◌^◌, ◌++◌, IfOk, OnOk};
ghost use Rattle.circuit.specs.declared.netlist.Piece.TheVariants as piece;
ghost use Rattle.rtlil_signals.specs.Values.{const_value};
ghost use Rattle.circuit.specs.Signal.{piece_part, piece_width, sig_part, sig_width};
ghost use Rattle.rtlil_signals.specs.Spans.{piece_of, pieces_of, some_part, value_part};

use rtlil_tree::Const;
use sim_base::NoMemory;
use sqlite_items::Items;
use std::alloc::Global;

/// The bits `from` to `to - 1` of a constant or a net.
#[derive(Clone, Copy, Debug)]
pub enum Span<'a, 't> {
    Const {
        of: &'a Const<'t>,
        from: u64,
        to: u64,
    },
    Net {
        net: u32,
        from: u32,
        to: u32,
    },
}

impl<'a, 't> Span<'a, 't> {
    /// In bits.
    pub fn width(&self) -> u64
        ensures value { result ≡ piece_width (piece_of self.now) }
    {
        match self {
            Span::Const { of: _, from, to } => to.saturating_sub(*from),
            Span::Net { net: _, from, to } => to.saturating_sub(*from) as u64,
        }
    }

    /// So many of its bits, from the one at `at` on.
    fn part(&self, at: u64, width: u64) -> Span<'a, 't>
        requires { at + width ≤ piece_width (piece_of self.now) }
        ensures { piece_of result ≡ piece_part at width (piece_of self.now) }
    {
        match self {
            Span::Const { of, from, to } => const_part(of, *from, *to, at, width),
            Span::Net { net, from, to } => net_part(*net, *from, *to, at, width),
        }
    }
}

fn const_part<'a, 't>(of: &'a Const<'t>, from: u64, to: u64, at: u64, width: u64) -> Span<'a, 't>
    requires { at + width ≤ to - from }
    ensures { piece_of result ≡ piece_part at width (piece.Const (value_part (const_value of.now) from (to - from))) }
{
    let _ = to;
    Span::Const {
        of,
        from: from + at,
        to: from + at + width,
    }
}

fn net_part<'a, 't>(net: u32, from: u32, to: u32, at: u64, width: u64) -> Span<'a, 't>
    requires { at + width ≤ to - from }
    ensures { piece_of result ≡ piece.Part net (from + at) width }
{
    let _ = to;
    Span::Net {
        net,
        from: from + at as u32,
        to: from + at as u32 + width as u32,
    }
}

/// The width of a signal in bits.
pub fn width_of(spans: &[Span]) -> u128
    ensures { result ≡ sig_width (pieces_of spans.now) }
{
    let mut width = 0u128;
    for span in spans {
        width += span.width() as u128;
    }
    width
}

/// Appends so many bits of a part, from the one at `at` on, if there is one.
fn push_part<'a, 't>(
    found: &mut Items<Span<'a, 't>>,
    span: &Span<'a, 't>,
    at: u128,
    width: u128,
) -> Result<(), NoMemory>
    requires { width ≤ piece_width (piece_of span.now) - at }
    ensures { OnOk result (pieces_of found.new ≡ pieces_of found.old ++ some_part at width (piece_of span.now)) }
{
    let _ = span.width();
    if width > 0 {
        found.push(span.part(at as u64, width as u64))?;
    }
    Ok(())
}

/// So many bits of a signal, from the one at `at` on.
pub fn part_of<'a, 't>(
    alloc: Global,
    spans: &[Span<'a, 't>],
    at: u128,
    width: u128,
) -> Result<Items<Span<'a, 't>>, NoMemory>
    ensures { IfOk result (λ part. pieces_of part ≡ sig_part at width (pieces_of spans.now)) }
{
    let mut found = Items::new(alloc);
    let mut skipped = at;
    let mut left = width;
    for span in spans {
        let all = span.width() as u128;
        let taken = all.saturating_sub(skipped).min(left);
        push_part(&mut found, span, skipped, taken)?;
        skipped = skipped.saturating_sub(all);
        left -= taken;
    }
    Ok(found)
}

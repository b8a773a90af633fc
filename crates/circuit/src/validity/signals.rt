//! Nets, signals and drives.
ghost use Rattle.std.specs.Prelude.{◌≡◌, min, slice_get};
ghost use Rattle.std.specs.List.{list_all};
ghost use Rattle.circuit.specs.Signal.{piece_width, sig_width};
ghost use Rattle.circuit.specs.Valid.{net_holds, piece_fits, sig_fits, sig_of, input_holds, cell_holds, register_holds, port_holds, driver_fits, drive_fits, drivers_of};

use crate::netlist::{By, Circuit, Drive, Net, Piece};

/// The most bits of a wire and of a port.
pub const WIDEST: u32 = 65_536;

/// Whether a net is there, and has so many bits at least.
pub fn net_holds(nets: &[Net], net: u32, end: u64) -> bool
    ensures { result ≡ net_holds nets.now net end }
{
    match nets.get(net as usize) {
        Some(net) => end <= u64::from(net.width),
        None => false,
    }
}

fn piece_fits(nets: &[Net], piece: &Piece) -> bool
    ensures { result ≡ piece_fits nets.now piece.now }
{
    match piece {
        Piece::Const(_) => true,
        Piece::Part { net, at, width } => {
            net_holds(nets, *net, u64::from(*at) + u64::from(*width))
        }
    }
}

fn pieces_fit(nets: &[Net], pieces: &[Piece]) -> bool
    ensures { result ≡ list_all (piece_fits nets.now) pieces.now }
{
    pieces.iter().all(|piece| piece_fits(nets, piece))
}

/// The width of a signal, and 65,537 for every wider one.
pub fn capped_width(pieces: &[Piece]) -> u32
    ensures { result ≡ min (sig_width pieces.now) 65537 }
{
    let mut width = 0u64;
    for piece in pieces {
        width = (width + u64::from(piece.width())).min(65_537);
    }
    width as u32
}

/// Whether each part of a signal lies inside its net, and the signal is not too wide.
pub fn sig_fits(nets: &[Net], pieces: &[Piece]) -> bool
    ensures { result ≡ sig_fits nets.now pieces.now }
{
    pieces_fit(nets, pieces) && capped_width(pieces) <= WIDEST
}

/// The same, and the signal has so many bits.
pub fn sig_of(nets: &[Net], width: u32, pieces: &[Piece]) -> bool
    ensures { result ≡ sig_of nets.now width pieces.now }
{
    sig_fits(nets, pieces) && capped_width(pieces) == width
}

fn input_holds(circuit: &Circuit, end: u64, input: u32) -> bool
    ensures { result ≡ input_holds circuit.now.nets end (slice_get circuit.now.inputs input) }
{
    match circuit.inputs.get(input as usize) {
        Some(net) => net_holds(circuit.nets.as_slice(), *net, end),
        None => false,
    }
}

fn cell_holds(circuit: &Circuit, end: u64, cell: u32) -> bool
    ensures { result ≡ cell_holds end (slice_get circuit.now.cells cell) }
{
    match circuit.cells.get(cell as usize) {
        Some(cell) => end <= u64::from(cell.width),
        None => false,
    }
}

fn register_holds(circuit: &Circuit, end: u64, reg: u32) -> bool
    ensures { result ≡ register_holds end (slice_get circuit.now.regs reg) }
{
    match circuit.regs.get(reg as usize) {
        Some(reg) => end <= u64::from(reg.width),
        None => false,
    }
}

fn port_holds(circuit: &Circuit, port: u32, end: u64, mem: u32) -> bool
    ensures { result ≡ port_holds port end (slice_get circuit.now.mems mem) }
{
    match circuit.mems.get(mem as usize) {
        Some(mem) => (port as usize) < mem.reads.len() && end <= u64::from(mem.width),
        None => false,
    }
}

fn driver_fits(circuit: &Circuit, width: u32, by: &By) -> bool
    ensures { result ≡ driver_fits (drivers_of circuit.now) width by.now }
{
    let wide = u64::from(width);
    match by {
        By::Const(value) => value.width() == width,
        By::Input(n, at) => input_holds(circuit, u64::from(*at) + wide, *n),
        By::Wire(n, at) => net_holds(circuit.nets.as_slice(), *n, u64::from(*at) + wide),
        By::Cell(n, at) => cell_holds(circuit, u64::from(*at) + wide, *n),
        By::Reg(n, at) => register_holds(circuit, u64::from(*at) + wide, *n),
        By::Read(m, n, at) => port_holds(circuit, *n, u64::from(*at) + wide, *m),
    }
}

/// Whether a drive lies inside its net, and what drives it has its bits.
pub fn drive_fits(circuit: &Circuit, drive: &Drive) -> bool
    ensures { result ≡ drive_fits (drivers_of circuit.now) drive.now }
{
    let end = u64::from(drive.at) + u64::from(drive.width);
    net_holds(circuit.nets.as_slice(), drive.net, end)
        && driver_fits(circuit, drive.width, &drive.by)
}

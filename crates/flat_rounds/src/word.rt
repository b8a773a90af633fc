//! The numbers of signals and cells, each in one word.
ghost use Rattle.std.specs.Prelude.{◌≡◌, ℕ, ◌-◌, ◌%◌, ◌<◌, ◌≤◌, ◌^◌};
ghost use Rattle.circuit.specs.Output.{output};
ghost use Rattle.circuit.specs.Signal.{digits_of_nets, piece_number, piece_width, sig_number, sig_width};
ghost use Rattle.flat_rounds.specs.Word.{IsWordCell, IsWordPiece, IsWordSig};

use circuit::{Cell, Piece};

fn piece_word(piece: &Piece, nets: &[u64]) -> u64
    requires { IsWordPiece nets.now piece.now }
    ensures value { result ≡ piece_number (digits_of_nets nets.now) piece.now }
    ensures below { result < 2 ^ piece_width piece.now }
{
    match piece {
        Piece::Const(v) => {
            let width = v.width();
            v.field(0, width)
        }
        Piece::Part { net, .. } => nets[*net as usize],
    }
}

/// The number of a signal of one piece.
pub fn sig_word(sig: &[Piece], nets: &[u64]) -> u64
    requires { IsWordSig nets.now sig.now }
    ensures value { result ≡ sig_number (digits_of_nets nets.now) sig.now }
    ensures below { result < 2 ^ sig_width sig.now }
{
    piece_word(&sig[0], nets)
}

fn mask(width: u32) -> u64
    requires { width ≤ 64 }
    ensures { result ≡ 2 ^ width - 1 }
{
    if width == 64 {
        u64::MAX
    } else {
        (1u64 << width) - 1
    }
}

/// The number that an unsigned adder gives.
pub fn cell_word(cell: &Cell, nets: &[u64]) -> u64
    requires { IsWordCell nets.now cell.now }
    ensures value { result ≡ output (digits_of_nets nets.now) cell.now }
    ensures below { result < 2 ^ cell.now.width }
{
    let a = sig_word(cell.a.as_slice(), nets);
    let b = sig_word(cell.b.as_slice(), nets);
    a.wrapping_add(b) & mask(cell.width)
}

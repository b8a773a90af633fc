//! What a circuit is and what it means: nets and what drives them, cells, registers, memories, inputs,
//! items, scopes and diagnostics, and the value of every bit after every sample.
#![tactic(auto)]

mod built;
mod cell;
mod diagnostic;
mod fault;
mod item;
mod laws;
mod listing;
mod memory;
mod netlist;
mod register;
mod shape;
mod signal;
mod store;
mod validity;

pub use built::{law_of_growth, law_of_order, law_of_parts, law_of_slots, law_of_validity};
pub use cell::{Cell, Op};
pub use diagnostic::{Diag, DiagKind, Trigger};
pub use fault::{BitAt, DesignFault, DesignKind};
pub use item::{Item, ItemKind, Scope};
pub use laws::{
    law_of_diagnostics, law_of_edges, law_of_keeping, law_of_lowest, law_of_places, law_of_reading,
    law_of_settling, law_of_showing, law_of_sig_part, law_of_succession, law_of_widths,
    law_of_writing, length_of_run, one_valuation,
};
pub use listing::Listing;
pub use memory::{Mem, ReadPort, WritePort};
pub use netlist::{By, Circuit, Drive, Net, Piece, Sig};
pub use register::{Polarity, Reg, RegKind};
pub use signal::sig_width;
pub use store::{Store, start_regs};

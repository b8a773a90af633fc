//! Whether a circuit is one that the other crates take.
ghost use Rattle.std.specs.Prelude.{◌≡◌, nat_le};
ghost use Rattle.std.specs.List.{list_all};
ghost use Rattle.circuit.specs.Valid.{cell_fits, diag_fits, drive_fits, drivers_of, is_valid, item_fits, mem_fits, register_fits, scope_fits, widest};

mod cells;
mod counts;
mod diagnostics;
mod items;
mod memories;
mod registers;
mod signals;

use crate::cell::Cell;
use crate::diagnostic::Diag;
use crate::item::{Item, Scope};
use crate::memory::Mem;
use crate::netlist::{Circuit, Drive, Net};
use crate::register::Reg;
use cells::cell_fits;
use counts::counts_fit;
use diagnostics::diag_fits;
use items::{inputs_fit, item_fits, names_differ, names_rise, scope_fits, slots_run, some_top};
use memories::mem_fits;
use registers::register_fits;
use signals::{WIDEST, drive_fits};

impl Circuit {
    /// Whether this is a circuit that the other crates take: numbers of 32 bits count each list that they
    /// name, the slots, the nodes of an order of evaluation, the bits of all nets together, and the words of 64
    /// bits that the values of all nets, of all outputs of cells and of all registers take; each number
    /// names what is there, each part and each drive lies inside its net, each signal and value has the
    /// width that its type gives it, the items stand in the byte order of their names with their slots in
    /// turn, and texts are UTF-8.
    /// It takes no memory. So the names of scopes are compared with one another, the inputs too, and
    /// each input is looked for among all items: the time is that of a pass over the circuit and of
    /// scopes² + inputs² + inputs · items comparisons.
    pub fn validate(&self) -> bool
        ensures { result ≡ is_valid self.now }
    {
        let nets = self.nets.as_slice();
        let items = self.items.as_slice();
        let scopes = self.scopes.as_slice();
        counts_fit(self)
            && (nets_fit(nets)
                && (drives_fit(self, self.drives.as_slice())
                    && (cells_fit(nets, self.cells.as_slice())
                        && (registers_fit(nets, self.regs.as_slice())
                            && (mems_fit(nets, self.mems.as_slice())
                                && (inputs_fit(self)
                                    && (items_fit(self, items)
                                        && (slots_run(self.mems.as_slice(), items)
                                            && (names_rise(items)
                                                && (scopes_fit(scopes)
                                                    && (names_differ(scopes)
                                                        && (some_top(scopes)
                                                            && diags_fit(
                                                                nets,
                                                                self.diags.as_slice(),
                                                            )))))))))))))
    }
}

fn nets_fit(nets: &[Net]) -> bool
    ensures { result ≡ list_all (λ x. nat_le x.width widest) nets.now }
{
    nets.iter().all(|net| net.width <= WIDEST)
}

fn drives_fit(circuit: &Circuit, drives: &[Drive]) -> bool
    ensures { result ≡ list_all (drive_fits (drivers_of circuit.now)) drives.now }
{
    drives.iter().all(|drive| drive_fits(circuit, drive))
}

fn cells_fit(nets: &[Net], cells: &[Cell]) -> bool
    ensures { result ≡ list_all (cell_fits nets.now) cells.now }
{
    cells.iter().all(|cell| cell_fits(nets, cell))
}

fn registers_fit(nets: &[Net], regs: &[Reg]) -> bool
    ensures { result ≡ list_all (register_fits nets.now) regs.now }
{
    regs.iter().all(|reg| register_fits(nets, reg))
}

fn mems_fit(nets: &[Net], mems: &[Mem]) -> bool
    ensures { result ≡ list_all (mem_fits nets.now) mems.now }
{
    mems.iter().all(|mem| mem_fits(nets, mem))
}

fn items_fit(circuit: &Circuit, items: &[Item]) -> bool
    ensures { result ≡ list_all (item_fits circuit.now.nets circuit.now.mems circuit.now.scopes) items.now }
{
    items.iter().all(|item| item_fits(circuit, item))
}

fn scopes_fit(scopes: &[Scope]) -> bool
    ensures { result ≡ list_all scope_fits scopes.now }
{
    scopes.iter().all(|scope| scope_fits(scope))
}

fn diags_fit(nets: &[Net], diags: &[Diag]) -> bool
    ensures { result ≡ list_all (diag_fits nets.now) diags.now }
{
    diags.iter().all(|diag| diag_fits(nets, diag))
}

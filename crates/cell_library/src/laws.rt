//! Laws of the table.
ghost use Rattle.std.specs.Prelude.{◌≡◌, Some, None, codes, true};
ghost use Rattle.std.specs.List.{list_all};
ghost use Rattle.cell_library.specs.Table.{line_of, table, arithmetic, binary};
ghost use Rattle.cell_library.specs.Fit.{AreFitting, AreJoined};
ghost use Rattle.cell_library.specs.Whole.{AreAllThere, are_widths_given, has_one_output, names_differ};
ghost use Rattle.circuit.specs.declared.cell.Op.TheVariants as op;

/// A type is found by its whole name alone, not by one that goes on or breaks off.
#[tactic(auto, unfolding(crate::specs::Table::table))]
pub fn law_of_examples()
    ensures found { line_of (codes "$add") ≡ Some (arithmetic (binary (codes "$add") op.Add)) }
    ensures longer { line_of (codes "$addx") ≡ None }
    ensures shorter { line_of (codes "$ad") ≡ None }
{}

/// No two types have one name, each port's width is made of parameters that its type must be given, and each type
/// drives one port alone, `Y` of a cell and `Q` of a register.
#[tactic(auto, unfolding(crate::specs::Table::table))]
pub fn law_of_table()
    ensures names { names_differ table ≡ true }
    ensures widths { list_all are_widths_given table ≡ true }
    ensures outputs { list_all has_one_output table ≡ true }
{}

/// Each `Op` and each `RegKind` is what some type becomes.
#[tactic(auto, using(crate::proofs::Types::all_there))]
pub fn law_of_types()
    ensures { AreAllThere }
{}

/// A cell that passes its checks has the widths that a valid circuit asks for: those of its type's `Op`, or the
/// signals of its kind of register.
#[tactic(auto, using(crate::proofs::Fits::are_fitting))]
pub fn law_of_widths()
    ensures { AreFitting }
{}

/// Each port that such a cell is joined by is one of its type, and joined to as many bits as the type has there.
#[tactic(auto, using(crate::proofs::Joined::are_joined))]
pub fn law_of_connections()
    ensures { AreJoined }
{}

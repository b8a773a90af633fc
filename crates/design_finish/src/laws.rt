//! Laws of circuits that are finished.
ghost use Rattle.std.specs.Prelude.{◌≡◌, List, Option, true};
ghost use Rattle.circuit.specs.Built.{AreNamesApart};
ghost use Rattle.circuit.specs.Valid.{is_valid};
ghost use Rattle.circuit.specs.declared.netlist.Circuit.{Circuit};
ghost use Rattle.rtlil_tree.specs.declared.sig.Const.{Const};
ghost use Rattle.design_finish.specs.Finished.{AreReady, IsFinished};

use circuit::{law_of_order, law_of_validity};
use design_items::law_of_arranged_items;

/// Lists of which no two items have one name become one circuit alone, and so do lists that become a valid circuit; and where
/// lists fit together, what they become is valid.
pub fn law_of_finishing()
    ensures only { (made one other : Circuit) (inits : List (Option Const)) → AreNamesApart made.items → IsFinished made inits one → IsFinished made inits other → one ≡ other }
    ensures valid_only { (made one other : Circuit) (inits : List (Option Const)) → is_valid one ≡ true → IsFinished made inits one → IsFinished made inits other → one ≡ other }
    ensures valid { (made finished : Circuit) (inits : List (Option Const)) → IsFinished made inits finished → AreReady made → is_valid finished ≡ true }
{
    law_of_arranged_items();
    law_of_order();
    law_of_validity();
}

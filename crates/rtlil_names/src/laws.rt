//! Laws of the names in a tree that was read.
ghost use Rattle.std.specs.Prelude.{◌≡◌, ℕ, List, Ok, true};
ghost use Rattle.std.specs.List.{list_all};
ghost use Rattle.rtlil_lexer.specs.declared.token.Token.{Token};
ghost use Rattle.rtlil_lexer.specs.Tokens.{lexed};
ghost use Rattle.rtlil_tree.specs.declared.module.File.{File};
ghost use Rattle.rtlil_tree.specs.Modules.{parsed};
ghost use Rattle.rtlil_names.specs.Names.{is_well_named};

use rtlil_lexer::law_of_tokens;

/// Where a text has tokens and these a tree, the names of its modules, wires and cells are UTF-8, no name of a wire or a cell has a
/// space behind its first byte, and that of a cell goes on behind it.
pub fn law_of_names_read()
    ensures { (text : List ℕ) (tokens : List Token) (file : File) → lexed text ≡ Ok tokens → parsed tokens ≡ Ok file → list_all is_well_named file.modules ≡ true }
{
    law_of_tokens();
}

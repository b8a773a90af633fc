//! Laws of the grammar's definition: the bounds in it are never what ends a repetition, tokens have one tree at most, and
//! the tree is that of all tokens.
ghost use Rattle.std.specs.Prelude.{◌≡◌, ◌≤◌, ℕ, List, [], length, Ok, Err};
ghost use Rattle.rtlil_lexer.specs.declared.fault.TextFault.{TextFault};
ghost use Rattle.rtlil_lexer.specs.declared.token.Token.{Token};
ghost use Rattle.rtlil_tree.specs.Input.{Input, start, pure, refuse, many, up_to_end};
ghost use Rattle.rtlil_tree.specs.Modules.{module_line, file_line, file, parsed};
ghost use Rattle.rtlil_tree.specs.Processes.{body_part, further, switch_part, switch_within, sync_line, sync_part};
ghost use Rattle.rtlil_tree.specs.Sigs.{slice, slices_from, parts_from, sig_within};
ghost use Rattle.rtlil_tree.specs.Statements.{wire_option, memory_option, cell_line};
ghost use Rattle.rtlil_tree.specs.Turns.{Enough, IsRepetition, IsStep, TakesToken, slice_step, part_step, more_slices, more_parts};
ghost use Rattle.rtlil_tree.specs.declared.module.File.{File};
ghost use Rattle.rtlil_tree.specs.declared.sig.Sig.{Sig};
ghost use Rattle.rtlil_tree.specs.declared.sig.Slice.{Slice};

/// No list of tokens has two trees, two faults, or a tree and a fault.
pub fn law_of_one_tree()
    ensures trees { (tokens : List Token) (tree other : File) → parsed tokens ≡ Ok tree → parsed tokens ≡ Ok other → tree ≡ other }
    ensures faults { (tokens : List Token) (fault other : TextFault) → parsed tokens ≡ Err fault → parsed tokens ≡ Err other → fault ≡ other }
    ensures never_both { (tokens : List Token) (tree : File) (fault : TextFault) → parsed tokens ≡ Ok tree → parsed tokens ≡ Err fault → ⊥ }
{}

/// Where a file has a tree, no token is left behind it.
pub fn law_of_whole_file()
    ensures { (tokens : List Token) (tree : File) (left : Input) → file (start tokens) ≡ Ok (tree, left) → left.rest ≡ [] }
{}

/// What each step of a repetition leaves is not more than there was, and less where more may come.
///
/// A slice, from behind its bracket on, and a signal take at least one token.
pub fn law_of_steps()
    ensures slices { TakesToken slice }
    ensures signals { (depth : ℕ) → TakesToken (sig_within depth) }
    ensures wires { IsStep wire_option }
    ensures memories { IsStep memory_option }
    ensures cells { IsStep cell_line }
    ensures sigs_of_a_case { IsStep further }
    ensures bodies { (depth : ℕ) → IsStep (body_part (switch_within depth)) }
    ensures switches { (depth : ℕ) → IsStep (switch_part (switch_within depth)) }
    ensures updates { IsStep sync_line }
    ensures syncs { IsStep sync_part }
    ensures modules { IsStep module_line }
    ensures files { IsStep file_line }
{}

/// What the grammar has in braces is read as it says, with no bound: by the one rule that is a step, and the same again
/// where more may come.
pub fn law_of_repetition()
    ensures slices { IsRepetition slice_step more_slices }
    ensures concatenations { (depth : ℕ) → IsRepetition (part_step (sig_within depth)) (more_parts (sig_within depth)) }
    ensures wires { IsRepetition wire_option (many wire_option) }
    ensures memories { IsRepetition memory_option (many memory_option) }
    ensures cells { IsRepetition cell_line (up_to_end cell_line) }
    ensures sigs_of_a_case { IsRepetition further (many further) }
    ensures bodies { (depth : ℕ) → IsRepetition (body_part (switch_within depth)) (many (body_part (switch_within depth))) }
    ensures switches { (depth : ℕ) → IsRepetition (switch_part (switch_within depth)) (up_to_end (switch_part (switch_within depth))) }
    ensures updates { IsRepetition sync_line (many sync_line) }
    ensures syncs { IsRepetition sync_part (many sync_part) }
    ensures modules { IsRepetition module_line (up_to_end module_line) }
    ensures files { IsRepetition file_line (many file_line) }
{}

/// Any number of turns that is at least the number of tokens left gives the same.
pub fn law_of_turns()
    ensures slices { (turns : ℕ) (found : List Slice) (i : Input) → length i.rest ≤ turns → slices_from turns found i ≡ slices_from (length i.rest) found i }
    ensures concatenations { (depth turns : ℕ) (found : List Sig) (i : Input) → length i.rest ≤ turns
        → parts_from (sig_within depth) turns found i ≡ parts_from (sig_within depth) (length i.rest) found i }
    ensures wires { Enough wire_option pure }
    ensures memories { Enough memory_option pure }
    ensures cells { Enough cell_line (λ _. refuse) }
    ensures sigs_of_a_case { Enough further pure }
    ensures bodies { (depth : ℕ) → Enough (body_part (switch_within depth)) pure }
    ensures switches { (depth : ℕ) → Enough (switch_part (switch_within depth)) (λ _. refuse) }
    ensures updates { Enough sync_line pure }
    ensures syncs { Enough sync_part pure }
    ensures modules { Enough module_line (λ _. refuse) }
    ensures files { Enough file_line pure }
{}

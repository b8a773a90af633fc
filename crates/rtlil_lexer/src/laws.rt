//! That the two ways to say what the tokens of a text are agree.
ghost use Rattle.std.specs.Prelude.{◌≡◌, ◌↔◌, ℕ, List, Option, Some, None, Ok, Err};
ghost use Rattle.rtlil_lexer.specs.declared.token.Token.{Token};
ghost use Rattle.rtlil_lexer.specs.declared.fault.TextFault.{TextFault};
ghost use Rattle.rtlil_lexer.specs.Tokens.{lexed};
ghost use Rattle.rtlil_lexer.specs.Reading.{ReadsWhole};

/// A text is these tokens, one behind another up to its end, exactly where they are what is computed.
pub fn law_of_tokens()
    ensures { (text : List ℕ) (tokens : List Token) → ReadsWhole text tokens None ↔ (lexed text ≡ Ok tokens) }
{}

/// A text is some tokens and then a fault exactly where this fault is what is computed.
pub fn law_of_faults()
    ensures { (text : List ℕ) (fault : TextFault) → ((tokens : List Token) × ReadsWhole text tokens (Some fault)) ↔ (lexed text ≡ Err fault) }
{}

/// No text is read in two ways.
pub fn law_of_one_reading()
    ensures { (text : List ℕ) (tokens others : List Token) (end other : Option TextFault)
        → ReadsWhole text tokens end → ReadsWhole text others other → (tokens ≡ others) × (end ≡ other) }
{}

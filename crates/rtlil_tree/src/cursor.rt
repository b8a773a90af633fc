//! The tokens that are left.
ghost use Rattle.std.specs.Prelude.{◌≡◌, length, if◌then◌else◌, option_copied};
ghost use Rattle.rtlil_tree.specs.Input as input;
ghost use Rattle.rtlil_tree.specs.Input.{Reads, start};
ghost use Rattle.rtlil_lexer.specs.declared.fault.TextFaultKind.TheVariants.{Syntax};

use crate::place::Place;
use rtlil_lexer::{Spelling, TextFault, TextFaultKind, Token, TokenKind};
use std::marker::Model;

/// A token that carries nothing.
#[derive(Clone, Copy, Debug, PartialEq, Eq)]
pub(crate) enum Sign {
    LeftBrace,
    RightBrace,
    LeftBracket,
    RightBracket,
    Colon,
    Comma,
    EndOfLine,
}

/// The tokens that are left, and the place of the last token of all.
#[derive(Drop)]
pub(crate) struct Cursor<'a, 't> {
    rest: &'a [Token<'t>],
    end: Place,
}

impl<'a, 't> Model for Cursor<'a, 't> {
    ghost use Rattle.rtlil_tree.specs.Input.{Input};

    ghost Value = { Input };

    ghost view = { λ c. record { rest = c.rest.now; end = c.end } };
}

fn is_sign(sign: Sign, kind: &TokenKind<'_>) -> bool
    ensures { result ≡ input.is_sign sign kind.now }
{
    match (sign, kind) {
        (Sign::LeftBrace, TokenKind::LeftBrace) => true,
        (Sign::RightBrace, TokenKind::RightBrace) => true,
        (Sign::LeftBracket, TokenKind::LeftBracket) => true,
        (Sign::RightBracket, TokenKind::RightBracket) => true,
        (Sign::Colon, TokenKind::Colon) => true,
        (Sign::Comma, TokenKind::Comma) => true,
        (Sign::EndOfLine, TokenKind::EndOfLine) => true,
        _ => false,
    }
}

impl<'a, 't> Cursor<'a, 't> {
    pub(crate) fn new(tokens: &'a [Token<'t>]) -> Cursor<'a, 't>
        ensures { result ≡ start tokens.now }
    {
        let end = match tokens.last() {
            None => Place { line: 1, column: 1 },
            Some(last) => Place {
                line: last.line,
                column: last.column,
            },
        };
        Cursor { rest: tokens, end }
    }

    /// How many tokens there are.
    pub(crate) fn left(&self) -> usize
        ensures { result ≡ length self.now.rest }
    {
        self.rest.len()
    }

    /// What the next token is.
    #[tactic(auto, unfolding(crate::specs::Input::kind))]
    pub(crate) fn peek(&self) -> Option<&'a TokenKind<'t>>
        ensures { option_copied result ≡ input.kind self.now }
    {
        match self.rest {
            [] => None,
            [first, ..] => Some(&first.kind),
        }
    }

    /// The place of the next token, or of the last one where none is left.
    #[tactic(auto, unfolding(crate::specs::Input::place))]
    pub(crate) fn place(&self) -> Place
        ensures { result ≡ input.place self.now }
    {
        match self.rest {
            [] => self.end,
            [first, ..] => Place {
                line: first.line,
                column: first.column,
            },
        }
    }

    /// Goes behind the next token.
    #[tactic(auto, unfolding(crate::specs::Input::next))]
    pub(crate) fn step(&mut self)
        ensures { self.new ≡ input.next self.old }
    {
        match self.rest {
            [] => {}
            [_, rest @ ..] => self.rest = rest,
        }
    }

    /// The next token at fault.
    #[tactic(auto, unfolding(crate::specs::Input::fault_at))]
    pub(crate) fn fault(&self, kind: TextFaultKind) -> TextFault
        ensures { result ≡ input.fault_at kind self.now }
    {
        let place = self.place();
        TextFault::At {
            kind,
            line: place.line,
            column: place.column,
        }
    }

    /// No rule has the next token here.
    pub(crate) fn refuse(&self) -> TextFault
        ensures { result ≡ input.fault_at Syntax self.now }
    {
        self.fault(TextFaultKind::Syntax)
    }

    #[tactic(auto, unfolding(crate::specs::Input::sees))]
    pub(crate) fn sees(&self, sign: Sign) -> bool
        ensures { result ≡ input.sees sign self.now }
    {
        match self.peek() {
            None => false,
            Some(kind) => is_sign(sign, kind),
        }
    }

    /// Goes behind this sign, if it comes next.
    pub(crate) fn eat(&mut self, sign: Sign) -> bool
        ensures found { result ≡ input.sees sign self.old }
        ensures after { self.new ≡ (if result then input.next self.old else self.old) }
    {
        let found = self.sees(sign);
        if found {
            self.step();
        }
        found
    }

    #[tactic(auto, unfolding(crate::specs::Input::sees_word))]
    pub(crate) fn sees_word(&self, text: &[u8]) -> bool
        ensures { result ≡ input.sees_word text.now self.now }
    {
        match self.peek() {
            Some(TokenKind::Word(spelling)) => spelling.as_bytes() == text,
            _ => false,
        }
    }

    /// Goes behind this word, if it comes next.
    pub(crate) fn eat_word(&mut self, text: &[u8]) -> bool
        ensures found { result ≡ input.sees_word text.now self.old }
        ensures after { self.new ≡ (if result then input.next self.old else self.old) }
    {
        let found = self.sees_word(text);
        if found {
            self.step();
        }
        found
    }

    #[tactic(auto, unfolding(crate::specs::Input::expect))]
    pub(crate) fn expect(&mut self, sign: Sign) -> Result<(), TextFault>
        ensures { Reads (input.expect sign self.old) result self.new }
    {
        if self.eat(sign) {
            Ok(())
        } else {
            Err(self.refuse())
        }
    }

    #[tactic(auto, unfolding(crate::specs::Input::expect_word))]
    pub(crate) fn expect_word(&mut self, text: &[u8]) -> Result<(), TextFault>
        ensures { Reads (input.expect_word text.now self.old) result self.new }
    {
        if self.eat_word(text) {
            Ok(())
        } else {
            Err(self.refuse())
        }
    }

    #[tactic(auto, unfolding(crate::specs::Input::identifier))]
    pub(crate) fn identifier(&mut self) -> Result<Spelling<'t>, TextFault>
        ensures { Reads (input.identifier self.old) result self.new }
    {
        match self.peek() {
            Some(TokenKind::Identifier(spelling)) => {
                self.step();
                Ok(spelling.copied())
            }
            _ => Err(self.refuse()),
        }
    }

    #[tactic(auto, unfolding(crate::specs::Input::integer))]
    pub(crate) fn integer(&mut self) -> Result<i32, TextFault>
        ensures { Reads (input.integer self.old) result self.new }
    {
        match self.peek() {
            Some(TokenKind::Integer(n)) => {
                self.step();
                Ok(*n)
            }
            _ => Err(self.refuse()),
        }
    }

    /// Reads an integer that is not negative.
    #[tactic(auto, unfolding(crate::specs::Input::natural))]
    pub(crate) fn natural(&mut self) -> Result<u32, TextFault>
        ensures { Reads (input.natural self.old) result self.new }
    {
        match self.peek() {
            Some(TokenKind::Integer(n)) if *n >= 0 => {
                self.step();
                Ok(*n as u32)
            }
            _ => Err(self.refuse()),
        }
    }
}

//! One line of a text.
ghost use Rattle.std.specs.Prelude.{◌≡◌, [], MatchOption, option_copied, Some, None, Err, IfOk};
ghost use Rattle.flat_text.specs.Lines.{keyword_of, keyed_line, line_of, numbered, named_wire_of, side_of, sided_wire_of, wire_of, cell_of, parameter_of, connection_of, autoidx_of, attribute_of, module_line_of};
ghost use Rattle.flat_text.specs.Words.{words_of, parts_left};

use crate::constant::{constant_of, identifier_of, number_of, operand_of};
use crate::fault::FlatFault;
use crate::module::{Attribute, Connection, Parameter, Port};
use crate::words::{one_of, split_first, two_of};
use sim_base::Name;
use std::alloc::Global;

/// What a line begins with.
#[derive(Clone, Copy, Debug, PartialEq, Eq)]
enum Keyword {
    Autoidx,
    Attribute,
    Module,
    Wire,
    Cell,
    Parameter,
    Connect,
    End,
}

/// What a line says.
#[derive(Debug, Drop)]
pub(crate) enum Line {
    Autoidx,
    Attribute(Attribute),
    Module(Name),
    Wire { width: u32, port: Port, name: Name },
    Cell { kind: Name, name: Name },
    Parameter(Parameter),
    Connect(Connection),
    End,
}

fn keyword_of(word: &[u8]) -> Option<Keyword>
    ensures { result ≡ keyword_of word.now }
{
    if word == b"autoidx".as_slice() {
        Some(Keyword::Autoidx)
    } else if word == b"attribute".as_slice() {
        Some(Keyword::Attribute)
    } else if word == b"module".as_slice() {
        Some(Keyword::Module)
    } else if word == b"wire".as_slice() {
        Some(Keyword::Wire)
    } else if word == b"cell".as_slice() {
        Some(Keyword::Cell)
    } else if word == b"parameter".as_slice() {
        Some(Keyword::Parameter)
    } else if word == b"connect".as_slice() {
        Some(Keyword::Connect)
    } else if word == b"end".as_slice() {
        Some(Keyword::End)
    } else {
        None
    }
}

#[tactic(auto, unfolding(crate::specs::Lines::autoidx_of))]
fn autoidx_of(words: &[u8]) -> Option<Line>
    ensures { result ≡ autoidx_of (words_of words.now) }
{
    let word = one_of(words)?;
    let _ = number_of(word)?;
    Some(Line::Autoidx)
}

#[tactic(auto, unfolding(crate::specs::Lines::attribute_of))]
fn attribute_of(alloc: Global, words: &[u8]) -> Result<Line, FlatFault>
    ensures ok { IfOk result (λ line. attribute_of (words_of words.now) ≡ Some line) }
    ensures not_built { result ≡ Err FlatFault.NotBuilt → attribute_of (words_of words.now) ≡ None }
{
    let Some((name, value)) = two_of(words) else {
        return Err(FlatFault::NotBuilt);
    };
    let name = identifier_of(alloc, name)?;
    let value = constant_of(alloc, value)?;
    Ok(Line::Attribute(Attribute { name, value }))
}

#[tactic(auto, unfolding(crate::specs::Lines::module_line_of))]
fn module_line_of(alloc: Global, words: &[u8]) -> Result<Line, FlatFault>
    ensures ok { IfOk result (λ line. module_line_of (words_of words.now) ≡ Some line) }
    ensures not_built { result ≡ Err FlatFault.NotBuilt → module_line_of (words_of words.now) ≡ None }
{
    let Some(word) = one_of(words) else {
        return Err(FlatFault::NotBuilt);
    };
    Ok(Line::Module(identifier_of(alloc, word)?))
}

/// A number, and the words behind it.
fn numbered<'a>(words: Option<&'a [u8]>) -> Option<(u32, &'a [u8])>
    ensures { MatchOption result (numbered (parts_left 32 (option_copied words.entry)) ≡ None) (λ found. numbered (parts_left 32 (option_copied words.entry)) ≡ Some (found.0, words_of found.1.now)) }
{
    let (word, rest) = split_first(words?, b' ');
    let rest = rest?;
    let number = number_of(word)?;
    Some((number, rest))
}

#[tactic(auto, unfolding(crate::specs::Lines::named_wire_of))]
fn named_wire_of(alloc: Global, width: u32, port: Port, words: &[u8]) -> Result<Line, FlatFault>
    ensures ok { IfOk result (λ line. named_wire_of width port (words_of words.now) ≡ Some line) }
    ensures not_built { result ≡ Err FlatFault.NotBuilt → named_wire_of width port (words_of words.now) ≡ None }
{
    let Some(word) = one_of(words) else {
        return Err(FlatFault::NotBuilt);
    };
    let name = identifier_of(alloc, word)?;
    Ok(Line::Wire { width, port, name })
}

fn side_of(word: &[u8]) -> Option<Port>
    ensures { result ≡ side_of word.now }
{
    if word == b"input".as_slice() {
        Some(Port::Input)
    } else if word == b"output".as_slice() {
        Some(Port::Output)
    } else {
        None
    }
}

#[tactic(auto, unfolding(crate::specs::Lines::sided_wire_of, crate::specs::Lines::wire_on_side))]
fn sided_wire_of(alloc: Global, width: u32, words: &[u8]) -> Result<Line, FlatFault>
    ensures ok { IfOk result (λ line. sided_wire_of width (words_of words.now) ≡ Some line) }
    ensures not_built { result ≡ Err FlatFault.NotBuilt → sided_wire_of width (words_of words.now) ≡ None }
{
    let (first, rest) = split_first(words, b' ');
    let Some(side) = side_of(first) else {
        return named_wire_of(alloc, width, Port::Internal, words);
    };
    let Some((_, words)) = numbered(rest) else {
        return Err(FlatFault::NotBuilt);
    };
    named_wire_of(alloc, width, side, words)
}

#[tactic(auto, unfolding(crate::specs::Lines::wire_of))]
fn wire_of(alloc: Global, words: &[u8]) -> Result<Line, FlatFault>
    ensures ok { IfOk result (λ line. wire_of (words_of words.now) ≡ Some line) }
    ensures not_built { result ≡ Err FlatFault.NotBuilt → wire_of (words_of words.now) ≡ None }
{
    let (first, rest) = split_first(words, b' ');
    if first != b"width".as_slice() {
        return sided_wire_of(alloc, 1, words);
    }
    let Some((width, words)) = numbered(rest) else {
        return Err(FlatFault::NotBuilt);
    };
    sided_wire_of(alloc, width, words)
}

#[tactic(auto, unfolding(crate::specs::Lines::cell_of))]
fn cell_of(alloc: Global, words: &[u8]) -> Result<Line, FlatFault>
    ensures ok { IfOk result (λ line. cell_of (words_of words.now) ≡ Some line) }
    ensures not_built { result ≡ Err FlatFault.NotBuilt → cell_of (words_of words.now) ≡ None }
{
    let Some((kind, name)) = two_of(words) else {
        return Err(FlatFault::NotBuilt);
    };
    let kind = identifier_of(alloc, kind)?;
    let name = identifier_of(alloc, name)?;
    Ok(Line::Cell { kind, name })
}

#[tactic(auto, unfolding(crate::specs::Lines::parameter_of))]
fn parameter_of(alloc: Global, words: &[u8]) -> Result<Line, FlatFault>
    ensures ok { IfOk result (λ line. parameter_of (words_of words.now) ≡ Some line) }
    ensures not_built { result ≡ Err FlatFault.NotBuilt → parameter_of (words_of words.now) ≡ None }
{
    let Some((name, value)) = two_of(words) else {
        return Err(FlatFault::NotBuilt);
    };
    let name = identifier_of(alloc, name)?;
    let value = constant_of(alloc, value)?;
    Ok(Line::Parameter(Parameter { name, value }))
}

#[tactic(auto, unfolding(crate::specs::Lines::connection_of))]
fn connection_of(alloc: Global, words: &[u8]) -> Result<Line, FlatFault>
    ensures ok { IfOk result (λ line. connection_of (words_of words.now) ≡ Some line) }
    ensures not_built { result ≡ Err FlatFault.NotBuilt → connection_of (words_of words.now) ≡ None }
{
    let Some((port, to)) = two_of(words) else {
        return Err(FlatFault::NotBuilt);
    };
    let port = identifier_of(alloc, port)?;
    let to = operand_of(alloc, to)?;
    Ok(Line::Connect(Connection { port, to }))
}

/// What the words behind a keyword say.
fn keyed_line(alloc: Global, keyword: Keyword, words: &[u8]) -> Result<Line, FlatFault>
    ensures ok { IfOk result (λ line. keyed_line keyword (words_of words.now) ≡ Some line) }
    ensures not_built { result ≡ Err FlatFault.NotBuilt → keyed_line keyword (words_of words.now) ≡ None }
{
    match keyword {
        Keyword::Autoidx => autoidx_of(words).ok_or(FlatFault::NotBuilt),
        Keyword::Attribute => attribute_of(alloc, words),
        Keyword::Module => module_line_of(alloc, words),
        Keyword::Wire => wire_of(alloc, words),
        Keyword::Cell => cell_of(alloc, words),
        Keyword::Parameter => parameter_of(alloc, words),
        Keyword::Connect => connection_of(alloc, words),
        Keyword::End => Err(FlatFault::NotBuilt),
    }
}

/// What a keyword says with no word behind it.
fn line_alone(keyword: Keyword) -> Option<Line>
    ensures { result ≡ keyed_line keyword [] }
{
    match keyword {
        Keyword::End => Some(Line::End),
        _ => None,
    }
}

/// What the words of a line say.
#[tactic(auto, unfolding(crate::specs::Lines::line_of))]
pub(crate) fn line_of(alloc: Global, words: &[u8]) -> Result<Line, FlatFault>
    ensures ok { IfOk result (λ line. line_of (words_of words.now) ≡ Some line) }
    ensures not_built { result ≡ Err FlatFault.NotBuilt → line_of (words_of words.now) ≡ None }
{
    let (first, rest) = split_first(words, b' ');
    let Some(keyword) = keyword_of(first) else {
        return Err(FlatFault::NotBuilt);
    };
    match rest {
        Some(words) => keyed_line(alloc, keyword, words),
        None => line_alone(keyword).ok_or(FlatFault::NotBuilt),
    }
}

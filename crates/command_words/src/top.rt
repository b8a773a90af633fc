//! Which module is meant by the name of a top.
ghost use Rattle.std.specs.Prelude.{◌≡◌, IfOk};
ghost use Rattle.command_words.specs.Top.{is_private, top_identifier};

use sim_base::{Name, NoMemory};
use std::alloc::Global;

fn is_private(name: &[u8]) -> bool
    ensures { result ≡ is_private name.now }
{
    match name {
        [first, _, ..] => *first == b'$',
        _ => false,
    }
}

/// The identifier of the module that is meant by the name behind `--top`. The name is an identifier without its `\`, or one
/// that begins with `$`; where it can be read as both, it is the one that begins with `$`. So `counter` is `\counter` and
/// `$paramod` is itself, but `$` alone, which is no identifier, is `\$`, and `\x` is `\\x`. A name that can be read as neither,
/// as the empty one, becomes a text that no module has as its identifier.
pub fn top_identifier(alloc: Global, name: &Name) -> Result<Name, NoMemory>
    ensures { IfOk result (λ identifier. identifier ≡ top_identifier name.now) }
{
    let name = name.as_bytes();
    if is_private(name) {
        return Name::copy_of(alloc, name);
    }
    let mut identifier = Vec::new(alloc);
    identifier.push(b'\\')?;
    identifier.extend_from_slice(name)?;
    Ok(Name::new(identifier))
}

//! Names of wires, cells, ports and parameters.
ghost use Rattle.std.specs.Prelude.{◌≡◌, ◌≢◌, ℕ, List, map, IfOk, Err};
ghost use Rattle.std.specs.List.{list_any};
ghost use Rattle.flat_design.specs.Names.{same_name, are_distinct, has_backslash, bare_name};

use flat_text::{Cell, Connection, FlatFault, Parameter, Wire};
use sim_base::Name;
use std::alloc::Global;

/// What has a name.
pub trait Named {
    ghost name_of: { Self → List ℕ };

    fn name(&self) -> &Name
        ensures { result.now ≡ name_of self.now };
}

impl Named for Wire {
    ghost name_of = { λ w. w.name };

    fn name(&self) -> &Name {
        &self.name
    }
}

impl Named for Cell {
    ghost name_of = { λ x. x.name };

    fn name(&self) -> &Name {
        &self.name
    }
}

impl Named for Parameter {
    ghost name_of = { λ p. p.name };

    fn name(&self) -> &Name {
        &self.name
    }
}

impl Named for Connection {
    ghost name_of = { λ c. c.port };

    fn name(&self) -> &Name {
        &self.port
    }
}

/// Whether no two have the same name.
pub fn names_differ<T: Named>(items: &[T]) -> bool
    ensures { result ≡ are_distinct (map T.name_of items.now) }
{
    for i in 0..items.len() {
        if has_name(&items[i + 1..], items[i].name()) {
            return false;
        }
    }
    true
}

fn has_name<T: Named>(items: &[T], name: &Name) -> bool
    ensures { result ≡ list_any (same_name name.now) (map T.name_of items.now) }
{
    for item in items {
        if name == item.name() {
            return true;
        }
    }
    false
}

/// Whether the name is this text.
pub fn is_named(name: &Name, text: &[u8]) -> bool
    ensures { result ≡ same_name name.now text.now }
{
    name.as_bytes() == text
}

/// Whether the name is one of the design, and not of the tool.
pub fn has_backslash(name: &Name) -> bool
    ensures { result ≡ has_backslash name.now }
{
    match name.as_bytes() {
        [] => false,
        [first, ..] => *first == b'\\',
    }
}

/// The name without a backslash before it.
pub fn bare_name(alloc: Global, name: &Name) -> Result<Name, FlatFault>
    ensures ok { IfOk result (λ n. n ≡ bare_name name.now) }
    ensures memory { result ≢ Err FlatFault.NotBuilt }
{
    let bytes = match name.as_bytes() {
        [b'\\', rest @ ..] => rest,
        bytes => bytes,
    };
    Ok(Name::copy_of(alloc, bytes)?)
}

//! Names and what they stand for.
ghost use Rattle.std.specs.Prelude.{◌≡◌, ◌<◌, ◌++◌, ◌∷◌, [], IfOk, OnErr, bytes_eq, if◌then◌else◌, length, not, Some, slice_get};
ghost use Rattle.std.specs.Map.{lookup};
ghost use Rattle.std.specs.Option.{is_some};

use indexmap::IndexMap;
use sim_base::NoMemory;
use std::alloc::Global;
use std::marker::Model;

/// Names, each once, and what they stand for, in the order in which they came. The names are pieces of a text,
/// and are not copied. A contract sees the list of the pairs.
#[derive(Drop)]
pub struct Table<'t, V: Copy + Drop> {
    entries: IndexMap<&'t [u8], V>,
}

impl<'t, V: Copy + Drop> Model for Table<'t, V> {
    ghost use Rattle.std.specs.Prelude.{List, ℕ, map};

    ghost Value = { List (List ℕ × V) };

    ghost view = { λ t. map (λ e. (e.0.now, e.1)) t.entries.entries };
}

impl<'t, V: Copy + Drop> Table<'t, V> {
    pub fn new(alloc: Global) -> Table<'t, V>
        ensures { result ≡ [] }
    {
        Table {
            entries: IndexMap::new(alloc),
        }
    }

    /// What a name stands for.
    pub fn get(&self, name: &[u8]) -> Option<V>
        ensures { result ≡ lookup (bytes_eq name.now) self.now }
    {
        self.entries.get(name).copied()
    }

    /// How many names there are.
    pub fn len(&self) -> usize
        ensures { result ≡ length self.now }
    {
        self.entries.len()
    }

    /// The name at a place and what it stands for.
    pub fn entry(&self, at: usize) -> (&'t [u8], V)
        requires { at < length self.now }
        ensures { slice_get self.now at ≡ Some (result.0.now, result.1) }
    {
        match self.entries.get_index(at) {
            Some((name, value)) => (*name, *value),
            None => unreachable!(),
        }
    }

    /// Adds a name behind the others, unless it is there, and answers whether it was not.
    pub fn add(&mut self, name: &'t [u8], value: V) -> Result<bool, NoMemory>
        ensures new { IfOk result (λ new. new ≡ not (is_some (lookup (bytes_eq name.now) self.old))) }
        ensures ok { IfOk result (λ new. self.new ≡ (if new then self.old ++ (name.now, value) ∷ [] else self.old)) }
        ensures err { OnErr result (self.new ≡ self.old) }
    {
        if self.entries.contains_key(name) {
            return Ok(false);
        }
        self.entries.insert(name, value)?;
        Ok(true)
    }
}

//! Bits that are followed along wires to registers.
ghost use Rattle.std.specs.Prelude.{◌≡◌, ◌⊎◌, ℕ, ◌+◌, ◌<◌, ◌≤◌, [], IfOk, OnOk, length, slice_get, Some};
ghost use Rattle.driver_check.specs.Depends.{Bit};
ghost use Rattle.driver_check.specs.Numbers.{IsBit, IsNumbering};
ghost use Rattle.design_starts.specs.Chains.{IsOnWay, IsOrigin, IsPassed, IsTable, IsWalked, IsWalking, one_wire, wires_left};

use crate::places::{Places, places_of};
use crate::taken::{Taken, taken_of};
use circuit::Circuit;
use sim_base::NoMemory;
use std::alloc::Global;

/// For each bit what it comes from, if it was followed, or else what it is taken from.
#[derive(Debug, Drop)]
pub(crate) struct Chains {
    pub places: Places,
    pub table: Vec<Taken>,
}

fn entry_at(table: &[Taken], place: usize) -> Taken
    requires { place < length table.now }
    ensures { slice_get table.now place ≡ Some result }
{
    table[place]
}

/// Makes what was found stand in these places.
fn put(table: &mut Vec<Taken>, path: &[usize], found: Taken)
    requires { (k place : ℕ) → slice_get path.now k ≡ Some place → place < length table.old.items }
    ensures long { length table.new.items ≡ length table.old.items }
    ensures passed { (place : ℕ) → IsPassed path.now place → slice_get table.new.items place ≡ Some found }
    ensures others { (place : ℕ) → (IsPassed path.now place × (slice_get table.new.items place ≡ Some found)) ⊎ (slice_get table.new.items place ≡ slice_get table.old.items place) }
{
    for place in path {
        table[*place] = found;
    }
}

impl Chains {
    /// Nothing was followed yet.
    pub fn new(alloc: Global, circuit: &Circuit) -> Result<Chains, NoMemory>
        ensures places { IfOk result (λ r. IsNumbering circuit.now.nets r.places.firsts.items r.places.bits) }
        ensures long { IfOk result (λ r. length r.table.items ≡ r.places.bits) }
        ensures table { IfOk result (λ r. IsTable circuit.now r.table.items) }
    {
        let places = places_of(alloc, circuit.nets.as_slice())?;
        let table = taken_of(alloc, circuit, &places)?;
        Ok(Chains { places, table })
    }

    /// Passes a bit, if it is taken from another one. Nothing is left in its place until the end is known: so a
    /// walk that comes back to a bit ends there, and a bit on a cycle comes from nothing.
    fn step(
        &mut self,
        circuit: &Circuit,
        net: u32,
        bit: u64,
        path: &mut Vec<usize>,
    ) -> Result<Taken, NoMemory>
        requires places { IsNumbering circuit.now.nets self.old.places.firsts.items self.old.places.bits }
        requires long { length self.old.table.items ≡ self.old.places.bits }
        ensures places { self.new.places ≡ self.old.places }
        ensures long { length self.new.table.items ≡ length self.old.table.items }
        ensures fewer { IfOk result (λ found. wires_left self.new.table.items + one_wire found ≤ wires_left self.old.table.items) }
        ensures way { IfOk result (λ found. (from : Bit) → IsWalking circuit.now from self.old.table.items path.old.items (net, bit) → IsOnWay circuit.now from self.new.table.items path.new.items found) }
    {
        let Some(place) = self.places.place(circuit.nets.as_slice(), net, bit) else {
            return Ok(Taken::Nothing);
        };
        let found = entry_at(&self.table, place);
        if let Taken::Bit(_, _) = found {
            self.table[place] = Taken::Nothing;
            path.push(place)?;
        }
        Ok(found)
    }

    /// Goes from a bit along wires to what they come from.
    fn walk(
        &mut self,
        circuit: &Circuit,
        from: (u32, u64),
        path: &mut Vec<usize>,
    ) -> Result<Taken, NoMemory>
        requires places { IsNumbering circuit.now.nets self.old.places.firsts.items self.old.places.bits }
        requires long { length self.old.table.items ≡ self.old.places.bits }
        requires table { IsTable circuit.now self.old.table.items }
        requires path { path.old.items ≡ [] }
        ensures places { self.new.places ≡ self.old.places }
        ensures long { length self.new.table.items ≡ length self.old.table.items }
        ensures walked { IfOk result (λ end. IsWalked circuit.now (from.0, from.1) self.new.table.items path.new.items end) }
    {
        let mut found = Taken::Bit(from.0, from.1);
        'wires: while let Taken::Bit(net, bit) = found {
            found = self.step(circuit, net, bit, path)?;
        }
        Ok(found)
    }

    /// What a bit comes from. Each wire is passed once, however many bits are followed.
    pub fn origin(
        &mut self,
        alloc: Global,
        circuit: &Circuit,
        net: u32,
        bit: u32,
    ) -> Result<Taken, NoMemory>
        requires places { IsNumbering circuit.now.nets self.old.places.firsts.items self.old.places.bits }
        requires long { length self.old.table.items ≡ self.old.places.bits }
        requires table { IsTable circuit.now self.old.table.items }
        ensures places { self.new.places ≡ self.old.places }
        ensures long { length self.new.table.items ≡ length self.old.table.items }
        ensures table { OnOk result (IsTable circuit.now self.new.table.items) }
        ensures origin { IfOk result (λ end. IsOrigin circuit.now (net, bit) end) }
    {
        let mut path = Vec::new(alloc);
        let end = self.walk(circuit, (net, bit as u64), &mut path)?;
        put(&mut self.table, &path, end);
        Ok(end)
    }
}

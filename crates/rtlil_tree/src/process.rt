//! Processes, as they are written.
use crate::module::Assignment;
use crate::place::Place;
use crate::sig::Sig;
use rtlil_lexer::Spelling;
use sqlite_items::Items;

#[derive(Drop)]
pub struct Process<'t> {
    /// Where the word `process` stands.
    pub place: Place,
    /// The identifier as written.
    pub name: Spelling<'t>,
    pub body: Items<Action<'t>>,
    pub syncs: Items<Sync<'t>>,
}

/// A part of a process or of a case. Of two that give one bit a value the later counts.
#[cycle(action)]
#[derive(Drop)]
pub enum Action<'t> {
    Assign(Assignment<'t>),
    Switch(Switch<'t>),
}

#[cycle(action)]
#[derive(Drop)]
pub struct Switch<'t> {
    pub on: Sig<'t>,
    /// The first that fits is taken.
    pub cases: Items<Case<'t>>,
}

#[cycle(action)]
#[derive(Drop)]
pub struct Case<'t> {
    /// What it fits; where there is nothing, it fits always.
    pub compare: Items<Sig<'t>>,
    pub body: Items<Action<'t>>,
}

/// When the updates of a process are made.
#[derive(Drop)]
pub enum Trigger<'t> {
    Always,
    Init,
    Posedge(Sig<'t>),
    Negedge(Sig<'t>),
    Edge(Sig<'t>),
    High(Sig<'t>),
    Low(Sig<'t>),
}

#[derive(Drop)]
pub struct Sync<'t> {
    pub when: Trigger<'t>,
    pub updates: Items<Assignment<'t>>,
}

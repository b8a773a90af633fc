//! What was read so far, with the attributes that wait for their owner.
use crate::module::{Attribute, Module, Statement};
use sqlite_items::Items;

#[derive(Drop)]
pub(crate) struct Statements<'t> {
    pub(crate) waiting: Items<Attribute<'t>>,
    pub(crate) found: Items<Statement<'t>>,
}

#[derive(Drop)]
pub(crate) struct Modules<'t> {
    pub(crate) waiting: Items<Attribute<'t>>,
    pub(crate) found: Items<Module<'t>>,
}

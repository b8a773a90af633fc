//! The open instances of a walk.
ghost use Rattle.std.specs.Prelude.{◌≡◌, ◌+◌, ◌<◌, ◌^◌, ◌++◌, ◌∷◌, [], OnOk, IfOk, false, true, length, replicate, reverse, set};
ghost use Rattle.design_parts.specs.Parts.{Runs};
ghost use Rattle.design_walk.specs.Modules.{LeadsTo};
ghost use Rattle.design_descent.specs.Frames.{IsDescent, pending};
ghost use Rattle.design_descent.specs.Turns.{Turns};

use crate::frame::Frame;
use crate::statement::take_statement;
use design_parts::{Draft, Refusal};
use name_table::Table;
use rtlil_tree::Module;
use sim_base::NoMemory;
use sqlite_items::at;
use std::alloc::Global;

/// The instances that a walk stands in.
#[derive(Drop)]
pub struct Descent<'m, 't> {
    /// Module by module whether it is that of an open instance.
    pub open_modules: Vec<bool>,
    /// The innermost one comes last.
    pub frames: Vec<Frame<'m, 't>>,
}

impl<'m, 't> Descent<'m, 't> {
    /// No instance is open, of so many modules.
    pub fn new(alloc: Global, modules: usize) -> Result<Descent<'m, 't>, NoMemory>
        ensures flags { IfOk result (λ descent. descent.open_modules.items ≡ replicate modules false) }
        ensures frames { IfOk result (λ descent. descent.frames.items ≡ []) }
    {
        Ok(Descent {
            open_modules: vec![in alloc; false; modules]?,
            frames: Vec::new(alloc),
        })
    }

    /// Opens an instance inside the others.
    pub fn enter(&mut self, frame: Frame<'m, 't>) -> Result<(), NoMemory>
        requires { frame.number < length self.old.open_modules.items }
        ensures flags { OnOk result (self.new.open_modules.items ≡ set self.old.open_modules.items frame.entry.number true) }
        ensures frames { OnOk result (self.new.frames.items ≡ self.old.frames.items ++ frame.entry ∷ []) }
    {
        self.open_modules[frame.number] = true;
        self.frames.push(frame)?;
        Ok(())
    }

    /// Closes an instance that was taken off.
    fn leave(&mut self, frame: Frame<'m, 't>)
        requires { frame.number < length self.old.open_modules.items }
        ensures flags { self.new.open_modules.items ≡ set self.old.open_modules.items frame.entry.number false }
        ensures frames { self.new.frames.items ≡ self.old.frames.items }
    {
        self.open_modules[frame.number] = false;
    }

    /// Puts an instance back that was taken off, past the statement that was taken.
    fn go_on(&mut self, frame: Frame<'m, 't>) -> Result<(), NoMemory>
        requires { frame.next + 1 < 2 ^ 64 }
        ensures flags { OnOk result (self.new.open_modules.items ≡ self.old.open_modules.items) }
        ensures frames { OnOk result (self.new.frames.items ≡ self.old.frames.items ++ (record frame.entry { next = frame.entry.next + 1 }) ∷ []) }
    {
        self.frames.push(Frame {
            number: frame.number,
            unit: frame.unit,
            place: frame.place,
            wires: frame.wires,
            clashes: frame.clashes,
            next: frame.next + 1,
        })?;
        Ok(())
    }

    /// Goes on with an instance that was taken off.
    fn advance(
        &mut self,
        alloc: Global,
        modules: &'m [Module<'t>],
        places: &Table<usize>,
        frame: Frame<'m, 't>,
        draft: &mut Draft<'t>,
    ) -> Result<(), Refusal>
        requires leads { LeadsTo places.now modules.now }
        requires descent { IsDescent modules.now self.old.open_modules.items (frame ∷ reverse self.old.frames.items) }
        ensures { Turns modules.now (frame.entry ∷ reverse self.old.frames.items) draft.old result self.new.open_modules.items (reverse self.new.frames.items) draft.new }
    {
        let unit = frame.unit;
        let Some(statement) = at(unit.statements.as_slice(), frame.next) else {
            self.leave(frame);
            return Ok(());
        };
        let Some(clash) = at(frame.clashes.as_slice(), frame.next) else {
            self.leave(frame);
            return Ok(());
        };
        let clash = *clash;
        let inside = take_statement(
            alloc,
            modules,
            places,
            &self.open_modules,
            &frame,
            clash,
            statement,
            draft,
        )?;
        self.go_on(frame)?;
        let Some(inside) = inside else {
            return Ok(());
        };
        self.enter(inside)?;
        Ok(())
    }

    /// A turn of the walk: the innermost instance takes its next statement, or is left behind its last one.
    fn turn(
        &mut self,
        alloc: Global,
        modules: &'m [Module<'t>],
        places: &Table<usize>,
        draft: &mut Draft<'t>,
    ) -> Result<(), Refusal>
        requires leads { LeadsTo places.now modules.now }
        requires descent { IsDescent modules.now self.old.open_modules.items (reverse self.old.frames.items) }
        requires some { 0 < length self.old.frames.items }
        ensures { Turns modules.now (reverse self.old.frames.items) draft.old result self.new.open_modules.items (reverse self.new.frames.items) draft.new }
    {
        match self.frames.pop() {
            Some(frame) => self.advance(alloc, modules, places, frame, draft),
            None => unreachable!(),
        }
    }

    /// Takes all that is left of the open instances.
    pub fn finish(
        &mut self,
        alloc: Global,
        modules: &'m [Module<'t>],
        places: &Table<usize>,
        draft: &mut Draft<'t>,
    ) -> Result<(), Refusal>
        requires leads { LeadsTo places.now modules.now }
        requires descent { IsDescent modules.now self.old.open_modules.items (reverse self.old.frames.items) }
        ensures { Runs (pending modules.now (reverse self.old.frames.items)) draft.old result draft.new }
    {
        'turns: while !self.frames.is_empty() {
            self.turn(alloc, modules, places, draft)?;
        }
        Ok(())
    }
}

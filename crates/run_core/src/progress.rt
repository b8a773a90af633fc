//! How far the samples of a run were given, with the words of the last one.
ghost use Rattle.std.specs.Prelude.{◌≡◌, ◌<◌, ◌+◌, None, true, false, IfOk, IfSome, IsSome, is_some, map, length, ◌↔◌};
ghost use Rattle.std.specs.Arc.{arc_value};
ghost use Rattle.sim_base.specs.Shape.{words_of_widths};
ghost use Rattle.sim_base.specs.Values.{widths};
ghost use Rattle.circuit.specs.Rounds.{standing_at};
ghost use Rattle.circuit.specs.Slots.{slot_widths};
ghost use Rattle.circuit.specs.Valid.{is_valid};
ghost use Rattle.eval_commit.specs.Evaluation.{input_width};
ghost use Rattle.eval_plan.specs.Plans.{IsPlanOf};
ghost use Rattle.stimulus_blocks.specs.Courses.{input_widths, row_of, run_of, sample_count};
ghost use Rattle.run_core.specs.Progress.{IsProgress};
ghost use Rattle.run_core.specs.Words.{words_at};

use crate::cursor::Cursor;
use crate::words::put_words;
use circuit::Circuit;
use eval_plan::Plan;
use sim_base::{Bits, NoMemory, Time};
use std::alloc::Global;
use std::sync::Arc;
use stimulus_blocks::Stimulus;

/// How many samples were given, how the circuit stands after them, and what the last of them shows.
#[derive(Debug, Drop)]
pub struct Progress {
    pub cursor: Cursor,
    /// For each memory room for one of its rows.
    pub rooms: Vec<Bits>,
    /// The words of all slots.
    pub words: Vec<u32>,
}

/// For each memory room for one of its rows.
fn rooms_of(alloc: Global, circuit: &Circuit) -> Result<Vec<Bits>, NoMemory>
    ensures { IfOk result (λ rooms. widths rooms.items ≡ map (λ m. m.width) circuit.now.mems) }
{
    let mut rooms = Vec::new(alloc);
    for mem in circuit.mems.as_slice() {
        rooms.push(Bits::zero(alloc, mem.width)?)?;
    }
    Ok(rooms)
}

/// As many zeros as there are words of all slots.
fn zero_words(alloc: Global, circuit: &Circuit) -> Result<Vec<u32>, NoMemory>
    requires { is_valid circuit.now ≡ true }
    ensures { IfOk result (λ words. length words.items ≡ words_of_widths (slot_widths circuit.now)) }
{
    let shape = circuit.shape(alloc)?;
    Ok(vec![in alloc; 0u32; shape.words() as usize]?)
}

impl Progress {
    /// No samples yet.
    pub fn new(
        alloc: Global,
        circuit: Arc<Circuit>,
        stimulus: &Stimulus,
        plan: Plan,
    ) -> Result<Progress, NoMemory>
        requires plan { IsPlanOf (arc_value circuit) plan }
        requires inputs { input_widths stimulus.now ≡ map (input_width (arc_value circuit)) (arc_value circuit).inputs }
        ensures progress { IfOk result (IsProgress (arc_value circuit) stimulus.now) }
        ensures none { IfOk result (λ progress. progress.cursor.given ≡ 0) }
    {
        let rooms = rooms_of(alloc, &circuit)?;
        let words = zero_words(alloc, &circuit)?;
        let cursor = Cursor::new(alloc, circuit, stimulus, plan)?;
        Ok(Progress {
            cursor,
            rooms,
            words,
        })
    }

    /// Goes on by one sample where it settles, and tells its time. The words of all slots are renewed.
    pub fn go_on(&mut self, circuit: &Circuit, stimulus: &Stimulus) -> Option<Time>
        requires progress { IsProgress circuit.now stimulus.now self.old }
        requires there { self.old.cursor.given < sample_count stimulus.now }
        requires free { self.old.cursor.stuck ≡ false }
        ensures progress { IsProgress circuit.now stimulus.now self.new }
        ensures settles { IsSome result ↔ (is_some (standing_at (run_of circuit.now stimulus.now) self.old.cursor.given) ≡ true) }
        ensures given { IfSome result (λ time. self.new.cursor.given ≡ self.old.cursor.given + 1) }
        ensures time { IfSome result (λ time. time ≡ (row_of stimulus.now self.old.cursor.given).time) }
        ensures words { IfSome result (λ time. self.new.words.items ≡ words_at (run_of circuit.now stimulus.now) self.old.cursor.given) }
        ensures stuck { result ≡ None → self.new.cursor.given ≡ self.old.cursor.given }
    {
        let time = self.cursor.go_on(stimulus)?;
        put_words(
            &self.cursor.machine,
            circuit,
            &mut self.rooms,
            &mut self.words,
        );
        Some(time)
    }
}

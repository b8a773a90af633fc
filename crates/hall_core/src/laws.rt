//! Laws of histories. A function here does nothing: its contract is the law.
ghost use Rattle.std.specs.Prelude.{◌≡◌, ◌≢◌, ◌<◌, ◌≤◌, is_some, ◌⊎◌, ℕ, List, [], ◌∷◌, ◌++◌, length, true, false};
ghost use Rattle.std.specs.List.{list_any};
ghost use Rattle.hall_core.specs.declared.entry.Entry.{Entry};
ghost use Rattle.hall_core.specs.declared.entry.Goal.TheVariants.{Hold as Held};
ghost use Rattle.circuit.specs.Rounds.{Run, standing_at};
ghost use Rattle.hall_core.specs.Facts.{facts_of};
ghost use Rattle.sim_base.specs.declared.kinds.Kinds.{Kinds};
ghost use Rattle.hall_core.specs.declared.entry.Entry.TheVariants as entry;
ghost use Rattle.hall_core.specs.declared.entry.Goal.TheVariants as goal;
ghost use Rattle.hall_core.specs.Batches.{may_record, may_stop, most_recorded, record_of};
ghost use Rattle.hall_core.specs.Moments.{moment_of, step};
ghost use Rattle.hall_core.specs.Laws.{AllSmall, BeginsWithSample, IsUnsettledAtOnce, LiesAhead, Taken, is_recording, is_run, is_there, opened};
ghost use Rattle.hall_core.specs.Legal.{Legal, Next, RunFacts, allowed, is_open};
ghost use Rattle.hall_core.specs.LogText.{log_text};
ghost use Rattle.hall_core.specs.Replay.{Replayed, reached, replay};

/// Every beginning of a legal history is legal, but for the empty one.
#[tactic(auto, using(crate::proofs::Histories::legal_beginning))]
pub fn law_of_beginnings()
    ensures { (run : RunFacts) → (begun more : List Entry)
        → begun ≢ [] → Legal run (begun ++ more) → Legal run begun }
{}

/// Steps from the empty history lead to the legal histories and to no other, each step adding an entry that may come
/// next.
#[tactic(auto, using(crate::proofs::Histories::legal_taken, crate::proofs::Histories::taken_legal))]
pub fn law_of_steps()
    ensures legal { (run : RunFacts) → (history : List Entry) → Taken run history → history ≢ [] → Legal run history }
    ensures taken { (run : RunFacts) → (history : List Entry) → Legal run history → Taken run history }
{}

/// The number of samples never falls, and in a legal history never passes the samples that settle.
pub fn law_of_progress()
    ensures never_falls { (before more : List Entry) → (replay before).n ≤ (replay (before ++ more)).n }
    ensures never_passes { (run : RunFacts) → (history : List Entry) → Legal run history → (replay history).n ≤ run.length }
{}

/// In a legal history of a circuit under its samples each sample that is recorded settles.
pub fn law_of_runs()
    ensures { (run : Run) → (history : List Entry) → (k : ℕ)
        → Legal (facts_of run) history → k < (replay history).n → is_some (standing_at run k) ≡ true }
{}

/// Whatever comes after the goal is held, nothing is recorded until a run is asked for.
#[tactic(auto, using(crate::proofs::Progress::holds))]
pub fn law_of_hold()
    ensures { (run : RunFacts) → (before more : List Entry) → (e : Entry)
        → Legal run before → (replay before).goal ≡ Held → list_any is_run more ≡ false → is_recording e ≡ true
        → allowed run.count (replay (before ++ more)) e ≡ false }
{}

/// Two histories with the same log are one history.
#[tactic(auto, using(crate::proofs::Texts::same_history))]
pub fn law_of_logs()
    ensures { (first second : List Entry) → AllSmall first → AllSmall second → log_text first ≡ log_text second
        → first ≡ second }
{}

/// A legal history begins with the record of sample 0, or is Unsettled, or Unsettled and End.
pub fn law_of_first_entries()
    ensures { (run : RunFacts) → (history : List Entry) → Legal run history
        → BeginsWithSample run history ⊎ IsUnsettledAtOnce run history }
{}

/// Where an entry reaches a goal, or is Unsettled, the goal is held.
#[tactic(auto, using(crate::proofs::Beginnings::reached_held))]
pub fn law_of_goals()
    ensures { (before : List Entry) → (e : Entry) → reached (before ++ e ∷ []) (length before) ≡ true
        → (replay (before ++ e ∷ [])).goal ≡ Held }
{}

/// A client is open exactly where it was opened and not closed.
pub fn law_of_clients()
    ensures { (run : RunFacts) → (history : List Entry) → (c : ℕ) → Legal run history
        → is_open (replay history) c ≡ is_there history c }
{}

/// What is said of the samples follows from entry to entry by itself, whichever clients there are.
#[tactic(auto, using(crate::proofs::Ahead::moment_push))]
pub fn law_of_moments()
    ensures { (before : List Entry) → (e : Entry)
        → moment_of (replay (before ++ e ∷ [])) ≡ step (moment_of (replay before)) e }
{}

/// In a legal history a goal lies ahead of what is recorded, within the samples, and no sample was found not to settle.
pub fn law_of_goals_ahead()
    ensures { (run : RunFacts) → (history : List Entry) → (g : ℕ) → (kinds : Kinds) → Legal run history
        → (replay history).goal ≡ goal.To g kinds → LiesAhead run (replay history) g }
{}

/// In a legal history clients are opened in the order of their numbers: 0, 1, 2 and so on.
pub fn law_of_openings()
    ensures { (run : RunFacts) → (before more : List Entry) → (c : ℕ)
        → Legal run (before ++ entry.Open c ∷ more) → c ≡ opened before }
{}

/// So many samples may be recorded next, or none but the record that a sample does not settle, exactly where a run
/// may have that entry next.
#[tactic(auto, using(crate::proofs::Batches::may_record_next, crate::proofs::Batches::next_may_record, crate::proofs::Batches::may_stop_next, crate::proofs::Batches::next_may_stop))]
pub fn law_of_records()
    ensures may { (run : RunFacts) → (history : List Entry) → (m : ℕ) → may_record run (replay history) m ≡ true
        → Next run history (record_of run (replay history) m) }
    ensures next { (run : RunFacts) → (history : List Entry) → (m : ℕ) → Next run history (record_of run (replay history) m)
        → may_record run (replay history) m ≡ true }
    ensures may_stop { (run : RunFacts) → (history : List Entry) → may_stop run (replay history) ≡ true
        → Next run history entry.Unsettled }
    ensures next_stop { (run : RunFacts) → (history : List Entry) → Next run history entry.Unsettled
        → may_stop run (replay history) ≡ true }
{}

/// The most samples of a batch may be recorded, where it is not 0, and no greater number up to the batch's size may.
#[tactic(auto, using(crate::proofs::Batches::greatest_passes, crate::proofs::Batches::greatest_most, crate::proofs::Batches::greatest_within))]
pub fn law_of_batches()
    ensures may { (run : RunFacts) → (s : Replayed) → (size : ℕ) → 0 < most_recorded size run s
        → may_record run s (most_recorded size run s) ≡ true }
    ensures most { (run : RunFacts) → (s : Replayed) → (size m : ℕ) → m ≤ size → may_record run s m ≡ true
        → m ≤ most_recorded size run s }
    ensures within { (run : RunFacts) → (s : Replayed) → (size : ℕ) → most_recorded size run s ≤ size }
{}

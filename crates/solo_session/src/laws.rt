//! Laws of a run with one client. A function here does nothing: its contract is the law.
ghost use Rattle.std.specs.Prelude.{◌≡◌, ◌≤◌, ◌++◌, ◌∷◌, [], List, length, ℕ};
ghost use Rattle.circuit.specs.Rounds.{Run, run_length};
ghost use Rattle.hall_core.specs.Facts.{facts_of};
ghost use Rattle.hall_core.specs.Legal.{Legal};
ghost use Rattle.hall_core.specs.Replay.{replay};
ghost use Rattle.hall_core.specs.declared.entry.Entry.{Entry};
ghost use Rattle.hall_core.specs.declared.entry.Goal.TheVariants.{Hold as Held};
ghost use Rattle.solo_session.specs.Pace.{batches, opening, packets_of, solo_history, with_packets};
ghost use Rattle.session_core.specs.Said.{Agrees, given_by, moments, packets_in, replies, said};

/// The history that a client's bytes give is legal. Its packet entries do what the client's packets ask, and each
/// packet has its entry where sample 0 settles. At the end of the bytes, as many batches as there are samples leave no goal.
#[tactic(auto, using(crate::proofs::Paced::solo_legal, crate::proofs::Paced::solo_agrees, crate::proofs::Paced::solo_counted, crate::proofs::Finished::none_left))]
pub fn law_of_pace()
    ensures legal { (run : Run) → (bytes : List ℕ) → 1 ≤ run.count → Legal (facts_of run) (solo_history run bytes) }
    ensures agrees { (run : Run) → (bytes : List ℕ) → Agrees run (packets_of bytes) 0 (solo_history run bytes) }
    ensures counted { (run : Run) → (bytes : List ℕ) → 1 ≤ run_length run
        → packets_in 0 (solo_history run bytes) ≡ length (packets_of bytes) }
    ensures ended { (run : Run) → (packets : List (List ℕ)) → 1 ≤ run_length run
        → (replay (batches (facts_of run) run.count (with_packets run [] opening packets))).goal ≡ Held }
{}

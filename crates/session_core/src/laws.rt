//! Laws of what clients are told. A function here does nothing: its contract is the law.
ghost use Rattle.std.specs.Prelude.{◌≡◌, ◌≤◌, ◌++◌, ◌∷◌, [], List, length, ℕ};
ghost use Rattle.std.specs.List.{list_any};
ghost use Rattle.circuit.specs.Rounds.{Run};
ghost use Rattle.hall_core.specs.Facts.{facts_of};
ghost use Rattle.hall_core.specs.Legal.{Legal};
ghost use Rattle.hall_core.specs.Replay.{replay};
ghost use Rattle.hall_core.specs.declared.entry.Entry.{Entry};
ghost use Rattle.hall_core.specs.declared.entry.Entry.TheVariants as entry;
ghost use Rattle.proto_packets.specs.Asked.{asked};
ghost use Rattle.session_core.specs.Recorded.{AreAlike};
ghost use Rattle.session_core.specs.Refusals.{client_after, client_of, greets};
ghost use Rattle.session_core.specs.Said.{given_by, moments, packets_in, replies, said};

/// What a history says to a client is what its entries give to it, one behind the other.
#[tactic(auto, using(crate::proofs::Sayings::said_push))]
pub fn law_of_entries()
    ensures { (run : Run) → (packets : List (List ℕ)) → (c : ℕ) → (history : List Entry) → (e : Entry)
        → said run packets c (history ++ e ∷ []) ≡ said run packets c history ++ given_by run packets c history e }
{}

/// A client's replies depend on its own packets and on what stands just after each of their entries: whatever else two
/// legal histories of a run have, and whatever the other clients send, the replies are the same.
#[tactic(auto, using(crate::proofs::Isolated::isolated))]
pub fn law_of_isolation()
    ensures { (run : Run) → (packets : List (List ℕ)) → (c : ℕ) → (one other : List Entry)
        → Legal (facts_of run) one → Legal (facts_of run) other → moments c one ≡ moments c other
        → replies run packets c one ≡ replies run packets c other }
{}

/// What a client sends behind the packets that have their entries changes nothing of what was said to it.
#[tactic(auto, using(crate::proofs::Sayings::said_more))]
pub fn law_of_more_packets()
    ensures { (run : Run) → (earlier more : List (List ℕ)) → (c : ℕ) → (history : List Entry)
        → packets_in c history ≤ length earlier → said run (earlier ++ more) c history ≡ said run earlier c history }
{}

/// Nothing is said to a client before it is opened.
#[tactic(auto, using(crate::proofs::Opened::unopened))]
pub fn law_of_openings()
    ensures { (run : Run) → (packets : List (List ℕ)) → (c : ℕ) → (before more : List Entry)
        → Legal (facts_of run) (before ++ entry.Open c ∷ more) → said run packets c before ≡ [] }
{}

/// What a client's packets make of it goes on packet by packet, and the client is greeted where one of them is a
/// greeting of version 0.
#[tactic(auto, using(crate::proofs::Greeting::greeted_by_one, crate::proofs::Sayings::client_push))]
pub fn law_of_clients()
    ensures step { (earlier : List (List ℕ)) → (packet : List ℕ) → client_of (earlier ++ packet ∷ []) ≡ client_after (client_of earlier) (asked packet) }
    ensures greeted { (packets : List (List ℕ)) → (client_of packets).greeted ≡ list_any (λ packet. greets (asked packet)) packets }
{}

/// What is said holds values of recorded samples alone: two runs of one circuit, with as many samples at the same times, that
/// show the same at each sample that a history records, say the same by it.
#[tactic(auto, using(crate::proofs::Recorded::said_alike))]
pub fn law_of_recorded_samples()
    ensures { (one other : Run) → (packets : List (List ℕ)) → (c : ℕ) → (history : List Entry)
        → AreAlike (replay history).n one other → said one packets c history ≡ said other packets c history }
{}

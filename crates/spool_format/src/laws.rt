//! Laws of records. A function here does nothing: its contract is the law.
ghost use Rattle.std.specs.Prelude.{◌≡◌, ◌≢◌, ◌≤◌, ◌+◌, ◌%◌, flat_map, ◌++◌, ◌∷◌, [], List, None, Some, map, length, ℕ};
ghost use Rattle.std.specs.List.{All};
ghost use Rattle.sim_base.specs.TimeText.{largest_time};
ghost use Rattle.spool_format.specs.declared.sample.Sample.{Sample};
ghost use Rattle.spool_format.specs.Fields.{IsRead};
ghost use Rattle.spool_format.specs.Records.{IsNext, IsSampleOf, Records, change_record, changed_slots, chunk_words, slots_with_words, times, whole_record};
ghost use Rattle.spool_format.specs.Kept.{AreChunksOf, Recording, next_record, recording_of, with_sample};
ghost use Rattle.spool_format.specs.Reading.{set_slots};
ghost use Rattle.sim_base.specs.Shape.{words_of_widths};
ghost use Rattle.spool_format.specs.Worked.{counter, sample_of};

/// No words record no samples.
#[tactic(auto, using(crate::proofs::Grown::no_samples))]
pub fn law_of_no_samples()
    ensures { (widths : List ℕ) → Records widths [] [] }
{}

/// Where the samples so far are whole chunks, the whole record of the next one goes on with the recording.
pub fn law_of_chunks()
    ensures { (widths words : List ℕ) → (samples : List Sample) → (s : Sample) → Records widths words samples → IsNext widths samples s
        → length samples % 256 ≡ 0 → Records widths (words ++ whole_record s) (samples ++ s ∷ []) }
{}

/// Where they are not, the record of what changed from the last one to the next does.
pub fn law_of_changes()
    ensures { (widths words : List ℕ) → (samples : List Sample) → (before s : Sample) → Records widths words (samples ++ before ∷ [])
        → IsNext widths (samples ++ before ∷ []) s → length (samples ++ before ∷ []) % 256 ≢ 0
        → Records widths (words ++ change_record widths before s) (samples ++ before ∷ s ∷ []) }
{}

/// Where a whole record stands, its fields are read, whatever is before and behind it.
pub fn law_of_whole_fields()
    ensures { (front rest : List ℕ) → (s : Sample) → s.time ≤ largest_time → IsRead (front ++ (whole_record s ++ rest)) (length front) 0 s.time None }
{}

/// Where a record of what changed stands, its fields are read, whatever is before and behind it.
pub fn law_of_change_fields()
    ensures { (widths front rest : List ℕ) → (before s : Sample) → s.time ≤ largest_time
        → IsRead (front ++ (change_record widths before s ++ rest)) (length front) 1 s.time (Some (length (changed_slots widths before.words s.words))) }
{}

/// A clock and a counter over four samples, and slots of many widths: the third of them goes back to what it was two
/// samples before, and the second, of no bits, never changes.
pub fn worked_records()
    ensures counter { chunk_words (1 ∷ 8 ∷ []) counter ≡
        0 ∷ 0 ∷ 0 ∷ 0 ∷ 0 ∷ 0 ∷
        1 ∷ 0x4C4B40 ∷ 0 ∷ 0 ∷ 2 ∷ 0 ∷ 1 ∷ 1 ∷ 1 ∷
        1 ∷ 0x989680 ∷ 0 ∷ 0 ∷ 1 ∷ 0 ∷ 0 ∷
        1 ∷ 0xE4E1C0 ∷ 0 ∷ 0 ∷ 2 ∷ 0 ∷ 1 ∷ 1 ∷ 2 ∷ [] }
    ensures widths { chunk_words (33 ∷ 0 ∷ 1 ∷ 64 ∷ [])
        (sample_of 0 0 (5 ∷ 1 ∷ 0 ∷ 7 ∷ 8 ∷ []) ∷ sample_of 1 0x3_0000_0002_0000_0001 (5 ∷ 1 ∷ 1 ∷ 7 ∷ 9 ∷ []) ∷ sample_of 2 0x3_0000_0002_0000_0002 (5 ∷ 0 ∷ 0 ∷ 7 ∷ 9 ∷ []) ∷ []) ≡
        0 ∷ 0 ∷ 0 ∷ 0 ∷ 5 ∷ 1 ∷ 0 ∷ 7 ∷ 8 ∷
        1 ∷ 1 ∷ 2 ∷ 3 ∷ 2 ∷ 2 ∷ 1 ∷ 3 ∷ 7 ∷ 9 ∷
        1 ∷ 2 ∷ 2 ∷ 3 ∷ 2 ∷ 0 ∷ 5 ∷ 0 ∷ 2 ∷ 0 ∷ [] }
    ensures same { changed_slots (33 ∷ 0 ∷ 1 ∷ []) (5 ∷ 1 ∷ 1 ∷ []) (5 ∷ 1 ∷ 1 ∷ []) ≡ [] }
{}

/// The words of a chunk tell its samples: those of another with the same words have the same times and words.
pub fn law_of_reading()
    ensures { (widths : List ℕ) → (one other : List Sample) → All (IsSampleOf widths) one → All (IsSampleOf widths) other
        → chunk_words widths one ≡ chunk_words widths other → (times one ≡ times other) × (map (λ s. s.words) one ≡ map (λ s. s.words) other) }
{}

/// Where a list of the slots that differ stands, setting them in the words of the sample before gives those of the next one.
#[tactic(auto, using(crate::proofs::SlotsSet::changes_set))]
pub fn law_of_setting()
    ensures { (widths rest : List ℕ) → (before s : Sample) → length before.words ≡ words_of_widths widths → length s.words ≡ words_of_widths widths
        → set_slots widths (length (changed_slots widths before.words s.words)) (slots_with_words widths s.words (changed_slots widths before.words s.words) ++ rest) before.words ≡ s.words }
{}

/// The recording that chunks stand for is the one that they keep.
#[tactic(auto, using(crate::proofs::Decoded::kept_read))]
pub fn law_of_samples()
    ensures { (r : Recording) → (full : List (List ℕ)) → (growing : List ℕ) → AreChunksOf r full growing → recording_of r.widths full growing ≡ r }
{}

/// The words of all chunks record the samples.
#[tactic(auto, using(crate::proofs::KeptOn::kept_records))]
pub fn law_of_kept()
    ensures { (r : Recording) → (full : List (List ℕ)) → (growing : List ℕ) → AreChunksOf r full growing
        → Records r.widths (flat_map (λ words. words) (full ++ growing ∷ [])) r.samples }
{}

/// With the record of the next sample behind the chunk that grows, the chunks keep one sample more. The chunk is full at 256.
pub fn law_of_next()
    ensures within { (r : Recording) → (full : List (List ℕ)) → (growing : List ℕ) → (s : Sample) → AreChunksOf r full growing → IsNext r.widths r.samples s
        → (length r.samples + 1) % 256 ≢ 0 → AreChunksOf (with_sample r s) full (growing ++ next_record r s) }
    ensures full { (r : Recording) → (full : List (List ℕ)) → (growing : List ℕ) → (s : Sample) → AreChunksOf r full growing → IsNext r.widths r.samples s
        → (length r.samples + 1) % 256 ≡ 0 → AreChunksOf (with_sample r s) (full ++ (growing ++ next_record r s) ∷ []) [] }
{}

/// No chunks stand for no samples.
pub fn law_of_no_chunks()
    ensures kept { (widths : List ℕ) → AreChunksOf (recording_of widths [] []) [] [] }
    ensures samples { (widths : List ℕ) → (recording_of widths [] []).samples ≡ [] }
{}

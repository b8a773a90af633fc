//! Laws of the samples of a stimulus.
ghost use Rattle.std.specs.Prelude.{ℕ, ◌<◌, ◌≤◌, ◌↔◌};
ghost use Rattle.sim_base.specs.TimeText.{largest_time};
ghost use Rattle.stimulus_blocks.specs.Courses.{Course, IsCourse, row_of, sample_count, samples_until};

/// Times rise from sample to sample, and none is above the largest time.
pub fn law_of_times()
    ensures rise { (s : Course) → IsCourse s → (i j : ℕ) → i < j → j < sample_count s → (row_of s i).time < (row_of s j).time }
    ensures most { (s : Course) → IsCourse s → (k : ℕ) → k < sample_count s → (row_of s k).time ≤ largest_time }
{}

/// The samples at or before a time are the first ones: as many as are counted.
pub fn law_of_counts()
    ensures { (s : Course) → IsCourse s → (time k : ℕ) → k < sample_count s → (k < samples_until (row_of s) (sample_count s) time) ↔ ((row_of s k).time ≤ time) }
{}

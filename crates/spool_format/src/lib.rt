//! The words in which a recording keeps its samples: whole records, and records of what changed.
#![tactic(auto)]

mod chunks;
mod fields;
mod laws;
mod sample;
mod shaped;
mod view;
mod write;

pub use chunks::Chunks;
pub use fields::{changes, tag, time};
pub use laws::{
    law_of_change_fields, law_of_changes, law_of_chunks, law_of_kept, law_of_next,
    law_of_no_chunks, law_of_no_samples, law_of_reading, law_of_samples, law_of_setting,
    law_of_whole_fields, worked_records,
};
pub use sample::{Sample, Words};
pub use shaped::is_sample;
pub use sim_base::Shape;
pub use view::SpoolView;
pub use write::{write_change, write_whole};

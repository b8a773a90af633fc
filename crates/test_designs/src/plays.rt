//! What a client sends and what comes of it, a line each.
use crate::designs::design;
use crate::packets::packet;
use crate::replies::reply;
use crate::stimuli::stimulus;
use std::alloc::{AllocError, Global};

/// A client of a design under a stimulus: the bytes that it sends and those that it is told, the log, and the
/// status of the program.
#[derive(Drop)]
pub struct Play {
    pub design: &'static str,
    pub stimulus: &'static str,
    pub status: u8,
    pub sent: Vec<u8>,
    pub said: Vec<u8>,
    pub log: Vec<u8>,
}

impl Play {
    /// The first line has the names of the design and the stimulus and the status. Behind `> ` stands a packet's
    /// name, behind `+ ` that of a packet without the zero byte that ends it, and behind `< ` that of a reply. Each
    /// other line is one of the log.
    pub fn read(alloc: Global, text: &str) -> Result<Play, AllocError> {
        let (head, rows) = text.split_once('\n').unwrap_or((text, ""));
        let (design_name, rest) = head.split_once(' ').unwrap_or((head, ""));
        let (stimulus_name, status) = rest.split_once(' ').unwrap_or((rest, ""));
        let mut play = Play {
            design: design(design_name),
            stimulus: stimulus(stimulus_name),
            status: status.parse().unwrap_or(255),
            sent: Vec::new(alloc),
            said: Vec::new(alloc),
            log: Vec::new(alloc),
        };
        for row in rows.lines() {
            play.take_row(row)?;
        }
        Ok(play)
    }

    fn take_row(&mut self, row: &str) -> Result<(), AllocError> {
        match row.split_once(' ') {
            Some((">", name)) => push(&mut self.sent, packet(name), 0),
            Some(("+", name)) => self.sent.extend_from_slice(packet(name).as_bytes()),
            Some(("<", name)) => push(&mut self.said, reply(name), 0),
            _ => push(&mut self.log, row, b'\n'),
        }
    }
}

/// Puts a text behind the bytes, and such a byte behind it.
fn push(bytes: &mut Vec<u8>, text: &str, end: u8) -> Result<(), AllocError> {
    bytes.extend_from_slice(text.as_bytes())?;
    bytes.push(end)?;
    Ok(())
}

/// Plays of at most three packets, with an empty line between two.
pub const SHORT: &str = "counter six 0
record 1
open 0
close 0 ended
end

counter six 0
+ greeting
record 1
open 0
close 0 ended
end

counter six 0
> nothing
< no_json
record 1
open 0
packet 0
close 0 ended
end

counter six 0
> greeting
< greeted
record 1
open 0
packet 0
close 0 ended
end

counter six 0
> version_1
< wrong_version
record 1
open 0
packet 0
close 0 ended
end

counter six 0
> greeting
> greeting
< greeted
< greeted_again
record 1
open 0
packet 0
packet 0
close 0 ended
end

counter six 0
> greeting
> scopes
< greeted
< unknown
record 1
open 0
packet 0
packet 0
close 0 ended
end

counter six 0
> status
> greeting
> status
< not_greeted
< greeted
< stands_at_0
record 1
open 0
packet 0
packet 0
packet 0
close 0 ended
end

ring six 6
> greeting
> run
> run
< greeted
< runs
< finished_at_0
< runs
< finished_at_0
record 1
open 0
packet 0
packet 0 run 6
unsettled
packet 0 run 6
close 0 ended
end

ring high_first 6
> greeting
unsettled
end";

/// A client that runs up to a time twice, and asks where the run stands in between.
pub const UNTIL_15: &str = "counter six 0
> greeting
> run_until_15
> status
> run_until_15
< greeted
< runs
< paused_at_15
< stands_at_15
< runs
< paused_at_15
record 1
open 0
packet 0
packet 0 run 4
record 3
packet 0
packet 0 run 4
close 0 ended
end";

/// A client that runs to the end, with a batch of 256 samples behind each packet.
pub const TO_THE_END: &str = "counter many 0
> greeting
> run
> status
< greeted
< runs
< running
< finished
record 1
open 0
packet 0
packet 0 run 512
record 256
packet 0
record 255
close 0 ended
end";

/// A run that does not settle once its clock is 1.
pub const UNSETTLED: &str = "ring six 6
> greeting
> run
< greeted
< runs
< finished_at_0
record 1
open 0
packet 0
packet 0 run 6
unsettled
close 0 ended
end";

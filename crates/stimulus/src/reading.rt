//! A stimulus' text, line by line.
ghost use Rattle.std.specs.Prelude.{◌≡◌, ◌<◌, ◌≤◌, ◌+◌, IfErr, IfOk, length, map, max, Ok, Err};
ghost use Rattle.stimulus_text.specs.declared.fault.StimFaultKind.{StimFaultKind as Kind};
ghost use Rattle.stimulus_blocks.specs.Courses.{input_widths, sample_count};
ghost use Rattle.stimulus.specs.Inputs.{width_of};
ghost use Rattle.stimulus.specs.Reading.{course_of, Fails};
ghost use Rattle.stimulus.specs.Sound.{IsSound};
ghost use Rattle.stimulus.specs.Steps.{end_step, line_step, words_step};

use crate::steps::{block_line, head_line, names_line, version_line};
use crate::stop::Stop;
use circuit::Circuit;
use std::alloc::Global;
use stimulus_blocks::{Block, Stimulus};
use stimulus_text::{StimFault, StimFaultKind, is_comment, next_line, words_of};

/// Where a reader of lines stands.
#[derive(Debug, Drop)]
pub(crate) enum Reading {
    /// Before the first line.
    Start,
    /// Before the line that names the inputs.
    Headed,
    /// Behind these blocks.
    Between(Stimulus),
    /// In a block behind others, with its rows so far.
    Within(Stimulus, Block),
}

impl Reading {
    /// Where the reader stands behind a line of these words.
    fn read_words(self, alloc: Global, circuit: &Circuit, words: &[&[u8]]) -> Result<Reading, Stop>
        requires { IsSound self }
        ensures ok { IfOk result (λ next. words_step circuit.now self (map (λ x. x.now) words.now) ≡ Ok next) }
        ensures sound { IfOk result IsSound }
        ensures fault { (kind : Kind) → result ≡ Err (Stop.Fault kind) → words_step circuit.now self (map (λ x. x.now) words.now) ≡ Err kind }
    {
        let Some((word, rest)) = words.split_first() else {
            return Ok(self);
        };
        match self {
            Reading::Start => version_line(words),
            Reading::Headed => names_line(alloc, circuit, word, rest),
            Reading::Between(stimulus) => head_line(alloc, stimulus, word, rest),
            Reading::Within(stimulus, block) => block_line(alloc, stimulus, block, word, rest),
        }
    }

    /// Where the reader stands behind a line.
    fn read_line(self, alloc: Global, circuit: &Circuit, line: &[u8]) -> Result<Reading, Stop>
        requires { IsSound self }
        ensures ok { IfOk result (λ next. line_step circuit.now self line.now ≡ Ok next) }
        ensures sound { IfOk result IsSound }
        ensures fault { (kind : Kind) → result ≡ Err (Stop.Fault kind) → line_step circuit.now self line.now ≡ Err kind }
    {
        if is_comment(line) {
            return Ok(self);
        }
        let words = words_of(alloc, line)?;
        self.read_words(alloc, circuit, &words)
    }

    /// The stimulus of a text that ends here.
    fn end(self) -> Result<Stimulus, StimFaultKind>
        ensures value { result ≡ end_step self }
        ensures some { IfOk result (λ s. 1 ≤ sample_count s) }
    {
        match self {
            Reading::Start | Reading::Within(_, _) => Err(StimFaultKind::Head),
            Reading::Headed => Err(StimFaultKind::InputNames),
            Reading::Between(stimulus) => {
                let _ = stimulus.count();
                if stimulus.len() == 0 {
                    Err(StimFaultKind::Empty)
                } else {
                    Ok(stimulus)
                }
            }
        }
    }
}

/// Reads the text of a stimulus for a circuit.
///
/// Lines end with a line feed, of which a carriage return directly before it is dropped; the text's end ends its last
/// line. Lines that are empty or blank, and those that begin with `#`, say nothing. Words are parted by spaces or tabs.
///
/// ```text
/// stimulus 0
/// inputs NAME NAME
/// block REPEATS PERIOD
/// OFFSET VALUE VALUE
/// end
/// ```
///
/// `inputs` names each input once, in any order, by its item's name. There are one or more blocks, each with one or more
/// rows. REPEATS is 1 to 4294967295 in 1 to 10 digits. PERIOD and OFFSET are times. A VALUE is one or more hexadecimal
/// digits of either case, below 2 to the input's width; a row has one per name. Row `i` of repeat `r` is a sample at the
/// block's start, `r` periods and the row's offset; the next block starts behind all periods.
///
/// The fault is the first in the text, in a line from left to right, with its line: `Head` where a line is not of the
/// form that stands there, `InputNames`, `BadTime`, `BadValue`, `NotRising` where an offset is not above the one before
/// or not below the period, `Empty`, and `TooMany` above 16,777,216 samples. At each `end`, `Empty` comes first, then
/// `TooMany`, then `BadTime` where the block ends behind the largest time. A fault at the text's end has the last line's
/// number.
///
/// The text need not be UTF-8. Memory is in proportion to the text: repeats take none. The form is this project's own.
pub fn read(alloc: Global, text: &[u8], circuit: &Circuit) -> Result<Stimulus, StimFault>
    requires countable { length text.now < 4294967295 }
    ensures ok { IfOk result (λ s. course_of text.now circuit.now ≡ Ok s) }
    ensures some { IfOk result (λ s. 1 ≤ sample_count s) }
    ensures inputs { IfOk result (λ s. input_widths s ≡ map (width_of circuit.now) circuit.now.inputs) }
    ensures fault { IfErr result (λ fault. Fails fault (course_of text.now circuit.now)) }
{
    let mut reading = Reading::Start;
    let mut rest = text;
    let mut number = 0u32;
    while let Some(line) = next_line(rest) {
        number += 1;
        rest = line.rest;
        reading = match reading.read_line(alloc, circuit, line.text) {
            Ok(next) => next,
            Err(stop) => return Err(stop.at(number)),
        };
    }
    match reading.end() {
        Ok(stimulus) => Ok(stimulus),
        Err(kind) => Err(StimFault::At {
            kind,
            line: number.max(1),
        }),
    }
}

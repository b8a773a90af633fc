//! What the words of a line say where it stands.
ghost use Rattle.std.specs.Prelude.{◌≡◌, IfOk, bytes_eq, map, Ok, Err};
ghost use Rattle.stimulus_text.specs.declared.fault.StimFaultKind.{StimFaultKind as Kind};
ghost use Rattle.stimulus.specs.Sound.{IsOpen, IsSound};
ghost use Rattle.stimulus.specs.Steps.{block_line, end_line, fault_at_end, head_line, head_of, least_behind, row_line, names_line, version_line};

use crate::inputs::inputs_named;
use crate::reading::Reading;
use crate::stop::Stop;
use crate::values::read_values;
use circuit::Circuit;
use sim_base::Time;
use std::alloc::Global;
use stimulus_blocks::{Block, Rows, Stimulus};
use stimulus_text::{StimFaultKind, read_repeats};

/// A stimulus has at most so many samples.
const MOST_SAMPLES: u128 = 16_777_216;

/// Whether the bytes are the same.
fn is_text(word: &[u8], text: &[u8]) -> bool
    ensures { result ≡ bytes_eq word.now text.now }
{
    word == text
}

/// `stimulus 0`.
pub(crate) fn version_line(words: &[&[u8]]) -> Result<Reading, Stop>
    ensures ok { IfOk result (λ next. version_line (map (λ x. x.now) words.now) ≡ Ok next) }
    ensures sound { IfOk result IsSound }
    ensures fault { (kind : Kind) → result ≡ Err (Stop.Fault kind) → version_line (map (λ x. x.now) words.now) ≡ Err kind }
{
    match words {
        [word, version] if is_text(word, b"stimulus") && is_text(version, b"0") => {
            Ok(Reading::Headed)
        }
        _ => Err(Stop::Fault(StimFaultKind::Head)),
    }
}

/// `inputs` and the name of each input.
pub(crate) fn names_line(
    alloc: Global,
    circuit: &Circuit,
    word: &[u8],
    names: &[&[u8]],
) -> Result<Reading, Stop>
    ensures ok { IfOk result (λ next. names_line circuit.now word.now (map (λ x. x.now) names.now) ≡ Ok next) }
    ensures sound { IfOk result IsSound }
    ensures fault { (kind : Kind) → result ≡ Err (Stop.Fault kind) → names_line circuit.now word.now (map (λ x. x.now) names.now) ≡ Err kind }
{
    if !is_text(word, b"inputs") {
        return Err(Stop::Fault(StimFaultKind::InputNames));
    }
    match inputs_named(alloc, circuit, names)? {
        Some(stimulus) => Ok(Reading::Between(stimulus)),
        None => Err(Stop::Fault(StimFaultKind::InputNames)),
    }
}

/// The repeats and the period behind `block`.
fn head_of(words: &[&[u8]]) -> Result<(u64, Time), StimFaultKind>
    ensures { result ≡ head_of (map (λ x. x.now) words.now) }
{
    let Some((repeats, words)) = words.split_first() else {
        return Err(StimFaultKind::Head);
    };
    let Some(repeats) = read_repeats(repeats) else {
        return Err(StimFaultKind::BadValue);
    };
    let Some((period, words)) = words.split_first() else {
        return Err(StimFaultKind::Head);
    };
    let Some(period) = Time::read(period) else {
        return Err(StimFaultKind::BadTime);
    };
    if words.is_empty() {
        Ok((repeats, period))
    } else {
        Err(StimFaultKind::Head)
    }
}

/// The head of a block.
pub(crate) fn head_line(
    alloc: Global,
    stimulus: Stimulus,
    word: &[u8],
    words: &[&[u8]],
) -> Result<Reading, Stop>
    ensures ok { IfOk result (λ next. head_line stimulus word.now (map (λ x. x.now) words.now) ≡ Ok next) }
    ensures sound { IfOk result IsSound }
    ensures fault { (kind : Kind) → result ≡ Err (Stop.Fault kind) → head_line stimulus word.now (map (λ x. x.now) words.now) ≡ Err kind }
{
    if !is_text(word, b"block") {
        return Err(Stop::Fault(StimFaultKind::Head));
    }
    match head_of(words) {
        Ok((repeats, period)) => {
            let rows = Rows::new(alloc);
            Ok(Reading::Within(
                stimulus,
                Block {
                    repeats,
                    period,
                    rows,
                },
            ))
        }
        Err(kind) => Err(Stop::Fault(kind)),
    }
}

/// What is wrong with a block at its end, if anything is.
fn fault_of(stimulus: &Stimulus, block: &Block, words: &[&[u8]]) -> Option<StimFaultKind>
    requires { IsOpen stimulus.now.widths block.now }
    ensures { result ≡ fault_at_end stimulus.now block.now (map (λ x. x.now) words.now) }
{
    let rows = block.rows.len();
    if rows == 0 {
        return Some(StimFaultKind::Empty);
    }
    let samples = u128::from(block.repeats) * rows as u128;
    if u128::from(stimulus.count()) + samples > MOST_SAMPLES {
        return Some(StimFaultKind::TooMany);
    }
    let length = u128::from(block.repeats) * block.period.femtoseconds();
    if Time::of(stimulus.end().femtoseconds() + length).is_none() {
        return Some(StimFaultKind::BadTime);
    }
    if words.is_empty() {
        None
    } else {
        Some(StimFaultKind::Head)
    }
}

/// The end of a block.
fn end_line(stimulus: Stimulus, block: Block, words: &[&[u8]]) -> Result<Reading, Stop>
    requires { IsOpen stimulus.widths block }
    ensures ok { IfOk result (λ next. end_line stimulus block (map (λ x. x.now) words.now) ≡ Ok next) }
    ensures sound { IfOk result IsSound }
    ensures fault { (kind : Kind) → result ≡ Err (Stop.Fault kind) → end_line stimulus block (map (λ x. x.now) words.now) ≡ Err kind }
{
    if let Some(kind) = fault_of(&stimulus, &block, words) {
        return Err(Stop::Fault(kind));
    }
    Ok(Reading::Between(stimulus.push(block)?))
}

/// The least offset, in femtoseconds, that a row behind some rows has.
fn least_behind(rows: &Rows) -> u128
    ensures { result ≡ least_behind rows.now }
{
    let count = rows.len();
    if count == 0 {
        return 0;
    }
    rows.offset(count - 1).femtoseconds() + 1
}

/// A row of a block.
fn row_line(
    alloc: Global,
    stimulus: Stimulus,
    block: Block,
    offset: &[u8],
    values: &[&[u8]],
) -> Result<Reading, Stop>
    requires { IsOpen stimulus.widths block }
    ensures ok { IfOk result (λ next. row_line stimulus block offset.now (map (λ x. x.now) values.now) ≡ Ok next) }
    ensures sound { IfOk result IsSound }
    ensures fault { (kind : Kind) → result ≡ Err (Stop.Fault kind) → row_line stimulus block offset.now (map (λ x. x.now) values.now) ≡ Err kind }
{
    let Some(offset) = Time::read(offset) else {
        return Err(Stop::Fault(StimFaultKind::BadTime));
    };
    if offset.femtoseconds() < least_behind(&block.rows) || offset >= block.period {
        return Err(Stop::Fault(StimFaultKind::NotRising));
    }
    let Some(values) = read_values(alloc, stimulus.widths(), values)? else {
        return Err(Stop::Fault(StimFaultKind::BadValue));
    };
    let Block {
        repeats,
        period,
        rows,
    } = block;
    let rows = rows.push(offset, values)?;
    Ok(Reading::Within(
        stimulus,
        Block {
            repeats,
            period,
            rows,
        },
    ))
}

/// A line inside a block.
pub(crate) fn block_line(
    alloc: Global,
    stimulus: Stimulus,
    block: Block,
    word: &[u8],
    words: &[&[u8]],
) -> Result<Reading, Stop>
    requires { IsOpen stimulus.widths block }
    ensures ok { IfOk result (λ next. block_line stimulus block word.now (map (λ x. x.now) words.now) ≡ Ok next) }
    ensures sound { IfOk result IsSound }
    ensures fault { (kind : Kind) → result ≡ Err (Stop.Fault kind) → block_line stimulus block word.now (map (λ x. x.now) words.now) ≡ Err kind }
{
    if is_text(word, b"block") {
        return Err(Stop::Fault(StimFaultKind::Head));
    }
    if is_text(word, b"end") {
        return end_line(stimulus, block, words);
    }
    row_line(alloc, stimulus, block, word, words)
}

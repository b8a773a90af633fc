//! The lines of a trace, in a buffer.
ghost use Rattle.std.specs.Prelude.{◌≡◌, ℕ, ◌<◌, ◌≤◌, ◌++◌, List, Some, decimal, length, slice_get, slice_index, OnOk};
ghost use Rattle.circuit.specs.Rounds.{Run, Standing, standing_at};
ghost use Rattle.circuit.specs.Shown.{item_number};
ghost use Rattle.flat_design.specs.Flat.{IsFlat, IsNodeOf, width_of};
ghost use Rattle.flat_rounds.specs.Fits.{IsStandingOf};
ghost use Rattle.sim_base.specs.TimeText.{time_text};
ghost use Rattle.cxxsim.specs.TraceText.{header, item_line, item_width, kind_width, last_line, sample_line, value_text, values_text};

use circuit::{Circuit, Item, ItemKind};
use flat_rounds::Rounds;
use itoa::Buffer;
use sim_base::{NoMemory, Time, write_lowest_digits};

/// A value of 64 bits has so many hexadecimal digits.
const MOST_DIGITS: usize = 16;

/// Puts a number in decimal behind the text.
fn push_decimal(text: &mut Vec<u8>, number: u64) -> Result<(), NoMemory>
    ensures { OnOk result (text.new.items ≡ text.old.items ++ decimal number) }
{
    let mut buffer = Buffer::new();
    text.extend_from_slice(buffer.format(number).as_bytes())?;
    Ok(())
}

/// Puts a time behind the text.
pub fn push_time(text: &mut Vec<u8>, time: Time) -> Result<(), NoMemory>
    ensures { OnOk result (text.new.items ≡ text.old.items ++ time_text time) }
{
    let mut buffer = [0u8; 26];
    let count = time.write(&mut buffer);
    text.extend_from_slice(&buffer[..count])?;
    Ok(())
}

/// Puts a value of at most 64 bits behind the text, after a blank.
fn push_value(text: &mut Vec<u8>, width: u32, number: u64) -> Result<(), NoMemory>
    requires { width ≤ 64 }
    ensures { OnOk result (text.new.items ≡ text.old.items ++ value_text width number) }
{
    let digits = (width as usize + 3) / 4;
    let digits = digits.max(1);
    let mut buffer = [b'0'; MOST_DIGITS];
    write_lowest_digits(&mut buffer[..digits], 16, number);
    text.push(b' ')?;
    text.extend_from_slice(&buffer[..digits])?;
    Ok(())
}

/// The net of a node of the circuit.
fn net_of(circuit: &Circuit, item: &Item) -> u32
    requires { IsNodeOf circuit.now item.now.kind }
    ensures there { result < length circuit.now.nets }
    ensures number { (s : Standing) → item_number s item.now.kind 0 ≡ slice_index s.nets result }
    ensures width { kind_width circuit.now item.now.kind ≡ width_of (slice_get circuit.now.nets result) }
{
    let _ = circuit;
    match item.kind {
        ItemKind::Node { net, .. } => net,
        ItemKind::Memory { .. } => 0,
    }
}

/// The width of a node in bits.
fn width_of_node(circuit: &Circuit, item: &Item) -> u32
    requires flat { IsFlat circuit.now }
    requires node { IsNodeOf circuit.now item.now.kind }
    ensures value { result ≡ item_width circuit.now item.now }
    ensures word { result ≤ 64 }
{
    let net = net_of(circuit, item);
    circuit.nets.as_slice()[net as usize].width
}

/// Puts the line of an item behind the text.
fn push_item(text: &mut Vec<u8>, circuit: &Circuit, item: &Item) -> Result<(), NoMemory>
    requires flat { IsFlat circuit.now }
    requires node { IsNodeOf circuit.now item.now.kind }
    ensures { OnOk result (text.new.items ≡ text.old.items ++ item_line circuit.now item.now) }
{
    push_decimal(text, u64::from(width_of_node(circuit, item)))?;
    text.push(b' ')?;
    text.extend_from_slice(item.name.as_bytes())?;
    text.push(b'\n')?;
    Ok(())
}

/// Puts the lines that say what is printed behind the text.
pub fn push_header(text: &mut Vec<u8>, circuit: &Circuit) -> Result<(), NoMemory>
    requires { IsFlat circuit.now }
    ensures { OnOk result (text.new.items ≡ text.old.items ++ header circuit.now) }
{
    text.extend_from_slice(b"items ")?;
    push_decimal(text, circuit.items.len() as u64)?;
    text.push(b'\n')?;
    for item in circuit.items.as_slice() {
        push_item(text, circuit, item)?;
    }
    Ok(())
}

/// Puts the values of all items behind the text.
fn push_values(text: &mut Vec<u8>, circuit: &Circuit, rounds: &Rounds) -> Result<(), NoMemory>
    requires flat { IsFlat circuit.now }
    requires fits { IsStandingOf circuit.now rounds.now }
    ensures { OnOk result (text.new.items ≡ text.old.items ++ values_text circuit.now rounds.now) }
{
    for item in circuit.items.as_slice() {
        push_value(
            text,
            width_of_node(circuit, item),
            rounds.net(net_of(circuit, item)),
        )?;
    }
    Ok(())
}

/// Puts the line of a sample behind the text.
pub fn push_sample(
    text: &mut Vec<u8>,
    circuit: &Circuit,
    time: Time,
    rounds: &Rounds,
) -> Result<(), NoMemory>
    requires flat { IsFlat circuit.now }
    requires fits { IsStandingOf circuit.now rounds.now }
    ensures { OnOk result ((run : Run) (k : ℕ) → run.circuit ≡ circuit.now → (run.row k).time ≡ time → standing_at run k ≡ Some rounds.now → text.new.items ≡ text.old.items ++ sample_line run k) }
{
    push_time(text, time)?;
    push_values(text, circuit, rounds)?;
    text.push(b'\n')?;
    Ok(())
}

/// Puts the last line behind the text.
pub fn push_last_line(text: &mut Vec<u8>, unsettled: bool, count: u64) -> Result<(), NoMemory>
    ensures { OnOk result (text.new.items ≡ text.old.items ++ last_line unsettled count) }
{
    let word: &[u8] = if unsettled { b"unsettled " } else { b"end " };
    text.extend_from_slice(word)?;
    push_decimal(text, count)?;
    text.push(b'\n')?;
    Ok(())
}

//! That the table of registers and latches says what was meant, and that circuits meet what is asked.
ghost use Rattle.std.specs.Prelude.{◌≡◌, true};
ghost use Rattle.circuit.specs.Valid.{is_valid};
ghost use Rattle.signal_words.specs.Stores.{IsStoreOf};

use crate::parts::{bits_of, store_of};
use circuit::{Circuit, Polarity, Store};
use sim_base::{Bits, Values};
use state_cells::{law_of_rounds, next};
use std::alloc::AllocGlobal;
use std::process::Abort;
use test_circuits::{Line, circuit_of};

/// The next value of the circuit's register in the place of its present one, and whether they differ; none where the
/// value has another width.
fn next_of(circuit: &Circuit, before: &Store, now: &Store, into: &mut Values) -> Option<bool>
    requires valid { is_valid circuit.now ≡ true }
    requires before { IsStoreOf circuit.now before.now }
    requires now { IsStoreOf circuit.now now.now }
{
    law_of_rounds();
    let reg = circuit.regs.get(0)?;
    if into.len() == 0 || into.width(0) != reg.width {
        return None;
    }
    Some(next(reg, before, now, into, 0))
}

/// A store in which the circuit's register has a value.
fn store_with<R: AllocGlobal + Abort>(rt: &R, circuit: &Circuit, value: &str) -> Store
    requires { is_valid circuit.now ≡ true }
{
    let mut store = Store::new(rt.alloc(), circuit).expect(rt, "memory");
    let value = bits_of(rt, value);
    assert!(rt; store.regs.len() == 1 && store.regs.width(0) == value.width());
    store.regs.put(0, &value.view());
    store
}

fn check_value(rt: &impl Abort, values: &Values, wanted: &Bits) {
    assert!(rt; values.len() == 1);
    assert!(rt; values.view(0).words() == wanted.words());
}

/// What nets have in the round before and in this one, and the value of a register before and after.
#[derive(Clone, Copy)]
struct Round<'a> {
    before: &'a str,
    now: &'a str,
    old: &'a str,
    wanted: &'a str,
}

/// Checks that the register takes its value, and in a round like it keeps that.
fn check_round<R: AllocGlobal + Abort>(rt: &R, circuit: &Circuit, round: Round) {
    assert!(rt; circuit.validate());
    let before = store_of(rt, circuit, round.before);
    let now = store_of(rt, circuit, round.now);
    let wanted = bits_of(rt, round.wanted);
    let differs = !bits_of(rt, round.old).same(&wanted);
    let mut into = store_with(rt, circuit, round.old);
    let changed = next_of(circuit, &before, &now, &mut into.regs);
    assert!(rt; changed == Some(differs));
    check_value(rt, &into.regs, &wanted);
    let changed = next_of(circuit, &before, &now, &mut into.regs);
    assert!(rt; changed == Some(false));
    check_value(rt, &into.regs, &wanted);
}

/// The kinds and their ports: clock, input, enable, set, clear or reset, load and what is loaded are nets in turn.
const KINDS: &str = "dff 0[0+:1] 1[0+:4]
dffe 0[0+:1] 1[0+:4] 2[0+:1]
adff 0[0+:1] 1[0+:4] - - 4[0+:1]
adffe 0[0+:1] 1[0+:4] 2[0+:1] - 4[0+:1]
sdff 0[0+:1] 1[0+:4] - - 4[0+:1]
sdffe 0[0+:1] 1[0+:4] 2[0+:1] - 4[0+:1]
sdffce 0[0+:1] 1[0+:4] 2[0+:1] - 4[0+:1]
aldff 0[0+:1] 1[0+:4] - - - 5[0+:1] 6[0+:4]
aldffe 0[0+:1] 1[0+:4] 2[0+:1] - - 5[0+:1] 6[0+:4]
dffsr 0[0+:1] 1[0+:4] - 3[0+:4] 4[0+:4]
dffsre 0[0+:1] 1[0+:4] 2[0+:1] 3[0+:4] 4[0+:4]
sr - - - 3[0+:4] 4[0+:4]
dlatch - 1[0+:4] 2[0+:1]
adlatch - 1[0+:4] 2[0+:1] - 4[0+:1]
dlatchsr - 1[0+:4] 2[0+:1] 3[0+:4] 4[0+:4]";

/// The ports of a kind.
fn ports_of(kind: &str) -> Option<&'static str> {
    for line in KINDS.lines() {
        match line.split_once(' ') {
            Some((name, ports)) if name == kind => return Some(ports),
            _ => (),
        }
    }
    None
}

/// A circuit with a register of 4 bits, whose reset gives 3.
fn circuit_with<R: AllocGlobal + Abort>(rt: &R, kind: &str, pol: Polarity) -> Circuit {
    let ports = ports_of(kind).expect(rt, "a kind");
    let nets = "scope - -;net - 1;net - 4;net - 1;net - 4;net - 4;net - 1;net - 4";
    let text = format!(in rt.alloc(); "{nets};reg {kind} 11111 4 4'3 4'0 {ports}");
    let text = text.expect(rt, "memory");
    let mut circuit = circuit_of(rt.alloc(), text.as_str()).expect(rt, "a circuit");
    let mut reg = circuit.regs.pop().expect(rt, "a register");
    reg.pol = pol;
    circuit.regs.push(reg).expect(rt, "memory");
    circuit
}

/// A kind, whether its clock is active in the round before and in this one, the enable, the bits that are set, the bits
/// that are cleared or, in its bit 0, the reset, and the load.
#[derive(Drop)]
struct Row<'a> {
    kind: &'a str,
    clock: (bool, bool),
    en: bool,
    set: u64,
    clr: u64,
    load: bool,
    wanted: u64,
}

fn row_of<'a>(line: &mut Line<'a>) -> Option<Row<'a>> {
    Some(Row {
        kind: line.word()?,
        clock: (line.flag()?, line.flag()?),
        en: line.flag()?,
        set: line.hexadecimal()?,
        clr: line.hexadecimal()?,
        load: line.flag()?,
        wanted: line.hexadecimal()?,
    })
}

fn level(active: bool, high: bool) -> u64 {
    u64::from(active == high)
}

fn levels(active: u64, high: bool) -> u64 {
    if high { active } else { active ^ 0xF }
}

/// A row with ports that are active as the polarity says, of a register that has 1010, whose input is 0101, and which
/// loads 1001.
fn check_row<R: AllocGlobal + Abort>(rt: &R, row: &Row, pol: Polarity) {
    let circuit = circuit_with(rt, row.kind, pol);
    let (was, clk) = (level(row.clock.0, pol.clk), level(row.clock.1, pol.clk));
    let (en, load) = (level(row.en, pol.en), level(row.load, pol.load));
    let (set, clr) = (levels(row.set, pol.set), levels(row.clr, pol.clr));
    let wanted = row.wanted;
    let alloc = rt.alloc();
    let before = format!(in alloc; "1'{was}").expect(rt, "memory");
    let now = format!(in alloc; "1'{clk} 4'5 1'{en} 4'{set:x} 4'{clr:x} 1'{load} 4'9");
    let now = now.expect(rt, "memory");
    let wanted = format!(in alloc; "4'{wanted:x}").expect(rt, "memory");
    let round = Round {
        before: before.as_str(),
        now: now.as_str(),
        old: "4'a",
        wanted: wanted.as_str(),
    };
    check_round(rt, &circuit, round);
}

/// A row with each polarity of the five ports.
fn check_polarities<R: AllocGlobal + Abort>(rt: &R, row: &Row) {
    for bits in 0..32u32 {
        let pol = Polarity {
            clk: bits & 1 == 1,
            en: bits & 2 == 2,
            set: bits & 4 == 4,
            clr: bits & 8 == 8,
            load: bits & 16 == 16,
        };
        check_row(rt, row, pol);
    }
}

/// Kinds, what is active, and the next value. Where bits are set and cleared, bit 0 is both, bit 2 is set, bit 3 is
/// cleared, and bit 1 is left.
const ROWS: &str = "dff 0 1 0 0 0 0 5
dff 1 1 0 0 0 0 a
dff 0 0 0 0 0 0 a
dff 1 0 0 0 0 0 a
dffe 0 1 1 0 0 0 5
dffe 0 1 0 0 0 0 a
dffe 1 1 1 0 0 0 a
dlatch 0 0 1 0 0 0 5
dlatch 0 1 0 0 0 0 a
adlatch 0 0 0 0 1 0 3
adlatch 0 0 1 0 1 0 3
adlatch 0 0 1 0 0 0 5
adlatch 0 1 0 0 0 0 a
adff 0 0 0 0 1 0 3
adff 0 1 0 0 1 0 3
adff 0 1 0 0 0 0 5
adff 1 1 0 0 0 0 a
adffe 0 0 0 0 1 0 3
adffe 0 1 1 0 1 0 3
adffe 0 1 1 0 0 0 5
adffe 0 1 0 0 0 0 a
sdff 0 1 0 0 1 0 3
sdff 1 1 0 0 1 0 a
sdff 0 1 0 0 0 0 5
sdff 1 0 0 0 1 0 a
sdffe 0 1 0 0 1 0 3
sdffe 0 1 1 0 1 0 3
sdffe 0 1 1 0 0 0 5
sdffe 0 1 0 0 0 0 a
sdffe 1 1 1 0 1 0 a
sdffce 0 1 0 0 1 0 a
sdffce 0 1 1 0 1 0 3
sdffce 0 1 1 0 0 0 5
sdffce 0 1 0 0 0 0 a
sdffce 1 1 1 0 1 0 a
aldff 0 0 0 0 0 1 9
aldff 0 1 0 0 0 1 9
aldff 0 1 0 0 0 0 5
aldff 1 1 0 0 0 0 a
aldffe 0 0 0 0 0 1 9
aldffe 0 1 1 0 0 1 9
aldffe 0 1 1 0 0 0 5
aldffe 0 1 0 0 0 0 a
dffsr 0 0 0 5 9 0 6
dffsr 0 1 0 5 9 0 4
dffsr 0 1 0 0 0 0 5
dffsr 1 1 0 0 0 0 a
dffsre 0 1 1 5 9 0 4
dffsre 0 1 0 5 9 0 6
dffsre 0 1 1 0 0 0 5
dffsre 1 1 1 0 0 0 a
sr 0 0 0 5 9 0 6
sr 0 1 0 0 0 0 a
sr 0 1 0 f f 0 0
dlatchsr 0 0 1 5 9 0 4
dlatchsr 0 0 0 5 9 0 6
dlatchsr 0 0 1 0 0 0 5
dlatchsr 0 1 0 0 0 0 a";

#[test]
fn registers_take_their_input_or_are_set_reset_and_loaded(rt: HostRuntime) {
    for text in ROWS.lines() {
        let row = row_of(&mut Line::new(rt.alloc(), text)).expect(&rt, "a row");
        check_polarities(&rt, &row);
    }
}

/// The kind and the width of a register, what its nets but the clock have, and the next value. Every third bit of the
/// input is 1, every fifth of set and every seventh of clear.
const WIDE: &str = "dff 0 0'0 1'0 0'0 0'0|0'0
dffsr 0 0'0 1'0 0'0 0'0|0'0
dff 1 1'1 1'0 1'1 1'1|1'1
dffsr 1 1'1 1'0 1'1 1'1|1'0
dff 6 6'9 1'0 6'21 6'1|6'9
dffsr 6 6'9 1'0 6'21 6'1|6'28
dff 63 63'1249249249249249 1'0 63'1084210842108421 63'102040810204081|63'1249249249249249
dffsr 63 63'1249249249249249 1'0 63'1084210842108421 63'102040810204081|63'12cd21924b149668
dff 64 64'9249249249249249 1'0 64'1084210842108421 64'8102040810204081|64'9249249249249249
dffsr 64 64'9249249249249249 1'0 64'1084210842108421 64'8102040810204081|64'12cd21924b149668
dff 65 65'9249249249249249 1'0 65'1084210842108421 65'8102040810204081|65'9249249249249249
dffsr 65 65'9249249249249249 1'0 65'1084210842108421 65'8102040810204081|65'12cd21924b149668
dff 128 128'49249249249249249249249249249249 1'0 128'21084210842108421084210842108421 128'40810204081020408102040810204081|128'49249249249249249249249249249249
dffsr 128 128'49249249249249249249249249249249 1'0 128'21084210842108421084210842108421 128'40810204081020408102040810204081|128'292cd059a4a3492612cd21924b149668
dff 4096 4096'9.249*341 1'0 4096'8421.08421*204 4096'81.0204081*146|4096'9.249*341
dffsr 4096 4096'9.249*341 1'0 4096'8421.08421*204 4096'81.0204081*146|4096'166928d24984b3486492c5259a0b34946924c259a432496292cd059a4a3492612cd21924b149668.2cd251a493096690c9258a4b34166928d24984b3486492c5259a0b34946924c259a432496292cd059a4a3492612cd21924b149668*9";

/// The circuit of a register of this width without an enable.
fn wide_circuit<R: AllocGlobal + Abort>(rt: &R, kind: &str, w: u32) -> Circuit {
    let alloc = rt.alloc();
    let nets = format!(in alloc; "scope - -;net - 1;net - {w};net - 1;net - {w};net - {w}");
    let nets = nets.expect(rt, "memory");
    let nets = nets.as_str();
    let ports = if kind == "dff" { "" } else { "3 4" };
    let both = match ports.split_once(' ') {
        Some((set, clr)) => format!(in alloc; "- {set}[0+:{w}] {clr}[0+:{w}]"),
        None => format!(in alloc; "-"),
    };
    let both = both.expect(rt, "memory");
    let both = both.as_str();
    let text = format!(in alloc;
        "{nets};reg {kind} 11111 {w} {w}'0 {w}'0 0[0+:1] 1[0+:{w}] {both}"
    );
    circuit_of(alloc, text.expect(rt, "memory").as_str()).expect(rt, "a circuit")
}

fn check_width<R: AllocGlobal + Abort>(rt: &R, text: &str) {
    let alloc = rt.alloc();
    let (row, wanted) = text.split_once('|').expect(rt, "a row");
    let (kind, row) = row.split_once(' ').expect(rt, "a kind");
    let (width, values) = row.split_once(' ').expect(rt, "a width");
    let width = width.parse::<u32>().ok().expect(rt, "a number");
    let circuit = wide_circuit(rt, kind, width);
    let before = format!(in alloc; "1'0 {values}").expect(rt, "memory");
    let now = format!(in alloc; "1'1 {values}").expect(rt, "memory");
    let old = format!(in alloc; "{width}'0").expect(rt, "memory");
    let round = Round {
        before: before.as_str(),
        now: now.as_str(),
        old: old.as_str(),
        wanted,
    };
    check_round(rt, &circuit, round);
}

/// At an edge a register takes its whole input, and one with set and clear what these leave of it.
#[test]
fn registers_of_many_words_are_written_whole(rt: HostRuntime) {
    for text in WIDE.lines() {
        check_width(&rt, text);
    }
}

/// The input, the enable and the reset of a register with an enable and a reset in both rounds, between which the
/// clock has its edge, and the next value.
const ROUNDS: &str = "4'f 1'1 4'0 4'0|4'5 1'1 4'0 4'0|4'5
4'5 1'1 4'0 4'0|4'5 1'0 4'0 4'0|4'a
4'5 1'0 4'0 4'0|4'5 1'1 4'0 4'0|4'5
4'5 1'1 4'0 4'1|4'5 1'1 4'0 4'0|4'5
4'5 1'1 4'0 4'0|4'5 1'1 4'0 4'1|4'3";

const ALL_HIGH: Polarity = Polarity {
    clk: true,
    en: true,
    set: true,
    clr: true,
    load: true,
};

#[test]
fn registers_read_this_round_alone(rt: HostRuntime) {
    let circuit = circuit_with(&rt, "adffe", ALL_HIGH);
    for text in ROUNDS.lines() {
        let (was, rest) = text.split_once('|').expect(&rt, "a row");
        let (is, wanted) = rest.split_once('|').expect(&rt, "a row");
        let before = format!(in rt.alloc(); "1'0 {was}").expect(&rt, "memory");
        let now = format!(in rt.alloc(); "1'1 {is}").expect(&rt, "memory");
        let round = Round {
            before: before.as_str(),
            now: now.as_str(),
            old: "4'a",
            wanted,
        };
        check_round(&rt, &circuit, round);
    }
}

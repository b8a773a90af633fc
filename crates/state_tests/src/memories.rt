//! That the table of memories says what was meant, and that circuits meet what is asked.
ghost use Rattle.std.specs.Prelude.{◌≡◌, ◌<◌, map, true};
ghost use Rattle.circuit.specs.Valid.{is_valid};
ghost use Rattle.signal_words.specs.Stores.{IsStoreOf};
ghost use Rattle.sim_base.specs.Values.{widths};

use crate::parts::{bits_of, store_of};
use circuit::{Circuit, Mem, Store};
use memory_cells::{Rows, clock_ports, law_of_memories, read_port};
use sim_base::Bits;
use std::alloc::{AllocGlobal, Global};
use std::process::Abort;
use test_circuits::{Line, circuit_of};

/// Whether these are as many values as the memory has read ports, of its width.
fn are_outs(mem: &Mem, outs: &[Bits]) -> bool
    ensures { result ≡ true → widths outs.now ≡ map (λ _. mem.now.width) mem.now.reads }
{
    let mut fit = mem.reads.len() == outs.len();
    for out in outs {
        fit &= out.width() == mem.width;
    }
    fit
}

/// What `clock_ports` tells of the circuit's memory; none where there is none, or where the rows or the
/// values are not of it.
fn clock(
    circuit: &Circuit,
    rows: &mut Rows,
    before: &Store,
    now: &Store,
    outs: &mut [Bits],
) -> Option<bool>
    requires valid { is_valid circuit.now ≡ true }
    requires before { IsStoreOf circuit.now before.now }
    requires now { IsStoreOf circuit.now now.now }
{
    law_of_memories();
    let mem = circuit.mems.get(0)?;
    if rows.width() != mem.width || rows.len() != mem.size || !are_outs(mem, outs) {
        return None;
    }
    Some(clock_ports(mem, rows, before, now, outs))
}

/// The lowest 8 bits of a value of 8 bits or more.
fn number(rt: &impl Abort, bits: &Bits) -> u64 {
    assert!(rt; bits.width() >= 8);
    bits.field(0, 8)
}

/// What a port shows of the row at its address; none where there is no such port.
fn shown(circuit: &Circuit, port: u32, rows: &Rows, now: &Store, into: &mut Bits) -> Option<u64>
    requires valid { is_valid circuit.now ≡ true }
    requires now { IsStoreOf circuit.now now.now }
{
    law_of_memories();
    let mem = circuit.mems.get(0)?;
    if rows.width() != mem.width || rows.len() != mem.size || into.width() != mem.width {
        return None;
    }
    if port as usize >= mem.reads.len() {
        return None;
    }
    read_port(mem, port, rows, now, into);
    Some(into.field(0, into.width().min(64)))
}

/// The rows before the first sample.
fn start(alloc: Global, circuit: &Circuit) -> Option<Rows>
    requires { is_valid circuit.now ≡ true }
{
    law_of_memories();
    match circuit.mems.get(0) {
        Some(mem) => Rows::new(alloc, mem).ok(),
        None => None,
    }
}

/// Checks the bytes of four values, the first lowest.
fn check_bytes(rt: &impl Abort, values: &[Bits], wanted: u64) {
    assert!(rt; values.len() == 4);
    let bytes = wanted.to_le_bytes();
    for i in 0..4usize {
        assert!(rt; number(rt, &values[i]) == u64::from(bytes[i]));
    }
}

/// The four rows of 8 bits.
fn rows_of<R: AllocGlobal + Abort>(rt: &R, rows: &Rows) -> Vec<Bits> {
    let mut all = Vec::new(rt.alloc());
    for i in 0..4u32 {
        let mut row = bits_of(rt, "8'0");
        assert!(rt; rows.width() == 8 && row.width() == 8 && i < rows.len());
        rows.row(i, &mut row);
        all.push(row).expect(rt, "memory");
    }
    all
}

/// What is wanted of a row: the four values of the read ports, which were 5a before, the four rows, the first in the
/// lowest byte, and what the port without a clock shows of the rows before the round, or none.
#[derive(Drop)]
struct Wanted {
    outs: u64,
    after: u64,
    shown: Option<u64>,
}

fn wanted_of(line: &mut Line) -> Option<Wanted> {
    Some(Wanted {
        outs: line.hexadecimal()?,
        after: line.hexadecimal()?,
        shown: line.hexadecimal(),
    })
}

fn check_row<R: AllocGlobal + Abort>(
    rt: &R,
    circuit: &Circuit,
    stores: [&str; 2],
    wanted: &Wanted,
) {
    assert!(rt; circuit.validate());
    let before = store_of(rt, circuit, stores[0]);
    let now = store_of(rt, circuit, stores[1]);
    let mut rows = start(rt.alloc(), circuit).expect(rt, "rows");
    let mut into = bits_of(rt, "8'5a");
    let at_once = shown(circuit, 3, &rows, &now, &mut into);
    assert!(rt; wanted.shown.is_none() || at_once == wanted.shown);
    let mut outs = [
        bits_of(rt, "8'5a"),
        bits_of(rt, "8'5a"),
        bits_of(rt, "8'5a"),
        bits_of(rt, "8'5a"),
    ];
    let changed = clock(circuit, &mut rows, &before, &now, &mut outs);
    check_bytes(rt, &outs, wanted.outs);
    check_bytes(rt, rows_of(rt, &rows).as_slice(), wanted.after);
    let changes = wanted.outs != 0x5A5A_5A5A || wanted.after != 0x4433_2211;
    assert!(rt; changed == Some(changes));
}

/// Four rows 11, 22, 33 and 44 of 8 bits, with two write ports, and three read ports with a clock, of which the first
/// sees the first write port, the second sees both, and the third none; and one without a clock. The nets are a clock,
/// for each write port its address, its enable and its word, and the enable of the read ports.
fn four_rows<R: AllocGlobal + Abort>(rt: &R, rising: &str, offset: u32, a: u32) -> Circuit {
    let nets = "scope - -;net - 1;net - 70;net - 8;net - 8;net - 70;net - 8;net - 8;net - 1";
    let text = format!(in rt.alloc();
        "{nets}
mem 8 4 {offset} 32'44332211
read 1 {rising} 10 8'0 0[0+:1] 7[0+:1] 1[0+:{a}]
read 1 {rising} 11 8'0 0[0+:1] 7[0+:1] 1[0+:{a}]
read 1 {rising} 00 8'0 0[0+:1] 7[0+:1] 1[0+:{a}]
read 0 {rising} 11 8'0 0[0+:1] 7[0+:1] 1[0+:{a}]
write {rising} 0[0+:1] 2[0+:8] 1[0+:{a}] 3[0+:8]
write {rising} 0[0+:1] 5[0+:8] 4[0+:{a}] 6[0+:8]"
    );
    let text = text.expect(rt, "memory");
    circuit_of(rt.alloc(), text.as_str()).expect(rt, "a circuit")
}

/// Checks rows of what the nets have in the round before and in this one, and what is wanted.
fn check_rows<R: AllocGlobal + Abort>(rt: &R, circuit: &Circuit, rows: &str) {
    for row in rows.lines() {
        let (was, rest) = row.split_once('|').expect(rt, "a row");
        let (is, wanted) = rest.split_once('|').expect(rt, "a row");
        let wanted = wanted_of(&mut Line::new(rt.alloc(), wanted));
        let wanted = wanted.expect(rt, "numbers");
        check_row(rt, circuit, [was, is], &wanted);
    }
}

/// One port writes, and of two the highest.
const UP: &str = "1'0|1'1 70'2 8'ff 8'a5 70'0 8'0 8'0 1'1|5a33a5a5 44a52211 -
1'0|1'1 70'2 8'f 8'a5 70'0 8'0 8'0 1'1|5a333535 44352211 -
1'0|1'1 70'2 8'ff 8'a5 70'0 8'0 8'0 1'0|5a5a5a5a 44a52211 -
1'0|1'1 70'2 8'0 8'a5 70'0 8'0 8'0 1'1|5a333333 44332211 -
1'0|1'1 70'2 8'ff 8'33 70'0 8'0 8'0 1'0|5a5a5a5a 44332211 -
1'1|1'1 70'2 8'ff 8'a5 70'0 8'0 8'0 1'1|5a5a5a5a 44332211 -
1'0|1'0 70'2 8'ff 8'a5 70'0 8'0 8'0 1'1|5a5a5a5a 44332211 -
1'1|1'0 70'2 8'ff 8'a5 70'0 8'0 8'0 1'1|5a5a5a5a 44332211 -
1'0|1'1 70'2 8'ff 8'ff 70'2 8'ff 8'0 1'1|5a3300ff 44002211 -
1'0|1'1 70'2 8'ff 8'ff 70'2 8'f 8'0 1'1|5a33f0ff 44f02211 -
1'0|1'1 70'2 8'f 8'a 70'2 8'f0 8'50 1'1|5a335a3a 445a2211 -
1'0|1'1 70'0 8'ff 8'aa 70'3 8'ff 8'bb 1'1|5a11aaaa bb3322aa -
1'0|1'1 70'1 8'0 8'aa 70'1 8'ff 8'bb 1'1|5a22bb22 4433bb11 -
1'0|1'1 70'2 8'ff 8'ff 70'2 8'ff 8'33 1'0|5a5a5a5a 44332211 -
1'0|1'1 70'2 8'ff 8'ff 70'3 8'ff 8'44 1'0|5a5a5a5a 44ff2211 -";

const DOWN: &str = "1'1|1'0 70'2 8'ff 8'a5 70'0 8'0 8'0 1'1|5a33a5a5 44a52211 -
1'0|1'1 70'2 8'ff 8'a5 70'0 8'0 8'0 1'1|5a5a5a5a 44332211 -";

/// A memory that begins at address 4 and has addresses of 70 bits.
const OUTSIDE: &str = "1'0|1'1 70'3 8'ff 8'a5 70'0 8'0 8'0 1'1|5a000000 44332211 00
1'0|1'1 70'4 8'ff 8'a5 70'0 8'0 8'0 1'1|5a11a5a5 443322a5 11
1'0|1'1 70'7 8'ff 8'a5 70'0 8'0 8'0 1'1|5a44a5a5 a5332211 44
1'0|1'1 70'8 8'ff 8'a5 70'0 8'0 8'0 1'1|5a000000 44332211 00
1'0|1'1 70'0 8'ff 8'a5 70'0 8'0 8'0 1'1|5a000000 44332211 00
1'0|1'1 70'2.0*16.4 8'ff 8'a5 70'0 8'0 8'0 1'1|5a000000 44332211 00";

#[test]
fn rows_are_read_and_written_at_once(rt: HostRuntime) {
    check_rows(&rt, &four_rows(&rt, "1", 0, 8), UP);
    check_rows(&rt, &four_rows(&rt, "0", 0, 8), DOWN);
    check_rows(&rt, &four_rows(&rt, "1", 4, 70), OUTSIDE);
}

/// Three rows of 130 bits, with a write port and no read port.
const WIDE_ROWS: &str = "scope - -
net - 1
net - 2
net - 130
net - 130
mem 130 3 0 390'0
write 1 0[0+:1] 2[0+:130] 1[0+:2] 3[0+:130]";

fn check_wide_row<R: AllocGlobal + Abort>(rt: &R, rows: &Rows, n: u32, wanted: &str) {
    let wanted = bits_of(rt, wanted);
    let mut row = bits_of(rt, "130'0");
    assert!(rt; rows.width() == row.width() && n < rows.len());
    rows.row(n, &mut row);
    assert!(rt; row.same(&wanted), "row {n}");
}

/// Row 1 is made of what every third bit of the word is, where every second is enabled, and the rows beside it stay; a
/// round like it changes nothing.
#[test]
fn rows_of_many_words_are_kept_whole(rt: HostRuntime) {
    let circuit = circuit_of(rt.alloc(), WIDE_ROWS).expect(&rt, "a circuit");
    assert!(&rt; circuit.validate());
    let before = store_of(&rt, &circuit, "1'0");
    let values = "1'1 2'1 130'1.5*32 130'249249249249249249249249249249249";
    let now = store_of(&rt, &circuit, values);
    let mut rows = start(rt.alloc(), &circuit).expect(&rt, "rows");
    let changed = clock(&circuit, &mut rows, &before, &now, &mut []);
    assert!(&rt; changed == Some(true));
    let changed = clock(&circuit, &mut rows, &before, &now, &mut []);
    assert!(&rt; changed == Some(false));
    check_wide_row(&rt, &rows, 0, "130'0");
    check_wide_row(&rt, &rows, 1, "130'41041041041041041041041041041041");
    check_wide_row(&rt, &rows, 2, "130'0");
}

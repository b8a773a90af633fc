//! Each row adds parts to a circuit with one of everything: where they fit the circuit stays valid, and where one thing
//! of them is changed it does not.
use crate::whole::WHOLE;
use std::alloc::AllocGlobal;
use std::process::Abort;
use test_circuits::{circuit_of, put_parts};

/// Whether a circuit with these parts more is valid; none where the text is none of parts.
fn is_valid_with<R: AllocGlobal>(rt: &R, text: &str, parts: &str) -> Option<bool> {
    let mut circuit = circuit_of(rt.alloc(), text)?;
    put_parts(rt.alloc(), &mut circuit, parts)?;
    Some(circuit.validate())
}

/// Checks rows of `ok` or `no` and the parts that are added to the circuit of a text.
fn check_rows<R: AllocGlobal + Abort>(rt: &R, text: &str, rows: &str) {
    for row in rows.lines() {
        let (verdict, parts) = row.split_once(' ').unwrap_or((row, ""));
        let valid = is_valid_with(rt, text, parts);
        assert!(rt; valid == Some(verdict == "ok"), "{row}");
    }
}

/// Checks for each of these types of cells rows of `ok` or `no` and what stands behind the type.
fn check_types<R: AllocGlobal + Abort>(rt: &R, types: &str, rows: &str) {
    for name in types.split(' ') {
        for row in rows.lines() {
            let (verdict, ports) = row.split_once(' ').unwrap_or((row, ""));
            let cell = format!(in rt.alloc(); "cell {name} {ports}").expect(rt, "memory");
            let valid = is_valid_with(rt, WHOLE, cell.as_str());
            assert!(rt; valid == Some(verdict == "ok"), "{name}: {row}");
        }
    }
}

const NETS: &str = "ok net \\wide 0
ok net \\wide 65536
no net \\wide 65537";

/// Nets, drivers and cells from which bits beyond the last are taken.
const DRIVES: &str = "ok drive 1[0+:8] wire 2 0
no drive 1[1+:8] wire 2 0
no drive 1[4294967295+:1] wire 2 0
no drive 8[0+:8] wire 2 0
no drive 1[0+:8] wire 2 1
no drive 1[0+:1] wire 2 4294967295
no drive 1[0+:8] wire 8 0
ok drive 1[0+:8] input 1 0
no drive 1[0+:8] input 1 1
no drive 1[0+:2] input 0 0
no drive 1[0+:8] input 2 0
ok drive 1[0+:8] cell 0 1
no drive 1[0+:8] cell 0 2
no drive 1[0+:8] cell 2 0
ok drive 1[0+:8] reg 0 0
no drive 1[0+:8] reg 0 1
no drive 1[0+:8] reg 1 0
ok drive 1[0+:8] read 0 1 8
no drive 1[0+:8] read 0 1 9
no drive 1[0+:8] read 0 2 0
no drive 1[0+:8] read 1 0 0
ok drive 1[0+:8] const 8'5
no drive 1[0+:8] const 7'5
no drive 1[0+:8] const 9'5";

/// Net 3 has 9 bits, there is no net 8, and a signal has at most 65,536 bits.
const SIGNALS: &str = "ok cell and - 8 0 3[1+:8] 0'0
ok cell and - 8 0 0'0 3[1+:8]
no cell and - 8 0 3[2+:8] 0'0
no cell and - 8 0 0'0 3[2+:8]
ok cell and - 8 0 3[9+:0] 0'0
ok cell and - 8 0 0'0 3[9+:0]
no cell and - 8 0 3[10+:0] 0'0
no cell and - 8 0 0'0 3[10+:0]
no cell and - 8 0 3[4294967295+:1] 0'0
no cell and - 8 0 0'0 3[4294967295+:1]
no cell and - 8 0 8[0+:8] 0'0
no cell and - 8 0 0'0 8[0+:8]
ok cell and - 8 0 1'1,65535'1 0'0
no cell and - 8 0 1'1,65536'1 0'0";

#[test]
fn parts_lie_inside_their_nets_and_drivers(rt: HostRuntime) {
    check_rows(&rt, WHOLE, NETS);
    check_rows(&rt, WHOLE, DRIVES);
    check_rows(&rt, WHOLE, SIGNALS);
}

const UNARY: &str = "not pos reduce_and reduce_or reduce_bool reduce_xor reduce_xnor logic_not";

const UNARY_ROWS: &str = "ok - 129 0 200'1 0'0 0'0
no - 65537 0 8'1 0'0 0'0
no - 8 0 8'1 1'1 0'0
no - 8 0 8'1 0'0 1'1";

const BINARY: &str =
    "and or xor xnor logic_and logic_or eq ne eqx nex shl sshl shr sshr shift shiftx";

const BINARY_ROWS: &str = "ok - 129 0 200'1 201'1 0'0
no - 8 0 8'1 8'1 1'1";

const ARITHMETIC: &str = "add sub mul div mod divfloor modfloor lt le ge gt";

const ARITHMETIC_ROWS: &str = "ok - 128 0 128'1 128'1 0'0
no - 129 0 8'1 8'1 0'0
no - 8 0 129'1 8'1 0'0
no - 8 0 8'1 129'1 0'0
no - 8 0 8'1 8'1 1'1";

const NEGATION_ROWS: &str = "ok - 128 0 128'1 0'0 0'0
no - 129 0 8'1 0'0 0'0
no - 8 0 129'1 0'0 0'0
no - 8 0 8'1 1'1 0'0";

/// The ports of these types are tied to one another.
const SELECTIONS: &str = "ok cell mux - 8 0 8'1 8'1 1'1
no cell mux - 8 0 8'1 7'1 1'1
no cell mux - 8 0 7'1 8'1 1'1
no cell mux - 8 0 8'1 8'1 2'1
ok cell pmux - 8 0 8'1 24'1 3'1
no cell pmux - 8 0 8'1 23'1 3'1
no cell pmux - 8 0 7'1 24'1 3'1
ok cell bmux - 4 0 32'1 0'0 3'1
no cell bmux - 4 0 31'1 0'0 3'1
no cell bmux - 4 0 32'1 1'1 3'1
ok cell bmux - 0 0 0'0 0'0 64'1
no cell bmux - 1 0 0'0 0'0 64'1
ok cell demux - 32 0 4'1 0'0 3'1
no cell demux - 33 0 4'1 0'0 3'1
no cell demux - 32 0 4'1 1'1 3'1
ok cell bwmux - 8 0 8'1 8'1 8'1
no cell bwmux - 8 0 8'1 8'1 1'1
no cell bwmux - 8 0 8'1 7'1 8'1
no cell bwmux - 8 0 7'1 8'1 8'1
ok cell bweqx - 8 0 8'1 8'1 0'0
no cell bweqx - 8 0 8'1 7'1 0'0
no cell bweqx - 8 0 7'1 8'1 0'0
no cell bweqx - 8 0 8'1 8'1 1'1
ok cell concat - 8 0 3'1 5'1 0'0
no cell concat - 9 0 3'1 5'1 0'0
no cell concat - 8 0 3'1 5'1 1'1
ok cell slice - 4 4 8'1 0'0 0'0
no cell slice - 4 5 8'1 0'0 0'0
no cell slice - 1 4294967295 8'1 0'0 0'0
no cell slice - 4 4 8'1 1'1 0'0";

#[test]
fn ports_of_cells_have_their_limits(rt: HostRuntime) {
    check_types(&rt, UNARY, UNARY_ROWS);
    check_types(&rt, BINARY, BINARY_ROWS);
    check_types(&rt, ARITHMETIC, ARITHMETIC_ROWS);
    check_types(&rt, "neg", NEGATION_ROWS);
    check_rows(&rt, WHOLE, SELECTIONS);
}

/// Each kind with its ports, and then registers of which a port is missing, is one too many or has another width, or a
/// value has.
const REGISTERS: &str = "ok reg dff 11111 4 4'1 4'a 1'1 4'1 0'0 0'0 0'0 0'0 0'0
ok reg dffe 11111 4 4'1 4'a 1'1 4'1 1'1 0'0 0'0 0'0 0'0
ok reg adff 11111 4 4'1 4'a 1'1 4'1 0'0 0'0 1'1 0'0 0'0
ok reg adffe 11111 4 4'1 4'a 1'1 4'1 1'1 0'0 1'1 0'0 0'0
ok reg sdff 11111 4 4'1 4'a 1'1 4'1 0'0 0'0 1'1 0'0 0'0
ok reg sdffe 11111 4 4'1 4'a 1'1 4'1 1'1 0'0 1'1 0'0 0'0
ok reg sdffce 11111 4 4'1 4'a 1'1 4'1 1'1 0'0 1'1 0'0 0'0
ok reg aldff 11111 4 4'1 4'a 1'1 4'1 0'0 0'0 0'0 1'1 4'1
ok reg aldffe 11111 4 4'1 4'a 1'1 4'1 1'1 0'0 0'0 1'1 4'1
ok reg dffsr 11111 4 4'1 4'a 1'1 4'1 0'0 4'1 4'1 0'0 0'0
ok reg dffsre 11111 4 4'1 4'a 1'1 4'1 1'1 4'1 4'1 0'0 0'0
ok reg sr 11111 4 4'1 4'a 0'0 0'0 0'0 4'1 4'1 0'0 0'0
ok reg dlatch 11111 4 4'1 4'a 0'0 4'1 1'1 0'0 0'0 0'0 0'0
ok reg adlatch 11111 4 4'1 4'a 0'0 4'1 1'1 0'0 1'1 0'0 0'0
ok reg dlatchsr 11111 4 4'1 4'a 0'0 4'1 1'1 4'1 4'1 0'0 0'0
no reg dff 11111 4 4'1 4'a 0'0 4'1 0'0 0'0 0'0 0'0 0'0
no reg dff 11111 4 4'1 4'a 2'1 4'1 0'0 0'0 0'0 0'0 0'0
no reg dff 11111 4 4'1 4'a 1'1 3'1 0'0 0'0 0'0 0'0 0'0
no reg dff 11111 4 4'1 4'a 1'1 5'1 0'0 0'0 0'0 0'0 0'0
no reg dff 11111 4 4'1 4'a 1'1 4'1 1'1 0'0 0'0 0'0 0'0
no reg dff 11111 4 4'1 4'a 1'1 4'1 0'0 4'1 0'0 0'0 0'0
no reg dff 11111 4 4'1 4'a 1'1 4'1 0'0 0'0 1'1 0'0 0'0
no reg dff 11111 4 4'1 4'a 1'1 4'1 0'0 0'0 0'0 1'1 0'0
no reg dff 11111 4 4'1 4'a 1'1 4'1 0'0 0'0 0'0 0'0 4'1
no reg dff 11111 4 3'1 4'a 1'1 4'1 0'0 0'0 0'0 0'0 0'0
no reg dff 11111 4 4'1 5'a 1'1 4'1 0'0 0'0 0'0 0'0 0'0
no reg dffe 11111 4 4'1 4'a 1'1 4'1 0'0 0'0 0'0 0'0 0'0
no reg dffe 11111 4 4'1 4'a 1'1 4'1 4'1 0'0 0'0 0'0 0'0
no reg adff 11111 4 4'1 4'a 1'1 4'1 0'0 0'0 0'0 0'0 0'0
no reg adff 11111 4 4'1 4'a 1'1 4'1 0'0 0'0 4'1 0'0 0'0
no reg sdffce 11111 4 4'1 4'a 1'1 4'1 0'0 0'0 1'1 0'0 0'0
no reg aldff 11111 4 4'1 4'a 1'1 4'1 0'0 0'0 0'0 0'0 4'1
no reg aldff 11111 4 4'1 4'a 1'1 4'1 0'0 0'0 0'0 1'1 1'1
no reg dffsr 11111 4 4'1 4'a 1'1 4'1 0'0 1'1 4'1 0'0 0'0
no reg dffsr 11111 4 4'1 4'a 1'1 4'1 0'0 4'1 1'1 0'0 0'0
no reg sr 11111 4 4'1 4'a 1'1 0'0 0'0 4'1 4'1 0'0 0'0
no reg sr 11111 4 4'1 4'a 0'0 4'1 0'0 4'1 4'1 0'0 0'0
no reg dlatch 11111 4 4'1 4'a 1'1 4'1 1'1 0'0 0'0 0'0 0'0
no reg dlatch 11111 4 4'1 4'a 0'0 4'1 0'0 0'0 0'0 0'0 0'0";

/// Memories and their start values; the widths of ports; and fewer than 4,294,967,296 slots.
const MEMORIES: &str = "ok mem 8 4 0 32'0
no mem 8 4 0 31'0
no mem 8 4 0 33'0
ok mem 65536 0 0 0'0
no mem 65537 0 0 0'0
no mem 65536 65536 0 0'0
ok mem 0 4294967295 0 0'0
ok mem 8 4 0 32'0;read 1 1 1 8'0 1'1 1'1 2'1;read 1 1 1 8'0 0[0+:1] 1'1 2'1;write 1 1'1 8'1 2'1 8'1
ok mem 8 4 0 32'0;read 1 1 1 8'0 1'1 1'1 3'1;read 1 1 1 8'0 0[0+:1] 1'1 3'1;write 1 1'1 8'1 3'1 8'1
no mem 8 4 0 32'0;read 1 1 1 8'0 1'1 1'1 3'1;read 1 1 1 8'0 0[0+:1] 1'1 2'1;write 1 1'1 8'1 2'1 8'1
no mem 8 4 0 32'0;read 1 1 1 8'0 1'1 1'1 2'1;read 1 1 1 8'0 0[0+:1] 1'1 3'1;write 1 1'1 8'1 2'1 8'1
no mem 8 4 0 32'0;read 1 1 1 8'0 1'1 1'1 2'1;read 1 1 1 8'0 0[0+:1] 1'1 2'1;write 1 1'1 8'1 1'1 8'1
no mem 8 4 0 32'0;read 1 1 1 8'0 0'0 1'1 2'1;read 1 1 1 8'0 0[0+:1] 1'1 2'1;write 1 1'1 8'1 2'1 8'1
no mem 8 4 0 32'0;read 1 1 1 8'0 1'1 2'1 2'1;read 1 1 1 8'0 0[0+:1] 1'1 2'1;write 1 1'1 8'1 2'1 8'1
no mem 8 4 0 32'0;read 1 1 - 8'0 1'1 1'1 2'1;read 1 1 1 8'0 0[0+:1] 1'1 2'1;write 1 1'1 8'1 2'1 8'1
no mem 8 4 0 32'0;read 1 1 11 8'0 1'1 1'1 2'1;read 1 1 1 8'0 0[0+:1] 1'1 2'1;write 1 1'1 8'1 2'1 8'1
no mem 8 4 0 32'0;read 1 1 1 7'0 1'1 1'1 2'1;read 1 1 1 8'0 0[0+:1] 1'1 2'1;write 1 1'1 8'1 2'1 8'1
no mem 8 4 0 32'0;read 1 1 1 8'0 1'1 1'1 2'1;read 1 1 1 8'0 0[0+:1] 1'1 2'1;write 1 1'1 1'1 2'1 8'1
no mem 8 4 0 32'0;read 1 1 1 8'0 1'1 1'1 2'1;read 1 1 1 8'0 0[0+:1] 1'1 2'1;write 1 1'1 8'1 2'1 9'1
no mem 8 4 0 32'0;read 1 1 1 8'0 1'1 1'1 2'1;read 1 1 1 8'0 0[0+:1] 1'1 2'1;write 1 2'1 8'1 2'1 8'1
ok mem 0 4294967285 0 0'0;rows z 0 8 1
no mem 0 4294967286 0 0'0;rows z 0 8 1
no mem 0 4294967295 0 0'0;rows z 0 8 1";

#[test]
fn registers_and_memories_have_their_ports(rt: HostRuntime) {
    check_rows(&rt, WHOLE, REGISTERS);
    check_rows(&rt, WHOLE, MEMORIES);
}

/// Items rise and name what is there; inputs are items and stand once.
const ITEMS: &str = "ok node sum2 1 8 4 0 0 0 -
ok rows sum2 1 8 0 -
ok node sum2 1 8 2 0 0 0 -
no node sum2 1 8 8 0 0 0 -
no rows sum2 1 8 1 -
no node sum2 1 8 1 0 0 0 -
no node sum2 2 8 4 0 0 0 -
no node sum2 1 7 4 0 0 0 -
no node sum2 1 9 4 0 0 0 -
no node sum 1 8 4 0 0 0 -
no node su 1 8 4 0 0 0 -
no node Z 1 8 4 0 0 0 -
no node ? 1 8 4 0 0 0 -
no node sum2 1 8 4 0 0 0 ?
ok input 2
no input 4
no input 1
no input 8";

/// Scopes have names of their own.
const SCOPES: &str = "ok scope core_adder adder adder.v:1.1-2.2 -
no scope core adder - -
no scope - adder - -
no scope ? adder - -
ok scope core_adder part - -
no scope core_adder ? - -
no scope core_adder adder ? -
no scope core_adder adder - ?";

const TOPS: &str = "ok scope - top
no scope top top";

const DIAGNOSTICS: &str = "ok assert odd - 1'1 1'1 1'1 1
ok assert even - 1'1 1'1 1'1 1
no assert odd - 1'1 1'1 0'0 1
no assert odd - 1'1 1'1 2'1 1
no assert odd - 2'1 1'1 1'1 1
no assert odd - 0'0 1'1 1'1 1
no assert odd - 0[1+:1] 1'1 1'1 1
no assert odd - 1'1 2'1 1'1 1
no assert odd - 1'1 0'0 1'1 1
no assert ? - 1'1 1'1 1'1 1
no assert odd ? 1'1 1'1 1'1 1";

#[test]
fn names_are_in_order(rt: HostRuntime) {
    check_rows(&rt, WHOLE, ITEMS);
    check_rows(&rt, WHOLE, SCOPES);
    check_rows(&rt, "", TOPS);
    check_rows(&rt, WHOLE, DIAGNOSTICS);
}

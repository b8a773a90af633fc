//! Circuits that have an order, and circuits that have none.
use circuit::{BitAt, By, Circuit, DesignFault, DesignKind};
use driver_check::Node;
use eval_plan::{Plan, order};
use std::alloc::AllocGlobal;
use std::process::Abort;
use test_circuits::{Line, circuit_of};

/// The circuit of a text that is a valid one.
fn valid_of<R: AllocGlobal + Abort>(rt: &R, text: &str) -> Circuit {
    circuit_of(rt.alloc(), text).expect(rt, "a circuit")
}

pub fn plan_of<R: AllocGlobal + Abort>(rt: &R, text: &str) -> Plan {
    let circuit = valid_of(rt, text);
    assert!(rt; circuit.validate());
    order(rt.alloc(), &circuit).expect(rt, "an order")
}

/// The fault of a circuit that has no order.
fn fault_of<R: AllocGlobal + Abort>(rt: &R, text: &str) -> DesignFault {
    let circuit = valid_of(rt, text);
    assert!(rt; circuit.validate());
    order(rt.alloc(), &circuit).err().expect(rt, "a fault")
}

/// Whether a bit is that of a word, a net and the bit's number.
fn is_bit(bit: &BitAt, word: &str) -> bool {
    match word.split_once(':') {
        Some((net, at)) => {
            bit.net.as_bytes() == net.as_bytes() && at.parse::<u32>().ok() == Some(bit.bit)
        }
        None => false,
    }
}

/// Whether these are the bits of a word, which `,` parts.
fn are_bits(bits: &[BitAt], word: &str) -> bool {
    let mut words = word.split(',');
    for bit in bits {
        match words.next() {
            Some(word) if is_bit(bit, word) => (),
            _ => return false,
        }
    }
    words.next().is_none()
}

/// Checks rows of bits, of which the first has two drivers or each depends on the next one, drives, and the circuit.
fn check_faults<R: AllocGlobal + Abort>(rt: &R, kind: DesignKind, rows: &str) {
    for row in rows.lines() {
        let (bits, rest) = row.split_once(' ').unwrap_or((row, ""));
        let (drives, text) = rest.split_once(' ').unwrap_or((rest, ""));
        let fault = fault_of(rt, text);
        assert!(rt; fault.kind == kind && fault.place.is_empty(), "{row}");
        assert!(rt; are_bits(fault.bits.as_slice(), bits), "{row}");
        let wanted = Line::new(rt.alloc(), drives).hexadecimals();
        let wanted = wanted.expect(rt, "numbers");
        assert!(rt; fault.drives.as_slice() == wanted.as_slice(), "{row}");
    }
}

const TWO_DRIVERS: &str =
    "\\q:0 0,1 scope - -;net \\a 1;net \\b 1;net \\q 1;drive 2[0+:1] wire 0 0;drive 2[0+:1] cell 0 0;cell xor - 1 0 0[0+:1] 1[0+:1]
\\w:3 2,3 scope - -;net \\a 4;net \\w 8;drive 1[4+:4] const 4'5;drive 1[5+:2] const 2'1;drive 1[0+:4] const 4'5;drive 1[3+:2] const 2'1;drive 1[3+:1] wire 0 0";

/// Cells, parts of nets, wires, and a memory.
const LOOPS: &str =
    "\\a:0,\\b:0 - scope - -;net \\a 1;net \\b 1;net \\q 1;drive 0[0+:1] cell 0 0;drive 1[0+:1] cell 1 0;cell xor - 1 0 1[0+:1] 2[0+:1];cell xor - 1 0 0[0+:1] 2[0+:1]
\\q:1 - scope - -;net \\g 2;net \\q 2;drive 1[0+:2] cell 0 0;cell xor - 2 0 0[0+:2] 1[1+:1]
\\q:0,\\p:1 - scope - -;net \\g 1;net \\p 2;net \\q 2;drive 1[0+:2] cell 0 0;drive 2[0+:2] cell 1 0;cell xor - 2 0 0[0+:1] 2[0+:1];cell xor - 2 0 0[0+:1] 1[1+:1]
\\b:0,\\q:0 - scope - -;net \\a 1;net \\b 1;net \\q 1;drive 0[0+:1] wire 1 0;drive 1[0+:1] wire 2 0;drive 2[0+:1] wire 1 0
\\w:2 - scope - -;net \\w 3;drive 0[2+:1] wire 0 2
\\a:0,\\b:0 - scope - -;net \\a 1;net \\b 1;net \\q 1;drive 0[0+:1] read 0 0 0;drive 1[0+:1] wire 0 0;mem 1 2 0 2'0;read 0 1 - 1'0 0[0+:1] 1'1 1[0+:1];read 1 1 - 1'0 0[0+:1] 1'1 0[0+:1]";

#[test]
fn two_drives_of_a_bit_and_loops_are_found(rt: HostRuntime) {
    check_faults(&rt, DesignKind::TwoDrivers, TWO_DRIVERS);
    check_faults(&rt, DesignKind::CombLoop, LOOPS);
}

/// Two cells, of which the first takes from the second.
const BACKWARD: &str = "scope - -
net \\a 1
net \\b 1
net \\q 1
drive 1[0+:1] cell 1 0
drive 2[0+:1] cell 0 0
cell xor - 1 0 1[0+:1] 0[0+:1]
cell xor - 1 0 0[0+:1] 0[0+:1]";

/// A cell that takes from a read port, and another port with a clock.
const THROUGH_MEMORY: &str = "scope - -
net \\a 1
net \\b 1
net \\q 1
drive 0[0+:1] read 0 1 0
drive 1[0+:1] read 0 0 0
drive 2[0+:1] cell 0 0
cell xor - 1 0 1[0+:1] 0[0+:1]
mem 1 2 0 2'0
read 0 1 - 1'0 0[0+:1] 1'1 0[0+:1]
read 1 1 - 1'0 0[0+:1] 1'1 2[0+:1]";

#[test]
fn nodes_stand_behind_what_they_depend_on(rt: HostRuntime) {
    let plan = plan_of(&rt, BACKWARD);
    let wanted = [Node::Cell(1), Node::Cell(0)];
    assert!(&rt; plan.nodes.as_slice() == wanted.as_slice());
    let plan = plan_of(&rt, THROUGH_MEMORY);
    let wanted = [Node::Read(0, 0), Node::Cell(0)];
    assert!(&rt; plan.nodes.as_slice() == wanted.as_slice());
}

/// Nets that take from a cell through others.
const WIRES: &str = "scope - -
net \\g 2
net \\p 4
net \\q 4
net \\r 6
drive 3[0+:4] wire 2 0
drive 2[0+:2] wire 1 2
drive 2[2+:2] wire 0 0
drive 1[0+:4] cell 0 1
cell xor - 5 0 0[0+:2] 0[0+:2]";

/// What a root takes of a cell.
fn taken_of(by: &By) -> Option<(u32, u32)> {
    match by {
        By::Cell(cell, at) => Some((*cell, *at)),
        _ => None,
    }
}

#[test]
fn roots_go_through_wires(rt: HostRuntime) {
    let plan = plan_of(&rt, WIRES);
    let mut wanted = Line::new(rt.alloc(), "3[0+:2] 2[0+:2] 1[0+:4]");
    let mut first_bits = Line::new(rt.alloc(), "3 3 1");
    for root in plan.roots.as_slice() {
        assert!(&rt; Some((root.net, root.at, root.width)) == wanted.part());
        let first = first_bits.number().expect(&rt, "a number");
        assert!(&rt; taken_of(&root.by) == Some((0, first)));
    }
    assert!(&rt; wanted.word().is_none());
}

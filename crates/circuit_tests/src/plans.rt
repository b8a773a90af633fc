//! Which roots take from a source, and which nodes read a root.
use crate::order::plan_of;
use driver_check::Node;
use eval_plan::{Plan, Sources};
use std::alloc::AllocGlobal;
use std::process::Abort;
use test_circuits::Line;

/// One of each source: an input of two bits on net 0, a register of two bits, two read ports of one bit, the first
/// without a clock, three cells, and a constant. Bit 3 of net 4 and net 5 have no driver.
const EACH: &str = "scope - -
net \\g 2
net \\r 2
net \\m 2
net \\p 4
net \\q 4
net \\z 1
drive 0[0+:2] input 0 0
drive 1[0+:2] reg 0 0
drive 2[0+:1] read 0 0 0
drive 2[1+:1] read 0 1 0
drive 3[0+:2] cell 0 0
drive 3[2+:2] const 2'1
drive 4[0+:2] wire 3 0
drive 4[2+:1] wire 0 1
cell xor - 2 0 0[0+:2] 1[0+:2]
cell xor - 4 0 4[0+:4] 3[0+:4]
cell xor - 2 0 2[0+:2] 0[1+:1]
mem 1 2 0 2'0
read 0 1 - 1'0 0[0+:1] 1'1 1[0+:1]
read 1 1 - 1'0 0[0+:1] 1'1 5[0+:1]
input 0
node g 0 0 0 0 1 0
reg dff 11111 2 2'1 2'2 1'1 3[0+:2]";

/// Whether these are the numbers of the line's next word.
fn are_numbers(found: &[u32], line: &mut Line) -> bool {
    match line.hexadecimals() {
        Some(wanted) => {
            found.len() == wanted.len()
                && found
                    .iter()
                    .zip(wanted.as_slice())
                    .all(|(found, wanted)| u64::from(*found) == *wanted)
        }
        None => false,
    }
}

/// The roots of the source that a line names.
fn roots_of<'a>(sources: &'a Sources, line: &mut Line) -> Option<&'a [u32]> {
    match line.word()? {
        "input" => Some(sources.roots_of_input(line.number()?)),
        "cell" => Some(sources.roots_of_cell(line.number()?)),
        "reg" => Some(sources.roots_of_register(line.number()?)),
        "read" => Some(sources.roots_of_read(line.number()?, line.number()?)),
        "const" => Some(sources.constant_roots()),
        _ => None,
    }
}

/// Sources and the roots that take from them.
const SOURCES: &str = "input 0 0,7
cell 0 4,6
reg 0 1
read 0 0 2
read 0 1 3
const 5
cell 1 -
cell 2 -
input 1 -
reg 4294967295 -
read 1 0 -";

#[test]
fn roots_stand_under_what_they_take_from(rt: HostRuntime) {
    let plan = plan_of(&rt, EACH);
    for text in SOURCES.lines() {
        let mut line = Line::new(rt.alloc(), text);
        let found = roots_of(&plan.sources, &mut line).expect(&rt, "a source");
        assert!(&rt; are_numbers(found, &mut line), "{text}");
    }
}

/// The roots and the places of the nodes that read them.
const READERS: &str = "0[0+:2] 1,3
1[0+:2] 0,1
2[0+:1] 3
2[1+:1] 3
3[0+:2] 2
3[2+:2] 2
4[0+:2] 2
4[2+:1] 2";

fn check_readers<R: AllocGlobal + Abort>(rt: &R, plan: &Plan) {
    let mut lines = READERS.lines();
    let roots = plan.roots.as_slice();
    for n in 0..roots.len() {
        let mut line = Line::new(rt.alloc(), lines.next().unwrap_or(""));
        let root = &roots[n];
        assert!(rt; line.part() == Some((root.net, root.at, root.width)));
        assert!(rt; are_numbers(plan.readers.row(n), &mut line), "root {n}");
    }
    assert!(rt; lines.next().is_none());
    assert!(rt; plan.readers.row(8).is_empty());
}

/// A bit without a driver has no root. Cell 0 reads both bits of roots 0 and 1, and cell 1 bits of four roots and one
/// that has none.
#[test]
fn each_root_lists_its_readers_once_and_in_order(rt: HostRuntime) {
    let plan = plan_of(&rt, EACH);
    let nodes = [
        Node::Read(0, 0),
        Node::Cell(0),
        Node::Cell(1),
        Node::Cell(2),
    ];
    assert!(&rt; plan.nodes.as_slice() == nodes.as_slice());
    check_readers(&rt, &plan);
}

//! A circuit with one of everything.
use circuit::{By, Piece, Store, sig_width};
use sim_base::{Bits, Values};
use std::alloc::AllocGlobal;
use std::process::Abort;
use test_circuits::{circuit_of, value};

/// Nets that are driven by each kind of driver, two cells, a register, a memory, two inputs, five items with eight
/// slots, two scopes, an assertion at the rising edge of net 0, and an assumption without a trigger.
pub const WHOLE: &str = "net \\clk 1
net \\d 8
net \\core_\\q 8
net \\sum 9
net $chosen 8
net \\core_$kept 16
net \\core_$shown 16
net $mixed 8
drive 0[0+:1] input 0 0
drive 1[0+:8] input 1 0
drive 2[0+:8] reg 0 0
drive 3[0+:9] cell 0 0
drive 4[0+:8] cell 1 0
drive 5[0+:16] read 0 0 0
drive 6[0+:16] read 0 1 0
drive 7[0+:4] const 4'5
drive 7[4+:4] wire 1 4
cell add - 9 0 2[0+:8] 1[0+:8]
cell mux - 8 0 2[0+:8] 3[1+:8] 1[0+:1]
reg adffe 11111 8 8'11 8'5a 0[0+:1] 4[0+:8] 1[1+:1] - 1[2+:1]
mem 16 4 2 64'0004000300020001
read 1 1 1 16'a55a 0[0+:1] 1'1 1[0+:2]
read 0 1 1 16'1234 0[0+:1] 1'1 1[0+:2]
write 1 0[0+:1] 5[0+:16] 1[2+:2] 1[0+:8],2[0+:8]
input 0
input 1
node clk 0 0 0 0 0 0 top.v:1.1-9.9
rows core_mem 1 1 0 top.v:1.1-9.9
node core_q 1 5 2 0 0 0 top.v:1.1-9.9
node d 0 6 1 0 0 0 top.v:1.1-9.9
node sum 0 7 3 0 0 0 top.v:1.1-9.9
scope - top
scope core part part.v:1.1-5.5 top.v:2.2-3.3
assert core_small part.v:4.4-4.9 2[7+:1] 1'1 0[0+:1] 1
assume even - 1[0+:1] 1'1";

/// Checks the widths of values, each of which has at most 64 bits, and their numbers.
fn check_values(rt: &impl Abort, values: &Values, widths: &[u32], numbers: &[u64]) {
    assert!(rt; values.len() == widths.len());
    assert!(rt; values.len() == numbers.len());
    for n in 0..widths.len().min(8) {
        assert!(rt; n < values.len() && n < numbers.len());
        assert!(rt; values.width(n as u32) == widths[n] && widths[n] <= 64);
        assert!(rt; values.word(n as u32) == numbers[n]);
    }
}

/// The number of a value of 16 bits.
fn number(rt: &impl Abort, bits: &Bits) -> u64 {
    assert!(rt; bits.width() == 16);
    bits.field(0, 16)
}

fn check_start<R: AllocGlobal + Abort>(rt: &R, store: &Store) {
    check_values(rt, &store.nets, &[1, 8, 8, 9, 8, 16, 16, 8], &[0; 8]);
    check_values(rt, &store.cells, &[9, 8], &[0, 0]);
    check_values(rt, &store.regs, &[8], &[0x5A]);
    assert!(rt; store.reads.len() == 1);
    let reads = store.reads.as_slice()[0].as_slice();
    assert!(rt; reads.len() == 2);
    assert!(rt; number(rt, &reads[0]) == 0xA55A);
    assert!(rt; number(rt, &reads[1]) == 0);
}

#[test]
fn a_circuit_with_one_of_everything_is_valid(rt: HostRuntime) {
    let circuit = circuit_of(rt.alloc(), WHOLE).expect(&rt, "a circuit");
    assert!(&rt; circuit.validate());
    let shape = circuit.shape(rt.alloc()).expect(&rt, "memory");
    let widths = [1, 16, 16, 16, 16, 8, 8, 9, 1, 1];
    assert_eq!(&rt; shape.widths(), widths.as_slice());
    let store = Store::new(rt.alloc(), &circuit).expect(&rt, "memory");
    check_start(&rt, &store);
}

#[test]
fn pieces_and_drivers_tell_their_widths_and_first_bits(rt: HostRuntime) {
    let low = Piece::Part {
        net: 2,
        at: 3,
        width: 9,
    };
    let high = Piece::Part {
        net: 0,
        at: 1,
        width: 70,
    };
    assert_eq!(rt; low.width(), 9);
    assert_eq!(rt; sig_width([low, high].as_slice()), 79);
    let five = value(rt.alloc(), 8, "5").expect(&rt, "a value");
    assert_eq!(rt; By::Const(five).offset(), 0);
    assert_eq!(rt; By::Reg(2, 7).offset(), 7);
    assert_eq!(rt; By::Read(1, 3, 4).offset(), 4);
}

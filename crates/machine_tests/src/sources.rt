//! A circuit with one of each source, and the nets that it has.
use crate::samples::check;

/// An input, a wire of it, its sum with 3, the row at the sum, a constant of 70 bits, a cell that reads the row and the
/// end of the constant, two bits of the input among bits without a driver, a `$dff` of 4 bits that begins with 9, and a
/// read port with a clock, which begins with 5a.
const SOURCES: &str = "scope - -
net - 8;net - 8;net - 8;net - 8;net - 70;net - 8;net - 4;net - 4;net - 8
drive 0[0+:8] input 0 0;input 0;node a 0 0 0 0 1 0
drive 1[0+:8] wire 0 0
drive 2[0+:8] cell 1 0
drive 3[0+:8] read 0 0 0
drive 4[0+:70] const 70'30c000000000000005
drive 5[0+:8] cell 0 0
drive 6[1+:2] wire 0 6
drive 7[0+:4] reg 0 0
drive 8[0+:8] read 0 1 0
cell xor - 8 0 3[0+:8] 4[62+:8]
cell add - 8 0 1[0+:8] 8'3
reg dff 11111 4 4'0 4'9 1'0 7[0+:4]
mem 8 4 0 32'44332211
read 0 1 - 8'0 1'0 1'1 2[0+:2]
read 1 1 - 8'5a 1'0 1'1 2[0+:2]";

/// Under three inputs nothing changes but the nets that take from the input.
const THREE_INPUTS: &str = "- - 0,0,3,44,c000000000000005,87,0,9,5a
fe 1 fe,fe,1,22,c000000000000005,e1,6,9,5a
40 1 40,40,43,44,c000000000000005,87,2,9,5a
0 1 0,0,3,44,c000000000000005,87,0,9,5a";

#[test]
fn nets_take_what_drives_them(rt: HostRuntime) {
    check(&rt, &[SOURCES], THREE_INPUTS);
}

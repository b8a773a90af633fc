//! Circuits in which some of what a cell could read changes.
use crate::samples::check;

/// A register of 8 bits (net 2), which takes net 1 at the clock (net 0), the inverse of its highest bit (net 3), and
/// that of its lowest one, which a wire leads to (net 5).
const PARTS: &str = "scope - -;net - 1;net - 8;net - 8;net - 1;net - 8;net - 1
drive 0[0+:1] input 0 0;input 0;node a 0 0 0 0 1 0
drive 1[0+:8] input 1 0;input 1;node b 0 1 1 0 1 0
drive 2[0+:8] reg 0 0;reg dff 11111 8 8'0 8'0 0[0+:1] 1[0+:8]
drive 3[0+:1] cell 0 0;cell not - 1 0 2[7+:1]
drive 4[0+:8] wire 2 0
drive 5[0+:1] cell 1 0;cell not - 1 0 4[0+:1]";

/// Each cell follows its own bit, whether the other one changes with it or not.
const PART_BY_PART: &str = "- - 0,0,0,1,0,1
0,1 1 0,1,0,1,0,1
1,1 2 1,1,1,1,1,0
0,80 1 0,80,1,1,1,0
1,80 2 1,80,80,0,80,1
0,81 1 0,81,80,0,80,1
1,81 2 1,81,81,0,81,0
0,81 1 0,81,81,0,81,0
1,81 1 1,81,81,0,81,0";

/// A port without a clock (net 3) at the address of net 1, whose row is written with net 2 at the clock (net 0), and
/// the inverse of what it gives (net 4).
const UNDER_AN_ADDRESS: &str = "scope - -;net - 1;net - 2;net - 8;net - 8;net - 8
drive 0[0+:1] input 0 0;input 0;node a 0 0 0 0 1 0
drive 1[0+:2] input 1 0;input 1;node b 0 1 1 0 1 0
drive 2[0+:8] input 2 0;input 2;node c 0 2 2 0 1 0
drive 3[0+:8] read 0 0 0
drive 4[0+:8] cell 0 0;cell not - 8 0 3[0+:8]
mem 8 4 0 32'ab0000
read 0 1 0 8'0 0[0+:1] 1'1 1[0+:2]
write 1 0[0+:1] 8'ff 1[0+:2] 2[0+:8]";

/// What the port gives follows the address, and the row where the address stands still.
const READ_AND_WRITTEN: &str = "- - 0,0,0,0,ff ab
0,2,0 1 0,2,0,ab,54 ab
1,2,7 2 1,2,7,7,f8 7
1,0,7 1 1,0,7,0,ff 7
1,2,7 1 1,2,7,7,f8 7
0,2,9 1 0,2,9,7,f8 7
1,2,9 2 1,2,9,9,f6 9";

#[test]
fn cells_follow_what_they_read(rt: HostRuntime) {
    check(&rt, &[PARTS], PART_BY_PART);
    check(&rt, &[UNDER_AN_ADDRESS], READ_AND_WRITTEN);
}

//! Circuits with registers, and what they do.
use crate::samples::check;

/// A register (net 1) that takes 1 at the rising edge of net 0.
pub const FLIP_FLOP: &str = "scope - -;net - 1;net - 1
drive 0[0+:1] input 0 0;input 0;node a 0 0 0 0 1 0
drive 1[0+:1] reg 0 0;reg dff 11111 1 1'0 1'0 0[0+:1] 1'1";

/// A clock that is 1 at the first sample has its edge there.
const FIRST_EDGE: &str = "- - 0,0
1 2 1,1";

/// Two registers of one clock (net 0), the second (net 3) of which takes the first (net 2), which takes net 1.
const CHAIN: &str = "scope - -;net - 1;net - 1;net - 1;net - 1
drive 0[0+:1] input 0 0;input 0;node a 0 0 0 0 1 0
drive 1[0+:1] input 1 0;input 1;node b 0 1 1 0 1 0
drive 2[0+:1] reg 0 0;reg dff 11111 1 1'0 1'0 0[0+:1] 1[0+:1]
drive 3[0+:1] reg 1 0;reg dff 11111 1 1'0 1'0 0[0+:1] 2[0+:1]";

/// The second takes the old value of the first.
const CHAINED: &str = "- - 0,0,0,0
0,1 1 0,1,0,0
1,1 2 1,1,1,0
0,1 1 0,1,1,0
1,1 2 1,1,1,1";

/// The nets x (2) and g (3), which take net 1 and the inverse of g (5) at the clock (net 0), and y (4), which takes x
/// at g.
const BEHIND: &str = "scope - -;net - 1;net - 1;net - 1;net - 1;net - 1;net - 1
drive 0[0+:1] input 0 0;input 0;node a 0 0 0 0 1 0
drive 1[0+:1] input 1 0;input 1;node b 0 1 1 0 1 0
drive 2[0+:1] reg 0 0;reg dff 11111 1 1'0 1'0 0[0+:1] 1[0+:1]
drive 3[0+:1] reg 1 0;reg dff 11111 1 1'0 1'0 0[0+:1] 5[0+:1]
drive 4[0+:1] reg 2 0;reg dff 11111 1 1'0 1'0 3[0+:1] 2[0+:1]
drive 5[0+:1] cell 0 0;cell not - 1 0 3[0+:1]";

/// Behind the clock of a register a value comes a round later.
const A_ROUND_LATER: &str = "- - 0,0,0,0,0,1
0,1 1 0,1,0,0,0,1
1,1 3 1,1,1,1,1,0";

/// A latch (net 1) that takes its own inverse (net 2) while the input is 1.
pub const RESTLESS: &str = "scope - -;net - 1;net - 1;net - 1
drive 0[0+:1] input 0 0;input 0;node a 0 0 0 0 1 0
drive 1[0+:1] reg 0 0;reg dlatch 11111 1 1'0 1'0 - 2[0+:1] 0[0+:1]
drive 2[0+:1] cell 0 0;cell not - 1 0 1[0+:1]";

/// After a sample that does not settle none does.
const UNSETTLED: &str = "- - 0,0,1
0 1 0,0,1
1 - -
0 - -";

/// A bit that is 1, and is both set and cleared, and two registers of two bits that are 3, are not enabled, and are
/// reset to 2.
const CONTESTED: &str = "scope - -;net - 1;net - 1;net - 2;net - 2
drive 0[0+:1] input 0 0;input 0;node a 0 0 0 0 1 0
drive 1[0+:1] reg 0 0;reg dffsr 11111 1 1'0 1'1 0[0+:1] 1'1 - 1'1 1'1
drive 2[0+:2] reg 1 0;reg sdffce 11111 2 2'2 2'3 0[0+:1] 2'1 1'0 - 1'1
drive 3[0+:2] reg 2 0;reg sdffe 11111 2 2'2 2'3 0[0+:1] 2'1 1'0 - 1'1";

/// A clear goes before a set. The enable of a `$sdffce` holds its reset back, and that of a `$sdffe` does not.
const IN_ORDER: &str = "- - 0,1,3,3
0 2 0,0,3,3
1 2 1,0,3,2";

#[test]
fn registers_change_from_round_to_round(rt: HostRuntime) {
    check(&rt, &[FLIP_FLOP], FIRST_EDGE);
    check(&rt, &[CHAIN], CHAINED);
    check(&rt, &[BEHIND], A_ROUND_LATER);
    check(&rt, &[RESTLESS], UNSETTLED);
    check(&rt, &[CONTESTED], IN_ORDER);
}

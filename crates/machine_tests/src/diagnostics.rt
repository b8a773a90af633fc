//! Circuits with an assertion and an assumption, and where these fire.
use crate::registers::{FLIP_FLOP, RESTLESS};
use crate::samples::check;

/// An assertion that wants net 1 to be 1, and an assumption that wants it at the rising edge of net 0.
const TWO: &str = "assert - - 1[0+:1] 1'1
assume - - 1[0+:1] 1'1 0[0+:1] 1";

/// A register that takes 1 at the clock is still 0 in the round of the edge, and 1 where the sample ends.
const AT_AN_EDGE: &str = "- - - - 00
0 1 - - 10
1 2 - - 01
0 1 - - 00
1 1 - - 00";

/// None fires once a sample does not settle.
const UNSETTLED: &str = "- - - - 00
0 1 - - 10
1 - - - 00
0 - - - 00";

#[test]
fn diagnostics_fire_where_a_sample_ends_or_at_their_edges(rt: HostRuntime) {
    check(&rt, &[FLIP_FLOP, TWO], AT_AN_EDGE);
    check(&rt, &[RESTLESS, TWO], UNSETTLED);
}

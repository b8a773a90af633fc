//! Circuits with a memory, and what they do.
use crate::samples::check;

/// Two ports that read row 2, which is written with an enable (net 1) and a word (net 2): the first (net 3) sees it at
/// the same edge, the second (net 4) does not.
const READ_AND_WRITTEN: &str = "scope - -;net - 1;net - 1;net - 8;net - 8;net - 8
drive 0[0+:1] input 0 0;input 0;node a 0 0 0 0 1 0
drive 1[0+:1] input 1 0;input 1;node b 0 1 1 0 1 0
drive 2[0+:8] input 2 0;input 2;node c 0 2 2 0 1 0
drive 3[0+:8] read 0 0 0
drive 4[0+:8] read 0 1 0
mem 8 4 0 32'0
read 1 1 1 8'0 0[0+:1] 1'1 2'2
read 1 1 0 8'0 0[0+:1] 1'1 2'2
write 1 0[0+:1] 1[0+:1],1[0+:1],1[0+:1],1[0+:1],1[0+:1],1[0+:1],1[0+:1],1[0+:1] 2'2 2[0+:8]";

/// A port that does not see a write reads the old row at its edge, and the new one at the next. The row has what was
/// written after the sample of the edge.
const WRITTEN_ONCE: &str = "- - 0,0,0,0,0 0
0,1,a5 1 0,1,a5,0,0 0
1,1,a5 2 1,1,a5,a5,0 a5
0,1,a5 1 0,1,a5,a5,0 a5
1,1,a5 2 1,1,a5,a5,a5 a5";

/// Two ports write FF and 0 to one row, and one reads it without a clock.
const TWO_WRITERS: &str = "scope - -;net - 1;net - 8
drive 0[0+:1] input 0 0;input 0;node a 0 0 0 0 1 0
drive 1[0+:8] read 0 0 0
mem 8 4 0 32'ab0000
read 0 1 00 8'0 0[0+:1] 1'1 2'2
write 1 0[0+:1] 8'ff 2'2 8'ff
write 1 0[0+:1] 8'ff 2'2 8'0";

/// The last word stays.
const LAST_WORD: &str = "- - 0,ab
0 1 0,ab
1 2 1,0";

#[test]
fn rows_are_read_and_written_at_edges(rt: HostRuntime) {
    check(&rt, &[READ_AND_WRITTEN], WRITTEN_ONCE);
    check(&rt, &[TWO_WRITERS], LAST_WORD);
}

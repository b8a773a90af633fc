//! Cells that select, take apart and join.
use crate::cells::check_rows;
use std::marker::Brand;
use std::sync::ledger::Blank;

const ROWS: &str = "mux - 33'9897c7ab 33'c60fec34 1'1 33'c60fec34
mux - 1'1 1'1 1'0 1'1
pmux - 33'19c2bc979 33'7 1'0 33'19c2bc979
pmux - 1'0 1'1 1'1 1'1
bmux - 132'5d7b44e14455265aed6b3bbb1481558b2 0'0 2'0 33'1481558b2
bmux - 2'1 0'0 1'0 1'1
demux - 64'9cfd64a25f2ddc35 0'0 3'7 512'9cfd64a25f2ddc35.0*112
demux - 2'1 0'0 2'3 8'40
bwmux - 8'f1 8'fb 8'28 8'f9
bwmux - 2'2 2'1 2'0 2'2
bweqx - 33'e 33'147b10f09 0'0 33'b84ef0f8
bweqx - 1'1 1'1 0'0 1'1
pmux - 8'0 16'2211 2'3 8'11
pmux - 8'7 256'a51e1d1c1b1a191817161514131211100f0e0d0c0b0a09080706050403020100 32'80000000 8'a5
bmux - 4'9 0'0 1'1 2'2
demux - 2'3 0'0 1'1 4'c
mux - 4096'0 4096'f*1024 1'1 4096'f*1024
pmux - 4096'0 12288'2*1024.1*1024.0*1024 3'6 4096'1*1024
bmux - 0'0 0'0 65'1 0'0
bmux - 8192'3*1024.2*1024 0'0 1'1 4096'3*1024
demux - 0'0 0'0 65'1 0'0
slice - 4096'a*1022.f8 0'0 0'0 65'1.5*15.f
slice - 3'7 0'0 0'0 0'0
concat - 63'7.f*15 4033'1.0*1008 0'0 4096'8.0*1007.7.f*15
concat - 0'0 1'1 0'0 1'1";

#[test]
fn parts_are_taken_where_they_are_selected(rt: HostRuntime) {
    check_rows::<Brand, _>(&rt, &[ROWS], Blank::new(1));
}

//! Shifts by less and by more than a word, and between the words of wide values.
use crate::cells::check_rows;
use std::marker::Brand;
use std::sync::ledger::Blank;

const ROWS: &str = "shl - 8'ff 128'8.0*31 0'0 16'0
sshr a 8'80 128'8.0*31 0'0 16'ffff
shr - 8'ff 65'1.0*16 0'0 8'0
shift b 1'1 100'f*24.d 0'0 8'8
shift b 8'ff 128'8.0*31 0'0 8'0
shiftx b 8'ff 65'1.f*15.8 0'0 16'ff00
sshr ab 8'80 2'3 0'0 8'f0
shr ab 8'80 2'3 0'0 8'10
shift b 8'1 4'e 0'0 8'4
shl b 33'100000000 5'4 0'0 200'1.0*9
shl a 7'0 5'0 0'0 7'0
shl b 8'41 5'f 0'0 2'0
shl a 3'5 1'1 0'0 8'fa
sshl a 1'1 1'1 0'0 65'1.f*15.e
sshl ab 31'62924669 9'1ff 0'0 31'0
shr ab 32'80000000 5'12 0'0 32'2000
shr a 63'6e5eebbe10406a32 9'1 0'0 128'7.f*16.72f75df08203519
shr a 31'4e9edf4b 9'8 0'0 65'1ffffffffce9edf
shr - 0'0 1'0 0'0 65'0
sshr a 127'486467e854eb4a9c16d0f71b5fe3f471 8'80 0'0 3'7
sshr a 31'3fffffff 9'1fe 0'0 31'0
sshr a 0'0 9'ff 0'0 130'0
sshr - 65'ca8a667dd1d95983 5'1f 0'0 7'7b
shift ab 64'8ea2318d2443fdbf 3'7 0'0 32'4887fb7e
shift ab 32'd7d65a35 8'c6 0'0 64'd4.0*14
shift ab 8'ed 9'1ff 0'0 8'da
shift - 31'7 1'1 0'0 31'3
shift ab 128'b47f225612c14fc19501189cf7c06931 9'fe 0'0 1'0
shiftx - 7'6f 5'2 0'0 7'1b
shiftx ab 33'1506c86d6 1'1 0'0 128'2a0d90dac
shiftx b 8'23 3'4 0'0 7'30
shiftx a 128'7.f*31 1'1 0'0 64'f*16
shiftx b 3'2 8'ff 0'0 130'4
shl - 7'7f 3'5 0'0 31'fe0
shl b 64'409fbb6640050760 1'1 0'0 8'c0
shl - 64'1 8'3f 0'0 64'8.0*15
shl - 8'1 8'40 0'0 64'0
sshl - 33'1261dc86a 1'0 0'0 31'261dc86a
sshl b 33'170e7fb42 8'4 0'0 64'170e7fb420
shr - 63'7322d0a0d986e222 1'1 0'0 31'6cc37111
sshr - 64'66795c874a34307c 3'1 0'0 3'6
sshr a 32'd 1'0 0'0 1'1
shl a 1'1 128'ffa 0'0 4096'fc.0*1022
shl a 2'1 128'fff 0'0 4096'8.0*1023
sshl a 4096'1 128'64 0'0 4096'1.0*25
shr a 65536'8.0*16383 128'ffff 0'0 64'1
shr a 4096'8.0*1023 128'fa0 0'0 4096'8.0*23
sshr a 4096'8.0*1023 128'fa0 0'0 4096'f*1000.8.0*23
sshr a 4096'8.0*1023 128'1.0*25 0'0 4096'f*1024
shift a 65'1.0*16 128'1 0'0 65536'7.f*16367.8.0*15
shiftx a 65'1.0*16 128'1 0'0 128'8.0*15";

#[test]
fn shifts_fill_with_zeros_or_the_sign(rt: HostRuntime) {
    check_rows::<Brand, _>(&rt, &[ROWS], Blank::new(1));
}

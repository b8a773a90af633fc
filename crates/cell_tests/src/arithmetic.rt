//! Sums, products, quotients and comparisons.
use crate::cells::check_rows;
use std::marker::Brand;
use std::sync::ledger::Blank;

const ROWS: &str = "add - 128'f*32 1'1 0'0 128'0
div ab 8'f9 8'2 0'0 8'fd
mod ab 8'f9 8'2 0'0 8'ff
divfloor ab 8'f9 8'2 0'0 8'fc
modfloor ab 8'f9 8'2 0'0 8'1
div ab 8'f9 8'0 0'0 8'0
mod ab 8'f9 8'0 0'0 8'0
divfloor ab 8'f9 8'0 0'0 8'0
modfloor ab 8'f9 8'0 0'0 8'0
neg a 64'748a5b92ca05edca 0'0 0'0 127'7.f*15.8b75a46d35fa1236
neg a 3'2 0'0 0'0 32'fffffffe
neg - 0'0 0'0 0'0 63'0
neg a 8'88 0'0 0'0 1'0
add - 64'227268a3794c5d5f 64'227268a3794c5d5f 0'0 128'44e4d146f298babe
add ab 2'2 128'ee0a660ec0c2983fe8654db497b7dd3d 0'0 128'ee0a660ec0c2983fe8654db497b7dd3b
add b 64'f5f6629496fe6d84 1'0 0'0 33'96fe6d84
sub - 3'3 31'3f72367b 0'0 128'f*24.c08dc988
sub ab 128'7.f*31 1'1 0'0 31'0
sub - 64'8.0*15 2'0 0'0 64'8.0*15
mul ab 3'6 128'3b842908d717a2cdaafcd7e53bc157f9 0'0 2'2
mul - 7'5 65'3a556c6de2941257 0'0 128'123ab1e256ce45bb3
mul ab 128'5 127'1ee546adc4ba88f4db541414aef61efd 0'0 128'9a7a6164d7a4acc848a464676ace9af1
div a 32'ffffffff 128'3 0'0 128'55555555
div ab 128'eec34ffb6283de6f724619dc2131194f 33'c1cc3480 0'0 1'1
div ab 128'f*32 1'0 0'0 128'0
mod ab 63'4.0*15 33'd 0'0 8'fc
mod ab 1'1 65'1c05bece796bfe2fa 0'0 128'f*32
mod - 31'0 7'7f 0'0 33'0
divfloor ab 2'1 128'f93278722a2bd48f230575dcabf3d2df 0'0 2'3
divfloor - 127'780c14fc3877d700438745ef00cd28a7 33'5 0'0 128'18026a98d817f7ccda4e412fccf5d4ee
divfloor ab 128'6 128'a69cedf01ee73b0cefa16a0aa82b6591 0'0 31'7fffffff
modfloor ab 65'f5c4825d7f687cb2 63'50e50d839ff2b622 0'0 8'7e
modfloor a 128'c17fac0b1ac7a46b30f3633e65916d53 1'0 0'0 1'0
lt ab 64'8.0*15 127'4a76c7288a1c489d7bdb48e3a258f81c 0'0 3'0
lt ab 0'0 0'0 0'0 31'0
lt a 8'0 2'1 0'0 128'1
le ab 3'5 3'3 0'0 2'1
le a 128'9b6b443fb5fb67f0abdfa70b9bc1bb3f 8'9 0'0 64'0
ge ab 2'1 2'0 0'0 128'1
ge ab 31'1507e423 8'14 0'0 63'1
gt ab 7'7f 128'a 0'0 2'0
gt - 3'7 1'0 0'0 63'1
add - 8'f0 8'25 0'0 8'15
add ab 16'8001 16'ffff 0'0 16'8000
add - 64'f*16 64'2 0'0 64'1
sub - 8'12 8'34 0'0 8'de
sub ab 33'100000000 33'1 0'0 33'ffffffff
sub - 64'0 64'1 0'0 64'f*16
mul - 8'1d 8'3b 0'0 8'af
mul ab 5'1f 5'1f 0'0 5'1
mul - 64'ffffffff 64'ffffffff 0'0 64'fffffffe00000001
mul ab 64'100000000 64'100000003 0'0 64'300000000
lt ab 8'80 8'7f 0'0 1'1
lt a 8'80 8'7f 0'0 4'0
le ab 63'4.0*15 63'3cd70d823090d070 0'0 1'1
le - 16'7 16'7 0'0 1'1
ge b 63'8 63'172d5ca41595d431 0'0 64'0
ge ab 1'1 1'0 0'0 1'0
gt ab 64'8.0*15 64'0 0'0 1'0
gt - 64'8.0*15 64'0 0'0 1'1";

#[test]
fn arithmetic_is_that_of_whole_numbers(rt: HostRuntime) {
    check_rows::<Brand, _>(&rt, &[ROWS], Blank::new(1));
}

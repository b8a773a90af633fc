//! Modules that are taken: how many parts they give, and what drives what.
use crate::rows::check_modules;
use std::test::Fail;

const WIRES: &str = r#" => 3 0 0 0 0 3
wire $p => 4 0 0 0 0 3
wire width 65536 \p => 4 0 0 0 0 4
wire width 0 \p => 4 0 0 0 0 4
connect \b \a => 3 0 0 0 0 3; 1[0+8] wire 0 0
connect \b [3:0] { \c \a [2:0] } => 3 0 0 0 0 3; 1[0+3] wire 0 0; 1[3+1] wire 2 0
connect { \c \b [0] } \a [3:2] => 3 0 0 0 0 3; 1[0+1] wire 0 2; 2[0+1] wire 0 3
connect \b 8'00010011 => 3 0 0 0 0 3; 1[0+8] 8'13
connect \b 4'10 => refused 16 Width \m connect
connect \b [6:3] 4'10 => 3 0 0 0 0 3; 1[3+4] 4'2
connect { 4'0000 \b } [7:0] \a => 3 0 0 0 0 3; 1[0+8] wire 0 0
connect { } { } => 3 0 0 0 0 3"#;

const CELLS: &str =
    r#"cell $not \g / parameter \A_WIDTH 8 / parameter \Y_WIDTH 8 / connect \A \a / connect \Y \b / end => 3 1 0 0 0 3; 1[0+8] cell 0 0
cell $not \g / parameter \A_WIDTH 8 / parameter \Y_WIDTH 8 / connect \A \a / connect \Y { \b [3:0] 4'0000 } / end => 3 1 0 0 0 3; 1[0+4] cell 0 4
cell $not \g / parameter \A_WIDTH 8 / parameter \Y_WIDTH 8 / end => 3 1 0 0 0 3
cell $not \g / parameter \A_WIDTH 1 / parameter \Y_WIDTH 1 / connect \Y \c / end / cell $not \h / parameter \A_WIDTH 1 / parameter \Y_WIDTH 1 / connect \Y \a [5] / end => 3 2 0 0 0 3; 2[0+1] cell 0 0; 0[5+1] cell 1 0
cell $dff \r / parameter \WIDTH 8 / parameter \CLK_POLARITY 1 / connect \CLK \c / connect \D \a / connect \Q \b / end => 3 0 1 0 0 3; 1[0+8] reg 0 0
cell $mem_v2 \s / % / parameter \SIZE 4 / parameter \RD_PORTS 1 / parameter \WR_CLK_ENABLE 1'1 / connect \RD_ADDR \a [1:0] / connect \RD_DATA \b / end => 3 0 0 1 0 4; 1[0+8] read 0 0 0
cell $mem_v2 \s / % / parameter \SIZE 4 / parameter \RD_PORTS 2 / parameter \WR_CLK_ENABLE 1'1 / connect \RD_DATA { \b \a } / end => 3 0 0 1 0 4; 0[0+8] read 0 0 0; 1[0+8] read 0 1 0
cell $mem_v2 \s / % / parameter \SIZE 4 / parameter \RD_PORTS 1 / parameter \WR_CLK_ENABLE 1'1 / connect \RD_ARST 1'0 / connect \RD_SRST 1'x / end => 3 0 0 1 0 4
cell $assert \g / connect \A \c / connect \EN 1'1 / end => 3 0 0 0 1 3
cell $assume \g / end => 3 0 0 0 1 3
cell $check \g / parameter \FLAVOR "assert" / parameter \TRG_ENABLE 1 / parameter \TRG_WIDTH 1 / parameter \TRG_POLARITY 1 / connect \TRG \c / end => 3 0 0 0 1 3
cell $check \g / parameter \FLAVOR "cover" / connect \TRG \a / end => 3 0 0 0 0 3
cell $print \g / parameter \WHAT 5 / connect \EVER \a / end => 3 0 0 0 0 3"#;

const INSTANCES: &str =
    r#"cell \plain \u / connect \x \a / connect \y \c / end => 6 0 0 0 0 6; 3[0+8] wire 0 0; 2[0+1] wire 4 0
cell \plain \u / connect \y \c / connect \x { \b [3:0] \a [7:4] } / end => 6 0 0 0 0 6; 2[0+1] wire 4 0; 3[0+4] wire 0 4; 3[4+4] wire 1 0
cell \plain \u / connect \y \c / end => 6 0 0 0 0 6; 2[0+1] wire 4 0; 3[0+8] 8'0
cell \plain \u / connect \y 1'0 / connect \x 8'11111111 / end => 6 0 0 0 0 6; 3[0+8] 8'ff
cell \plain \u / end / cell \plain \v / end => 9 0 0 0 0 9; 3[0+8] 8'0; 6[0+8] 8'0"#;

#[test]
fn wires_and_connections_become_nets_and_drives(rt: HostRuntime) -> Result<(), Fail> {
    check_modules(&rt, rt.alloc(), WIRES)
}

#[test]
fn cells_drive_what_their_outputs_are_joined_to(rt: HostRuntime) -> Result<(), Fail> {
    check_modules(&rt, rt.alloc(), CELLS)
}

#[test]
fn ports_of_instances_join_the_wires_on_both_sides(rt: HostRuntime) -> Result<(), Fail> {
    check_modules(&rt, rt.alloc(), INSTANCES)
}

//! Modules that are refused: the first check that fails decides.
use crate::rows::check_modules;
use std::test::Fail;

const WIRES: &str = r#"wire \a => refused 13 DuplicateName \m \a
wire inout 1 \p => refused 17 Inout \m \p
wire input 1 output 2 \p => refused 17 Inout \m \p
wire width 65537 \p => refused 18 TooWide \m \p
wire inout 1 \a => refused 13 DuplicateName \m \a
wire inout 1 width 65537 \p => refused 17 Inout \m \p
connect \n \a / wire inout 1 \p => refused 17 Inout \m \p
connect \n \a => refused 12 UnknownName \m connect
connect \a { \b [3:0] \n } => refused 12 UnknownName \m connect
connect \a \b [3:0] => refused 16 Width \m connect
connect \b [8:1] \a => refused 16 Width \m connect
connect \b [0:3] \a [0:3] => refused 16 Width \m connect
connect 8'0 \a => refused 22 ConstTarget \m connect
connect { \b [6:0] 1'1 } \a => refused 22 ConstTarget \m connect
connect 8'0 \n => refused 12 UnknownName \m connect
connect \b [9] \n => refused 12 UnknownName \m connect
connect 7'0 \a => refused 16 Width \m connect
connect 8'0 \a / connect \n \a => refused 22 ConstTarget \m connect"#;

const CELLS: &str = r#"cell $print \g / end / cell $live \g / end => refused 13 DuplicateName \m \g
cell $not \g / parameter \A_WIDTH 8 / parameter \A_WIDTH 8 / end => refused 13 DuplicateName \m \g
cell $odd \g / connect \A \a / connect \A \a / end => refused 13 DuplicateName \m \g
cell $odd \g / connect \A \n / end => refused 14 UnknownCell \m \g
cell \odd \g / parameter \A_WIDTH 8 / end => refused 14 UnknownCell \m \g
cell \m \g / parameter \A_WIDTH 8 / end => refused 20 RecursiveModules \m \g
cell $not \g / parameter \Y_WIDTH 8 / connect \Q \a / end => refused 15 BadParameter \m \g
cell $slice \g / parameter \OFFSET 5 / parameter \A_WIDTH 8 / parameter \Y_WIDTH 4 / end => refused 15 BadParameter \m \g
cell $not \g / parameter \A_WIDTH 4 / parameter \Y_WIDTH 8 / connect \A \a / connect \Q \a / end => refused 12 UnknownName \m \g
cell $not \g / parameter \A_WIDTH 4 / parameter \Y_WIDTH 8 / connect \A \n / end => refused 12 UnknownName \m \g
cell $not \g / parameter \A_WIDTH 4 / parameter \Y_WIDTH 8 / connect \A \a / end => refused 16 Width \m \g
cell $not \g / parameter \A_WIDTH 65537 / parameter \Y_WIDTH 8 / connect \A \a / end => refused 16 Width \m \g
cell $not \g / parameter \A_WIDTH 65537 / parameter \Y_WIDTH 8 / end => refused 18 TooWide \m \g
cell $add \g / parameter \A_WIDTH 129 / parameter \B_WIDTH 8 / parameter \Y_WIDTH 8 / end => refused 19 ArithTooWide \m \g
cell $add \g / parameter \A_WIDTH 129 / parameter \B_WIDTH 65537 / parameter \Y_WIDTH 8 / end => refused 18 TooWide \m \g
cell $and \g / parameter \A_WIDTH 129 / parameter \B_WIDTH 8 / parameter \Y_WIDTH 8 / end => 3 1 0 0 0 3
cell $assert \g / connect \A \a / end => refused 16 Width \m \g
cell $assert \g / connect \A \a / connect \B \n / end => refused 12 UnknownName \m \g
cell $check \g / parameter \FLAVOR "assert" / connect \A \n / end => refused 15 BadParameter \m \g
cell $print \g / connect \A \a [8] / end => refused 16 Width \m \g
cell $print \g / connect \A \a [8] / connect \B \n / end => refused 12 UnknownName \m \g"#;

const MEMORIES: &str = r#"wire \mem / cell $mem_v2 \s / % / end => refused 13 DuplicateName \m \s
cell $mem_v2 \s / % / parameter \SIZE 4 / parameter \RD_PORTS 1 / parameter \WR_CLK_ENABLE 1'1 / end / cell $mem_v2 \t / % / end => refused 13 DuplicateName \m \t
cell $mem_v2 \s / % / parameter \SIZE 4 / parameter \RD_PORTS 1 / parameter \WR_CLK_ENABLE 1'0 / connect \X \a / end => refused 15 BadParameter \m \s
cell $mem_v2 \s / % / parameter \RD_PORTS 1 / parameter \WR_CLK_ENABLE 1'1 / end => refused 15 BadParameter \m \s
cell $mem_v2 \s / % / parameter \SIZE 4 / parameter \RD_PORTS 1 / parameter \WR_CLK_ENABLE 1'1 / connect \RD_ARST \n / end => refused 15 BadParameter \m \s
cell $mem_v2 \s / % / parameter \SIZE 4 / parameter \RD_PORTS 1 / parameter \WR_CLK_ENABLE 1'1 / connect \RD_SRST 1'1 / end => refused 15 BadParameter \m \s
cell $mem_v2 \s / % / parameter \SIZE 4 / parameter \RD_PORTS 1 / parameter \WR_CLK_ENABLE 1'1 / connect \X \a / connect \RD_ADDR \a / end => refused 12 UnknownName \m \s
cell $mem_v2 \s / % / parameter \SIZE 4 / parameter \RD_PORTS 1 / parameter \WR_CLK_ENABLE 1'1 / connect \RD_ADDR \a / end => refused 16 Width \m \s
cell $mem_v2 \s / % / parameter \SIZE 4 / parameter \RD_PORTS 65537 / parameter \WR_CLK_ENABLE 1'1 / connect \WR_CLK \a / end => refused 16 Width \m \s
cell $mem_v2 \s / % / parameter \SIZE 67108865 / parameter \RD_PORTS 65537 / parameter \WR_CLK_ENABLE 1'1 / end => refused 18 TooWide \m \s
cell $mem_v2 \s / % / parameter \SIZE 67108865 / parameter \RD_PORTS 1 / parameter \WR_CLK_ENABLE 1'1 / end => refused 21 TooLarge \m \s
cell $mem_v2 \s / % / parameter \SIZE 8388609 / parameter \RD_PORTS 1 / parameter \WR_CLK_ENABLE 1'1 / end => refused 21 TooLarge \m \s"#;

const INSTANCES: &str =
    r#"cell \plain \u / parameter \A 1 / connect \w \c / end => refused 15 BadParameter \m \u
cell \plain \u / connect \w \c / connect \x \c / end => refused 12 UnknownName \m \u
cell \plain \u / connect \x \n / connect \y \a / end => refused 12 UnknownName \m \u
cell \child \u / connect \z \a / end => refused 12 UnknownName \m \u
cell \plain \u / connect \x \c / end => refused 16 Width \m \u
cell \wide \u / connect \x \c / end => refused 16 Width \m \u
cell \wide \u / end => refused 18 TooWide \m \u
cell \both \u / connect \x \c / end => refused 17 Inout \both \x
cell \child \u / end => refused 17 Inout \child \z"#;

#[test]
fn wires_come_before_statements(rt: HostRuntime) -> Result<(), Fail> {
    check_modules(&rt, rt.alloc(), WIRES)
}

#[test]
fn cells_are_checked_in_order(rt: HostRuntime) -> Result<(), Fail> {
    check_modules(&rt, rt.alloc(), CELLS)?;
    check_modules(&rt, rt.alloc(), MEMORIES)
}

#[test]
fn instances_are_checked_in_order(rt: HostRuntime) -> Result<(), Fail> {
    check_modules(&rt, rt.alloc(), INSTANCES)
}

/// With `a`, `b` and `c` 256 wires of 65,536 bits have 17 bits more than all nets may have.
#[test]
fn the_bits_of_all_nets_are_limited(rt: HostRuntime) -> Result<(), Fail> {
    let mut row = String::new(rt.alloc());
    for number in 0..256u32 {
        write!(row, "wire width 65536 \\w{number} / ")?;
    }
    row.push_str("=> refused 21 TooLarge \\m \\w255")?;
    check_modules(&rt, rt.alloc(), row.as_str())
}

//! Types of each sort, as the Yosys manual has them, and cells with each fault.
use crate::checks::{check_cell, port_width};
use crate::line::{Gives, PortName, Span, Way};
use crate::table::line_of;
use crate::written::{Connection, Setting};
use circuit::{DesignKind, Op, RegKind};
use rtlil_lexer::Spelling;
use std::test::Fail;

/// A type, what it becomes, how many parameters and ports it has, and whether it is arithmetic.
type TypeRow = (&'static [u8], Gives, usize, usize, bool);

#[test]
fn types_are_found_by_their_names(rt: HostRuntime) -> Result<(), Fail> {
    let rows: [TypeRow; 6] = [
        (b"$not", Gives::Cell(Op::Not), 3, 2, false),
        (b"$neg", Gives::Cell(Op::Neg), 3, 2, true),
        (b"$gt", Gives::Cell(Op::Gt), 5, 3, true),
        (b"$pmux", Gives::Cell(Op::Pmux), 2, 4, false),
        (b"$dffsre", Gives::Register(RegKind::Dffsre), 5, 6, false),
        (b"$dlatch", Gives::Register(RegKind::Dlatch), 2, 3, false),
    ];
    for (name, gives, parameters, ports, arithmetic) in &rows {
        let Some(line) = line_of(name) else {
            return Err(Fail::from("a type is not found"));
        };
        assert_eq!(rt; line.gives, *gives);
        assert_eq!(rt; line.parameters.len(), *parameters);
        assert_eq!(rt; line.ports.len(), *ports);
        assert_eq!(rt; line.arithmetic, *arithmetic);
    }
    assert!(rt; line_of(b"$mem_v2").is_none());
    assert!(rt; line_of(b"\\$add").is_none());
    assert!(rt; line_of(b"").is_none());
    Ok(())
}

#[test]
fn ports_have_ways_and_widths(rt: HostRuntime) -> Result<(), Fail> {
    let Some(line) = line_of(b"$mux") else {
        return Err(Fail::from("the type is not found"));
    };
    let Some(port) = line.ports.get(2) else {
        return Err(Fail::from("the port is not there"));
    };
    assert_eq!(rt; port.name, PortName::S);
    assert_eq!(rt; port.way, Way::In);
    assert_eq!(rt; port.span, Span::One);
    Ok(())
}

fn setting(name: &[u8], value: u64) -> Setting {
    Setting {
        name: Spelling::of(name),
        value,
    }
}

fn connection(port: &[u8], width: u64) -> Connection {
    Connection {
        port: Spelling::of(port),
        width,
    }
}

/// What is wrong with a `$pmux` of 8 bits and 3 parts whose `B` and one more port are joined.
fn fault_of_pmux(b_width: u64, other: &[u8], other_width: u64) -> Option<DesignKind> {
    let settings = [setting(b"\\WIDTH", 8), setting(b"\\S_WIDTH", 3)];
    let connections = [connection(b"\\B", b_width), connection(other, other_width)];
    check_cell(b"$pmux", &settings, &connections).err()
}

/// What is wrong with a cell of some type, with its width and its number of select bits.
fn fault_of_width(name: &[u8], width: u64, s_width: u64) -> Option<DesignKind> {
    let settings = [setting(b"\\WIDTH", width), setting(b"\\S_WIDTH", s_width)];
    check_cell(name, &settings, &[]).err()
}

/// What is wrong with a `$slice` of 5 bits out of 8.
fn fault_of_slice(offset: u64) -> Option<DesignKind> {
    let settings = [
        setting(b"\\OFFSET", offset),
        setting(b"\\A_WIDTH", 8),
        setting(b"\\Y_WIDTH", 5),
    ];
    check_cell(b"$slice", &settings, &[]).err()
}

/// What is wrong with a cell of two operands, one of 129 bits.
fn fault_of_129_bits(name: &[u8]) -> Option<DesignKind> {
    let settings = [
        setting(b"\\A_SIGNED", 0),
        setting(b"\\B_SIGNED", 0),
        setting(b"\\A_WIDTH", 129),
        setting(b"\\B_WIDTH", 1),
        setting(b"\\Y_WIDTH", 8),
    ];
    check_cell(name, &settings, &[]).err()
}

/// What is wrong with an `$add` of which no sign is given.
fn fault_without_signs() -> Option<DesignKind> {
    let settings = [
        setting(b"\\A_WIDTH", 8),
        setting(b"\\B_WIDTH", 1),
        setting(b"\\Y_WIDTH", 8),
    ];
    check_cell(b"$add", &settings, &[]).err()
}

#[test]
fn the_first_fault_of_a_cell_is_found(rt: HostRuntime) {
    assert_eq!(rt; fault_of_pmux(24, b"\\Y", 8), None);
    assert_eq!(rt; fault_of_pmux(23, b"\\C", 8), Some(DesignKind::UnknownName));
    assert_eq!(rt; fault_of_pmux(24, b"\\Y", 7), Some(DesignKind::Width));
    assert_eq!(rt; fault_of_width(b"$bmux", 8, 13), None);
    assert_eq!(rt; fault_of_width(b"$bmux", 8, 14), Some(DesignKind::TooWide));
    assert_eq!(rt;
        fault_of_width(b"$dff", 8, 0),
        Some(DesignKind::BadParameter)
    );
    assert_eq!(rt; fault_of_width(b"$ad", 8, 0), Some(DesignKind::UnknownCell));
    assert_eq!(rt; fault_of_slice(3), None);
    assert_eq!(rt; fault_of_slice(4), Some(DesignKind::BadParameter));
    assert_eq!(rt; fault_of_129_bits(b"$and"), None);
    assert_eq!(rt; fault_without_signs(), None);
    assert_eq!(rt; fault_of_129_bits(b"$add"), Some(DesignKind::ArithTooWide));
}

#[test]
fn a_port_is_as_wide_as_the_settings_say(rt: HostRuntime) -> Result<(), Fail> {
    let settings = [setting(b"\\WIDTH", 8), setting(b"\\S_WIDTH", 3)];
    let Ok(line) = check_cell(b"$pmux", &settings, &[]) else {
        return Err(Fail::from("the cell is refused"));
    };
    assert_eq!(rt; port_width(&settings, line.ports, PortName::B), 24);
    assert_eq!(rt; port_width(&settings, line.ports, PortName::Clk), 0);
    Ok(())
}

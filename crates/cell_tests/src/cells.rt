//! Circuits of one cell, whose ports are written in each way that a circuit may write them. A test ends where there is
//! no memory.
ghost use Rattle.std.specs.Prelude.{◌≡◌, ◌<◌, ℕ, length, map, true, false};
ghost use Rattle.circuit.specs.Valid.{is_valid};
ghost use Rattle.signal_words.specs.Stores.{IsStoreOf};
ghost use Rattle.circuit.specs.declared.netlist.Circuit.{Circuit};
ghost use Rattle.cell_wide.specs.Kinds.{is_wide};
ghost use Rattle.cell_words.specs.Kinds.{is_arithmetic_or_shift};
ghost use Rattle.sim_base.specs.Values.{width_at};

use cell_wide::eval_wide;
use cell_words::eval;
use circuit::{Cell, Circuit, Net, Op, Piece, Sig, Store};
use signal_words::{law_of_start, law_of_stores};
use sim_base::{Bits, Name, Steps};
use sqlite_items::Items;
use std::alloc::AllocGlobal;
use std::marker::Brand;
use std::process::Abort;
use std::sync::ledger::{Blank, Ledger};
use test_circuits::{Line, circuit_of, op_of};

/// How a signal is written.
#[derive(Clone, Copy)]
enum Form {
    Constant,
    Net,
    /// Three parts of a net.
    Parts,
}

fn put_part(rt: &impl Abort, sig: &mut Sig, net: u32, at: u32, width: u32) {
    sig.push(Piece::Part { net, at, width })
        .expect(rt, "memory");
}

/// A signal that holds a value, which a net has, too.
fn signal<R: AllocGlobal + Abort>(rt: &R, form: Form, value: &Bits, net: u32) -> Sig {
    let width = value.width();
    let mut sig = Items::new(rt.alloc());
    match form {
        Form::Constant => {
            let copy = value.try_clone(rt.alloc()).expect(rt, "memory");
            sig.push(Piece::Const(copy)).expect(rt, "memory");
        }
        Form::Net => put_part(rt, &mut sig, net, 0, width),
        Form::Parts => {
            let third = width / 3;
            put_part(rt, &mut sig, net, 0, third);
            put_part(rt, &mut sig, net, third, third);
            put_part(rt, &mut sig, net, third + third, width - third - third);
        }
    }
    sig
}

fn put_net<R: AllocGlobal + Abort>(rt: &R, circuit: &mut Circuit, width: u32) {
    let path = Name::new(Vec::new(rt.alloc()));
    circuit.nets.push(Net { path, width }).expect(rt, "memory");
}

/// Gives a net a value of its width.
fn set_net(rt: &impl Abort, store: &mut Store, net: u32, value: &Bits)
    ensures { (c : Circuit) → IsStoreOf c store.old → IsStoreOf c store.new }
{
    assert!(rt; (net as usize) < store.nets.len());
    assert!(rt; store.nets.width(net) == value.width());
    store.nets.put(net, &value.view());
}

/// Gives the output of a cell a value of its width.
fn set_output(rt: &impl Abort, store: &mut Store, cell: u32, value: &Bits)
    ensures { (c : Circuit) → IsStoreOf c store.old → IsStoreOf c store.new }
{
    assert!(rt; (cell as usize) < store.cells.len());
    assert!(rt; store.cells.width(cell) == value.width());
    store.cells.put(cell, &value.view());
}

/// The store of a circuit before the first sample.
fn start<R: AllocGlobal + Abort>(rt: &R, circuit: &Circuit) -> Store
    requires { is_valid circuit.now ≡ true }
    ensures { IsStoreOf circuit.now result }
{
    law_of_start();
    Store::new(rt.alloc(), circuit).expect(rt, "memory")
}

/// Whether a type of cell computes with whole numbers or shifts; each other type works at any width.
fn is_word_cell(op: Op) -> bool
    ensures word { result ≡ true → is_arithmetic_or_shift op ≡ true }
    ensures wide { result ≡ false → is_wide op ≡ true }
{
    match op {
        Op::Neg | Op::Add | Op::Sub | Op::Mul => true,
        Op::Div | Op::Mod | Op::DivFloor | Op::ModFloor => true,
        Op::Lt | Op::Le | Op::Ge | Op::Gt => true,
        Op::Shl | Op::Sshl | Op::Shr | Op::Sshr | Op::Shift | Op::Shiftx => true,
        _ => false,
    }
}

/// Evaluates a cell, and tells whether its output changed; none where there is no such cell.
fn evaluate<L: Ledger>(
    circuit: &Circuit,
    n: u32,
    store: &mut Store,
    steps: &mut Steps<L>,
) -> Option<bool>
    requires valid { is_valid circuit.now ≡ true }
    requires store { IsStoreOf circuit.now store.old }
{
    law_of_stores();
    let cell = circuit.cells.get(n as usize)?;
    if is_word_cell(cell.op) {
        Some(eval(cell, store, n, steps))
    } else {
        Some(eval_wide(cell, store, n, steps))
    }
}

/// A type, which of A and B are signed, and the values of A, B, S and Y.
#[derive(Drop)]
struct Row {
    op: Op,
    a_signed: bool,
    b_signed: bool,
    a: Bits,
    b: Bits,
    s: Bits,
    y: Bits,
}

/// A row of a text: the name of the type, the letters of the ports that are signed, or `-`, and the values.
fn row_of(line: &mut Line) -> Option<Row> {
    let op = op_of(line.word()?)?;
    let signs = line.word()?;
    Some(Row {
        op,
        a_signed: signs.contains('a'),
        b_signed: signs.contains('b'),
        a: line.bits()?,
        b: line.bits()?,
        s: line.bits()?,
        y: line.bits()?,
    })
}

/// A circuit of three nets and a cell whose ports hold the values of a row in a form.
fn one_cell<R: AllocGlobal + Abort>(rt: &R, form: Form, row: &Row) -> Circuit {
    let mut circuit = circuit_of(rt.alloc(), "scope - -").expect(rt, "a circuit");
    put_net(rt, &mut circuit, row.a.width());
    put_net(rt, &mut circuit, row.b.width());
    put_net(rt, &mut circuit, row.s.width());
    let cell = Cell {
        op: row.op,
        a: signal(rt, form, &row.a, 0),
        b: signal(rt, form, &row.b, 1),
        s: signal(rt, form, &row.s, 2),
        a_signed: row.a_signed,
        b_signed: row.b_signed,
        width: row.y.width(),
        offset: 3,
    };
    circuit.cells.push(cell).expect(rt, "memory");
    circuit
}

/// Whether a cell writes its output over an older one, and says whether that is a change.
fn writes<L: Ledger, R: AllocGlobal + Abort>(
    rt: &R,
    row: &Row,
    form: Form,
    old: &Bits,
    steps: &mut Steps<L>,
) -> bool {
    let circuit = one_cell(rt, form, row);
    assert!(rt; circuit.validate());
    let mut store = start(rt, &circuit);
    set_net(rt, &mut store, 0, &row.a);
    set_net(rt, &mut store, 1, &row.b);
    set_net(rt, &mut store, 2, &row.s);
    set_output(rt, &mut store, 0, old);
    let changed = evaluate(&circuit, 0, &mut store, steps);
    assert!(rt; store.cells.len() == 1);
    store.cells.view(0).words() == row.y.words() && changed == Some(!old.same(&row.y))
}

/// Whether it does so however its ports are written, over 0 and over an output that is right already.
fn writes_in_each_form<L: Ledger, R: AllocGlobal + Abort>(
    rt: &R,
    row: &Row,
    steps: &mut Steps<L>,
) -> bool {
    let zero = Bits::zero(rt.alloc(), row.y.width()).expect(rt, "memory");
    let mut same = true;
    for form in [Form::Constant, Form::Net, Form::Parts] {
        same &= writes(rt, row, form, &zero, steps);
        same &= writes(rt, row, form, &row.y, steps);
    }
    same
}

/// Checks that each row of a text is what a cell writes.
pub fn check_rows<L: Ledger, R: AllocGlobal + Abort>(rt: &R, rows: &[&str], blank: Blank)
    requires name { blank.name ≡ L.name }
    requires parts { blank.parts ≡ L.parts }
    requires some { 0 < blank.parts }
{
    let mut steps = Steps::<L>::new(blank);
    for rows in rows {
        for text in rows.lines() {
            let row = row_of(&mut Line::new(rt.alloc(), text)).expect(rt, "a row");
            let same = writes_in_each_form(rt, &row, &mut steps);
            assert!(rt; same, "{text}");
        }
    }
}

/// Two nets and two cells, of which the second is a `$sub` of parts of the nets.
const TWO_CELLS: &str = "scope - -
net - 16
net - 8
cell add - 3 0
cell sub - 12 0 0[4+:8],0[0+:4] 1[0+:8]";

fn check_second<L: Ledger, R: AllocGlobal + Abort>(rt: &R, values: &mut Line, blank: Blank)
    requires name { blank.name ≡ L.name }
    requires parts { blank.parts ≡ L.parts }
    requires some { 0 < blank.parts }
{
    let mut steps = Steps::<L>::new(blank);
    let circuit = circuit_of(rt.alloc(), TWO_CELLS).expect(rt, "a circuit");
    assert!(rt; circuit.validate());
    let mut store = start(rt, &circuit);
    set_net(rt, &mut store, 0, &values.bits().expect(rt, "a value"));
    set_net(rt, &mut store, 1, &values.bits().expect(rt, "a value"));
    set_output(rt, &mut store, 0, &values.bits().expect(rt, "a value"));
    set_output(rt, &mut store, 1, &values.bits().expect(rt, "a value"));
    let changed = evaluate(&circuit, 1, &mut store, &mut steps);
    assert!(rt; changed == Some(true));
    assert!(rt; store.cells.len() == 2);
    assert!(rt; store.cells.view(0).words() == [5].as_slice());
    assert!(rt; store.cells.view(1).words() == [0x355].as_slice());
}

#[test]
fn a_cell_reads_parts_of_nets(rt: HostRuntime) {
    let mut values = Line::new(rt.alloc(), "16'a5c3 8'7 3'5 12'35c");
    check_second::<Brand, _>(&rt, &mut values, Blank::new(1));
}

//! Circuits from sample to sample.
ghost use Rattle.std.specs.Prelude.{◌≡◌, ◌<◌};
ghost use Rattle.std.specs.Arc.{arc_value};
ghost use Rattle.sim_base.specs.Values.{widths};
ghost use Rattle.eval_commit.specs.Evaluation.{AreInputsOf};
ghost use Rattle.eval_plan.specs.Plans.{IsPlanOf};

use circuit::{Circuit, Listing};
use eval_commit::{Machine, Settled, zero_inputs};
use eval_plan::{Plan, order};
use sim_base::{Bits, Steps};
use sqlite_items::Items;
use std::alloc::AllocGlobal;
use std::marker::Brand;
use std::process::Abort;
use std::sync::Arc;
use std::sync::ledger::{Blank, Ledger};
use test_circuits::{Line, circuit_of, put_parts};

/// The numbers of the inputs at a sample, how many rounds it takes, or none where it does not settle, and what is seen
/// where it ends: the numbers of all nets, if any, that of row 2 of the memory, and which diagnostics fired, if any.
#[derive(Drop)]
struct Sample {
    inputs: Vec<u64>,
    rounds: Option<u32>,
    nets: Vec<u64>,
    row: Option<u64>,
    fired: Items<bool>,
}

/// The sample of a line: the inputs, the rounds, the nets, the row and the flags, in each of which `-` is none.
fn sample_of<R: AllocGlobal + Abort>(rt: &R, text: &str) -> Sample {
    let mut line = Line::new(rt.alloc(), text);
    Sample {
        inputs: line.hexadecimals().expect(rt, "inputs"),
        rounds: line.number(),
        nets: line.hexadecimals().expect(rt, "nets"),
        row: line.hexadecimal(),
        fired: line.flags().expect(rt, "flags"),
    }
}

fn check_nets(rt: &impl Abort, circuit: &Circuit, machine: &Machine, wanted: &[u64])
    requires { machine.now.circuit ≡ circuit.now }
{
    assert!(rt; wanted.is_empty() || circuit.nets.len() == wanted.len());
    let mut n = 0u32;
    for number in wanted {
        assert!(rt; (n as usize) < circuit.nets.len());
        let bits = machine.net(n);
        assert!(rt; bits.field(0, bits.width().min(64)) == *number, "net {n}");
        n = n.saturating_add(1);
    }
}

fn check_fired(rt: &impl Abort, circuit: &Circuit, machine: &Machine, wanted: &[bool])
    requires { machine.now.circuit ≡ circuit.now }
{
    assert!(rt; wanted.is_empty() || circuit.diags.len() == wanted.len());
    let mut d = 0u32;
    for fired in wanted {
        assert!(rt; (d as usize) < circuit.diags.len());
        assert!(rt; machine.fired(d) == *fired, "diagnostic {d}");
        d = d.saturating_add(1);
    }
}

fn check_row<R: AllocGlobal + Abort>(rt: &R, circuit: &Circuit, machine: &Machine, wanted: u64)
    requires { machine.now.circuit ≡ circuit.now }
{
    let mem = circuit.mems.get(0).expect(rt, "a memory");
    assert!(rt; 2 < mem.size);
    let mut row = Bits::zero(rt.alloc(), mem.width).expect(rt, "memory");
    machine.row(0, 2, &mut row);
    let width = row.width();
    assert!(rt; row.field(0, width.min(64)) == wanted);
}

fn check_seen<R: AllocGlobal + Abort>(rt: &R, circuit: &Circuit, machine: &Machine, seen: &Sample)
    requires { machine.now.circuit ≡ circuit.now }
{
    check_nets(rt, circuit, machine, seen.nets.as_slice());
    check_fired(rt, circuit, machine, seen.fired.as_slice());
    if let Some(wanted) = seen.row {
        check_row(rt, circuit, machine, wanted);
    }
}

fn put_number(bits: &mut Bits, number: u64)
    ensures { bits.new.width ≡ bits.old.width }
{
    let width = bits.width();
    bits.put_field(0, width.min(64), number);
}

fn set_input(inputs: &mut Listing<Bits>, n: usize, number: u64)
    ensures { widths inputs.new ≡ widths inputs.old }
{
    if n < inputs.len() {
        put_number(inputs.at(n), number);
    }
}

/// Inputs with these numbers.
fn inputs_of<R: AllocGlobal + Abort>(rt: &R, circuit: &Circuit, numbers: &[u64]) -> Listing<Bits>
    ensures { AreInputsOf circuit.now result }
{
    let mut inputs = zero_inputs(rt.alloc(), circuit).expect(rt, "memory");
    for (n, number) in numbers.iter().enumerate() {
        set_input(&mut inputs, n, *number);
    }
    inputs
}

/// How many rounds a sample took, if it settled.
fn rounds_of(settled: Settled) -> Option<u32> {
    match settled {
        Settled::Yes(rounds) => Some(rounds),
        Settled::No => None,
    }
}

/// Checks what is seen at a new machine, of the first of these samples, and then settles under the inputs of each
/// further one, and checks what is seen there.
fn goes_through<L: Ledger, R: AllocGlobal + Abort>(
    rt: &R,
    circuit: &Circuit,
    machine: &mut Machine,
    samples: &[Sample],
    steps: &mut Steps<L>,
)
    requires { machine.old.circuit ≡ circuit.now }
    ensures { machine.new.circuit ≡ circuit.now }
{
    let (first, samples) = samples.split_first().expect(rt, "a sample");
    check_seen(rt, circuit, machine, first);
    for sample in samples {
        let inputs = inputs_of(rt, circuit, sample.inputs.as_slice());
        let settled = machine.settle(inputs.as_slice(), steps);
        assert!(rt; rounds_of(settled) == sample.rounds);
        check_seen(rt, circuit, machine, sample);
    }
}

/// The same with a new machine.
fn runs<L: Ledger, R: AllocGlobal + Abort>(
    rt: &R,
    circuit: Arc<Circuit>,
    plan: Plan,
    samples: &[Sample],
    blank: Blank,
)
    requires plan { IsPlanOf (arc_value circuit) plan }
    requires name { blank.name ≡ L.name }
    requires parts { blank.parts ≡ L.parts }
    requires some { 0 < blank.parts }
{
    let own = circuit.clone().expect(rt, "memory");
    let mut machine = Machine::new(rt.alloc(), own, plan).expect(rt, "memory");
    let mut steps = Steps::<L>::new(blank);
    goes_through(rt, &circuit, &mut machine, samples, &mut steps);
}

/// The circuit of these texts.
fn circuit_of_all<R: AllocGlobal + Abort>(rt: &R, texts: &[&str]) -> Circuit {
    let mut circuit = circuit_of(rt.alloc(), "").expect(rt, "memory");
    for text in texts {
        put_parts(rt.alloc(), &mut circuit, text).expect(rt, "parts");
    }
    circuit
}

/// The samples of a text, a line each.
fn samples_of<R: AllocGlobal + Abort>(rt: &R, text: &str) -> Vec<Sample> {
    let mut samples = Vec::new(rt.alloc());
    for line in text.lines() {
        samples.push(sample_of(rt, line)).expect(rt, "memory");
    }
    samples
}

/// Checks that the circuit of these texts goes through these samples, the first of which is before any.
pub fn check<R: AllocGlobal + Abort>(rt: &R, texts: &[&str], samples: &str) {
    let samples = samples_of(rt, samples);
    let circuit = Arc::new(rt.alloc(), circuit_of_all(rt, texts)).expect(rt, "memory");
    assert!(rt; circuit.validate());
    let plan = order(rt.alloc(), &circuit).expect(rt, "an order");
    runs::<Brand, R>(rt, circuit, plan, samples.as_slice(), Blank::new(1));
}

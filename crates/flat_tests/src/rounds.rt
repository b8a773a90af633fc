//! Small circuits, from sample to sample.
ghost use Rattle.std.specs.Prelude.{◌≡◌, true, IfOk};
ghost use Rattle.flat_design.specs.Flat.{IsFlat};
ghost use Rattle.flat_rounds.specs.Fits.{AreInputs};

use circuit::Circuit;
use flat_design::elaborate;
use flat_rounds::Rounds;
use flat_text::{FlatFault, read_module};
use sim_base::NoMemory;
use std::alloc::Global;
use std::process::Abort;
use std::test::Fail;

/// `x` takes `d` at `clk`, `y` takes `x` at `clk`, and `z` takes `d` at `x`.
const CHAIN: &[u8] = br"module \chain
wire input 1 \clk
wire input 2 \d
wire \x
wire \y
wire \z
cell $dff $x
parameter \CLK_POLARITY 1'1
parameter \WIDTH 1
connect \CLK \clk
connect \D \d
connect \Q \x
end
cell $dff $y
parameter \CLK_POLARITY 1'1
parameter \WIDTH 1
connect \CLK \clk
connect \D \x
connect \Q \y
end
cell $dff $z
parameter \CLK_POLARITY 1'1
parameter \WIDTH 1
connect \CLK \x
connect \D \d
connect \Q \z
end
end
";

fn circuit(alloc: Global) -> Result<Circuit, FlatFault>
    ensures { IfOk result IsFlat }
{
    let module = read_module(alloc, CHAIN)?;
    elaborate(alloc, &module)
}

/// Whether two bits are inputs of the circuit.
fn are_inputs(circuit: &Circuit, row: &[u64; 2]) -> bool
    requires { IsFlat circuit.now }
    ensures { result ≡ true → AreInputs circuit.now row.now }
{
    if circuit.inputs.len() != 2 {
        return false;
    }
    if row[0] > 1 {
        return false;
    }
    row[1] < 2
}

/// The number of a net after each sample, as far as the samples settle.
fn shown(
    rt: &impl Abort,
    alloc: Global,
    circuit: &Circuit,
    rows: &[[u64; 2]],
    net: u32,
) -> Result<Vec<u64>, NoMemory>
    requires { IsFlat circuit.now }
{
    assert!(rt; (net as usize) < circuit.nets.len());
    let mut rounds = Rounds::new(alloc, circuit)?;
    let mut numbers = Vec::new(alloc);
    for row in rows {
        assert!(rt; are_inputs(circuit, row));
        if !rounds.sample(circuit, row) {
            return Ok(numbers);
        }
        numbers.push(rounds.net(net))?;
    }
    Ok(numbers)
}

#[test]
fn registers_take_what_others_had_and_clock_others_in_a_later_round(
    rt: HostRuntime,
) -> Result<(), Fail> {
    let circuit = circuit(rt.alloc())?;
    let rows = [[0, 1], [1, 1], [0, 1], [1, 1]];
    for (net, want) in [(2, [0, 1, 1, 1]), (3, [0, 0, 0, 1]), (4, [0, 1, 1, 1])] {
        let found = shown(&rt, rt.alloc(), &circuit, &rows, net)?;
        assert_eq!(rt; found.as_slice(), want.as_slice(), "net {net}");
    }
    Ok(())
}

#[test]
fn before_the_first_sample_all_inputs_are_0(rt: HostRuntime) -> Result<(), Fail> {
    let circuit = circuit(rt.alloc())?;
    let first = shown(&rt, rt.alloc(), &circuit, &[[1, 1]], 2)?;
    assert_eq!(rt; first.as_slice(), [1].as_slice());
    Ok(())
}

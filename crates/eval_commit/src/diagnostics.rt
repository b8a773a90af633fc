//! The diagnostics in a round.
ghost use Rattle.std.specs.Prelude.{◌≡◌, IfOk, false, length, map, true};
ghost use Rattle.circuit.specs.Valid.{is_valid};
ghost use Rattle.signal_words.specs.Stores.{IsStoreOf};
ghost use Rattle.state_cells.specs.Diagnostics.{round_of};
ghost use Rattle.eval_commit.specs.Fired.{all_fired_after, fired_after, none_fired};

use circuit::{Circuit, Diag, Listing, Store};
use sim_base::NoMemory;
use state_cells::{fires, law_of_rounds};
use std::alloc::Global;

/// A flag for each diagnostic. None has fired before the first sample.
pub(crate) fn start_fired(alloc: Global, circuit: &Circuit) -> Result<Listing<bool>, NoMemory>
    ensures { IfOk result (λ fired. fired ≡ none_fired circuit.now.diags) }
{
    let mut fired = Listing::new(alloc);
    for _diag in circuit.diags.as_slice() {
        fired.push(false)?;
    }
    Ok(fired)
}

/// Takes each flag back, at the start of a sample. It takes no memory.
pub(crate) fn clear_fired(fired: &mut Listing<bool>)
    ensures { fired.new ≡ map (λ _. false) fired.old }
{
    for n in 0..fired.len() {
        *fired.at(n) = false;
    }
}

/// The flag of a diagnostic after a round in which it fires or does not.
fn flag_after(diag: &Diag, fired: bool, fires: bool) -> bool
    ensures { result ≡ fired_after diag.now.trigger fired fires }
{
    match &diag.trigger {
        None => fires,
        Some(_trigger) => fired || fires,
    }
}

/// Brings each flag up to a round, from the values of the nets in the round before and in this one. It takes
/// no memory.
pub(crate) fn next_fired(circuit: &Circuit, before: &Store, now: &Store, fired: &mut Listing<bool>)
    requires valid { is_valid circuit.now ≡ true }
    requires before { IsStoreOf circuit.now before.now }
    requires now { IsStoreOf circuit.now now.now }
    requires fired { length fired.old ≡ length circuit.now.diags }
    ensures { fired.new ≡ all_fired_after circuit.now.diags fired.old (round_of before.now now.now) }
{
    law_of_rounds();
    for (n, diag) in circuit.diags.as_slice().iter().enumerate() {
        let fires = fires(diag, before, now);
        let flag = fired.at(n);
        *flag = flag_after(diag, *flag, fires);
    }
}

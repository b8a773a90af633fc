//! Stores of circuits, of texts. A test ends where there is no memory.
ghost use Rattle.std.specs.Prelude.{◌≡◌, ◌<◌, length, true};
ghost use Rattle.sim_base.specs.Values.{width_at};
ghost use Rattle.circuit.specs.Valid.{is_valid};
ghost use Rattle.circuit.specs.declared.netlist.Circuit.{Circuit};
ghost use Rattle.signal_words.specs.Stores.{IsStoreOf};

use circuit::{Circuit, Store};
use signal_words::law_of_start;
use sim_base::Bits;
use std::alloc::AllocGlobal;
use std::process::Abort;
use test_circuits::Line;

/// The value of a text.
pub fn bits_of<R: AllocGlobal + Abort>(rt: &R, text: &str) -> Bits {
    Line::new(rt.alloc(), text).bits().expect(rt, "a value")
}

/// Gives a net a value of its width.
fn set_net(rt: &impl Abort, store: &mut Store, net: u32, value: &Bits)
    ensures { (c : Circuit) → IsStoreOf c store.old → IsStoreOf c store.new }
{
    assert!(rt; (net as usize) < store.nets.len());
    assert!(rt; store.nets.width(net) == value.width());
    store.nets.put(net, &value.view());
}

/// A store in which the first nets have the values of a text.
pub fn store_of<R: AllocGlobal + Abort>(rt: &R, circuit: &Circuit, values: &str) -> Store
    requires { is_valid circuit.now ≡ true }
    ensures { IsStoreOf circuit.now result }
{
    law_of_start();
    let mut store = Store::new(rt.alloc(), circuit).expect(rt, "memory");
    let mut net = 0u32;
    for text in values.split(' ') {
        set_net(rt, &mut store, net, &bits_of(rt, text));
        net = net.saturating_add(1);
    }
    store
}

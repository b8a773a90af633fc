//! Circuits with inputs and nothing else.
use circuit::{Circuit, Item, ItemKind, Net};
use sim_base::Name;
use sqlite_items::Items;
use std::alloc::AllocGlobal;
use std::process::Abort;

fn put<T: Drop>(rt: &impl Abort, list: &mut Items<T>, item: T) {
    list.push(item).expect(rt, "memory");
}

/// A circuit of these inputs, by their names and widths in bits. The names are in their order.
pub fn inputs<R: AllocGlobal + Abort>(rt: &R, rows: &[(&[u8], u32)]) -> Circuit {
    let alloc = rt.alloc();
    let mut circuit = Circuit {
        nets: Items::new(alloc),
        drives: Items::new(alloc),
        cells: Items::new(alloc),
        regs: Items::new(alloc),
        mems: Items::new(alloc),
        inputs: Items::new(alloc),
        items: Items::new(alloc),
        scopes: Items::new(alloc),
        diags: Items::new(alloc),
    };
    let mut net = 0u32;
    for (name, width) in rows {
        let path = Name::copy_of(alloc, name).expect(rt, "memory");
        let name = Name::copy_of(alloc, name).expect(rt, "memory");
        put(
            rt,
            &mut circuit.nets,
            Net {
                path,
                width: *width,
            },
        );
        put(rt, &mut circuit.inputs, net);
        let item = Item {
            name,
            scope: 0,
            kind: ItemKind::Node {
                net,
                lsb_at: 0,
                input: true,
                output: false,
            },
            src: None,
            first_slot: net,
        };
        put(rt, &mut circuit.items, item);
        net = net.saturating_add(1);
    }
    circuit
}

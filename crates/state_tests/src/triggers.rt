//! That the rule of diagnostics says what was meant, and that circuits meet what is asked.
ghost use Rattle.std.specs.Prelude.{◌≡◌, true};
ghost use Rattle.circuit.specs.Valid.{is_valid};
ghost use Rattle.signal_words.specs.Stores.{IsStoreOf};

use crate::parts::store_of;
use circuit::{Circuit, Store};
use state_cells::{fires, law_of_rounds};
use std::alloc::AllocGlobal;
use std::process::Abort;
use test_circuits::circuit_of;

/// Whether the circuit's diagnostic fires; none where there is none.
fn fires_of(circuit: &Circuit, before: &Store, now: &Store) -> Option<bool>
    requires valid { is_valid circuit.now ≡ true }
    requires before { IsStoreOf circuit.now before.now }
    requires now { IsStoreOf circuit.now now.now }
{
    law_of_rounds();
    let diag = circuit.diags.get(0)?;
    Some(fires(diag, before, now))
}

/// Checks rows of what the nets have in the round before and in this one, and whether the diagnostic of a circuit
/// fires, whose nets are what holds, the enable, and the bits of its trigger.
fn check_rows<R: AllocGlobal + Abort>(rt: &R, trigger: &str, rows: &str) {
    let parts = "scope - -;net - 1;net - 1;net - 128;assert - - 0[0+:1] 1[0+:1]";
    let text = format!(in rt.alloc(); "{parts} {trigger}").expect(rt, "memory");
    let circuit = circuit_of(rt.alloc(), text.as_str()).expect(rt, "a circuit");
    assert!(rt; circuit.validate());
    for row in rows.lines() {
        let (was, rest) = row.split_once('|').expect(rt, "a row");
        let (is, wanted) = rest.split_once('|').expect(rt, "a row");
        let before = store_of(rt, &circuit, was);
        let now = store_of(rt, &circuit, is);
        let fired = fires_of(&circuit, &before, &now);
        assert!(rt; fired == Some(wanted == "1"), "{row}");
    }
}

const UNTRIGGERED: &str = "1'1 1'1 128'0|1'0 1'1 128'0|1
1'0 1'1 128'0|1'1 1'1 128'0|0
1'1 1'1 128'0|1'0 1'0 128'0|0
1'0 1'1 128'0|1'1 1'0 128'3|0";

const UP_OR_DOWN: &str = "1'1 1'1 128'0|1'0 1'1 128'1|1
1'1 1'1 128'2|1'0 1'1 128'3|1
1'1 1'1 128'1|1'0 1'1 128'1|0
1'1 1'1 128'3|1'0 1'1 128'2|0
1'1 1'1 128'2|1'0 1'1 128'0|1
1'1 1'1 128'3|1'0 1'1 128'1|1
1'1 1'1 128'0|1'0 1'1 128'2|0
1'1 1'1 128'3|1'0 1'1 128'3|0
1'1 1'1 128'0|1'0 1'1 128'0|0
1'1 1'1 128'2|1'0 1'1 128'1|1
1'1 1'1 128'0|1'0 1'0 128'1|0
1'0 1'1 128'0|1'1 1'1 128'1|0";

/// A trigger of no bits.
const EMPTY: &str = "1'1 1'1 128'0|1'0 1'1 128'3|0";

const LAST_OF_64: &str = "1'1 1'1 128'0|1'0 1'1 128'8.0*15|1
1'1 1'1 128'8.0*15|1'0 1'1 128'8.0*15|0
1'1 1'1 128'0|1'0 1'1 128'4.0*15|1";

#[test]
fn diagnostics_fire_at_their_triggers(rt: HostRuntime) {
    check_rows(&rt, "-", UNTRIGGERED);
    check_rows(&rt, "2[0+:2] 10", UP_OR_DOWN);
    check_rows(&rt, "2[0+:0] -", EMPTY);
    let rising = "2[0+:64] 1111111111111111111111111111111111111111111111111111111111111111";
    check_rows(&rt, rising, LAST_OF_64);
}

//! Diagnostics.
ghost use Rattle.std.specs.Prelude.{◌≡◌, Some};
ghost use Rattle.circuit.specs.Valid.{trigger_fits, diag_fits};

use crate::diagnostic::{Diag, Trigger};
use crate::netlist::Net;
use crate::validity::counts::is_countable;
use crate::validity::items::{is_utf8, text_fits};
use crate::validity::signals::{capped_width, sig_fits, sig_of};

fn is_trigger(nets: &[Net], trigger: &Trigger) -> bool
    ensures { result ≡ trigger_fits nets.now (Some trigger.now) }
{
    let on = trigger.on.as_slice();
    sig_fits(nets, on) && trigger.rising.len() == capped_width(on) as usize
}

fn trigger_fits(nets: &[Net], trigger: &Option<Trigger>) -> bool
    ensures { result ≡ trigger_fits nets.now trigger.now }
{
    match trigger {
        Some(trigger) => is_trigger(nets, trigger),
        None => true,
    }
}

/// Whether the signals of a diagnostic have their widths, and its texts are UTF-8.
pub fn diag_fits(nets: &[Net], diag: &Diag) -> bool
    ensures { result ≡ diag_fits nets.now diag.now }
{
    sig_of(nets, 1, diag.a.as_slice())
        && (sig_of(nets, 1, diag.en.as_slice())
            && (trigger_fits(nets, &diag.trigger)
                && (is_countable(diag.text.len())
                    && (is_utf8(&diag.text) && text_fits(&diag.src)))))
}

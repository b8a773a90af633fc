//! A text that becomes a circuit and the order in which it is evaluated.
ghost use Rattle.std.specs.Prelude.{◌≡◌, ◌<◌, IfErr, IfOk, Ok, length, true};
ghost use Rattle.std.specs.Option.{option_copied};
ghost use Rattle.circuit.specs.Fault.{fault_number};
ghost use Rattle.circuit.specs.Valid.{is_valid};
ghost use Rattle.rtlil_lexer.specs.Tokens.{Fails};
ghost use Rattle.rtlil_tree.specs.Modules.{parsed};
ghost use Rattle.design_load.specs.Loaded.{IsBuilt, IsLoaded, IsOrdered, made_in, numbered_refused, without_processes};

use crate::fault::LoadFault;
use circuit::{Circuit, DesignFault};
use elaborate::elaborate;
use elaborate_valid::law_of_elaboration;
use eval_plan::{Plan, order};
use process_check::check_processes;
use rtlil_lexer::{TextFault, Token, lex};
use rtlil_names::law_of_names_read;
use rtlil_tree::{File, parse};
use std::alloc::Global;

/// A circuit, and the order in which it is evaluated.
#[derive(Debug, Drop)]
pub struct Loaded {
    pub circuit: Circuit,
    pub plan: Plan,
}

/// The file of some tokens, which has no process.
fn file_of<'t>(alloc: Global, tokens: &[Token<'t>]) -> Result<File<'t>, TextFault>
    ensures file { IfOk result (λ file. without_processes (parsed tokens.now) ≡ Ok file) }
    ensures tree { IfOk result (λ file. parsed tokens.now ≡ Ok file) }
    ensures fault { IfErr result (λ fault. Fails fault (without_processes (parsed tokens.now))) }
{
    let file = parse(alloc, tokens)?;
    check_processes(&file)?;
    Ok(file)
}

/// The circuit of a text, which is valid.
fn circuit_of(alloc: Global, text: &[u8], top: Option<&[u8]>) -> Result<Circuit, LoadFault>
    requires { length text.now < 4294967295 }
    ensures built { IsBuilt (made_in text.now (option_copied top.entry)) result }
    ensures valid { IfOk result (λ circuit. is_valid circuit ≡ true) }
{
    let tokens = lex(alloc, text)?;
    let file = file_of(alloc, tokens.as_slice())?;
    law_of_names_read();
    law_of_elaboration();
    Ok(elaborate(alloc, &file, top)?)
}

/// A fault of a circuit's drives, of which want of memory is none.
fn refused(fault: DesignFault) -> LoadFault
    ensures { result ≡ numbered_refused (fault_number fault.kind) fault }
{
    match fault.kind.number() {
        Some(_) => LoadFault::Design(fault),
        None => LoadFault::NoMemory,
    }
}

/// The circuit with its order.
fn ordered(alloc: Global, circuit: Circuit) -> Result<Loaded, LoadFault>
    requires { is_valid circuit ≡ true }
    ensures { IsOrdered circuit result }
{
    match order(alloc, &circuit) {
        Ok(plan) => Ok(Loaded { circuit, plan }),
        Err(fault) => Err(refused(fault)),
    }
}

/// Reads a design from its text: its tokens, their tree, the circuit from the top on, which is the module of the identifier that
/// is given or else the one that says so, and the order of what is evaluated. The first fault is answered: of the text, of
/// its processes, which are none of a circuit, of the design, and of the drives of its circuit. The circuit that
/// is given is valid: its plan says so.
pub fn load_design(alloc: Global, text: &[u8], top: Option<&[u8]>) -> Result<Loaded, LoadFault>
    requires { length text.now < 4294967295 }
    ensures { IsLoaded text.now (option_copied top.entry) result }
{
    let circuit = circuit_of(alloc, text, top)?;
    ordered(alloc, circuit)
}

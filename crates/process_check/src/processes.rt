//! The first process of a file.
ghost use Rattle.std.specs.Prelude.{◌≡◌, slice_get};
ghost use Rattle.process_check.specs.Processes.{places_in, process_place, process_places, processes_refused};

use rtlil_lexer::{TextFault, TextFaultKind};
use rtlil_tree::{File, Module, Place, Statement};

/// Where a statement begins that is a process.
fn place_of(statement: &Statement<'_>) -> Option<Place>
    ensures { result ≡ slice_get (process_place statement.now) 0 }
{
    match statement {
        Statement::Process(process) => Some(process.place),
        Statement::Parameter(_)
        | Statement::Wire(_)
        | Statement::Memory(_)
        | Statement::Cell(_)
        | Statement::Connect(_) => None,
    }
}

/// Where the first process of a module begins.
#[tactic(auto, using(crate::proofs::Steps::first_here, crate::proofs::Steps::none_here))]
fn first_in(owner: &Module<'_>) -> Option<Place>
    ensures { result ≡ slice_get (places_in owner.now) 0 }
{
    for statement in owner.statements.as_slice() {
        if let Some(place) = place_of(statement) {
            return Some(place);
        }
    }
    None
}

/// Where the word `process` of the first process of a file stands, if there is one.
#[tactic(auto, using(crate::proofs::Steps::first_here, crate::proofs::Steps::none_here))]
pub fn first_process(file: &File<'_>) -> Option<Place>
    ensures { result ≡ slice_get (process_places file.now) 0 }
{
    for module in file.modules.as_slice() {
        if let Some(place) = first_in(module) {
            return Some(place);
        }
    }
    None
}

/// Refuses a file that has a process, as `Process` at the word `process` of its first one. Want of memory never comes.
pub fn check_processes(file: &File<'_>) -> Result<(), TextFault>
    ensures { result ≡ processes_refused file.now }
{
    match first_process(file) {
        Some(Place { line, column }) => Err(TextFault::At {
            kind: TextFaultKind::Process,
            line,
            column,
        }),
        None => Ok(()),
    }
}

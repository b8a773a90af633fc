//! The numbers, names and words of faults.
use circuit::{DesignFault, DesignKind};
use sim_base::Name;
use sqlite_items::Items;
use std::test::Fail;

const KINDS: [DesignKind; 16] = [
    DesignKind::NoTop,
    DesignKind::ManyTops,
    DesignKind::UnknownName,
    DesignKind::DuplicateName,
    DesignKind::UnknownCell,
    DesignKind::BadParameter,
    DesignKind::Width,
    DesignKind::Inout,
    DesignKind::TooWide,
    DesignKind::ArithTooWide,
    DesignKind::RecursiveModules,
    DesignKind::TooLarge,
    DesignKind::ConstTarget,
    DesignKind::TwoDrivers,
    DesignKind::CombLoop,
    DesignKind::NoMemory,
];

/// The words of the kinds in turn.
const WORDS: &str = "no module is the top
several modules are the top
a name that is not there
a name that stands twice
a cell of an unknown type
a parameter that is missing, out of range or not taken
a width that does not fit
a wire of no one direction
more than 65536 bits
more than 128 bits at an arithmetic cell
a module inside itself
more parts than are taken
a constant that would be driven
two drivers of one bit
a bit that depends on itself
out of memory";

#[test]
fn faults_have_their_numbers_names_and_words(rt: HostRuntime) -> Result<(), Fail> {
    assert!(&rt; DesignKind::CombLoop.number() == Some(24));
    assert!(&rt; DesignKind::CombLoop.name() == "CombLoop");
    assert!(&rt; DesignKind::NoMemory.number() == None);
    let mut words = WORDS.lines();
    for kind in KINDS {
        let fault = DesignFault {
            kind,
            place: Name::new(Vec::new(rt.alloc())),
            bits: Items::new(rt.alloc()),
            drives: Items::new(rt.alloc()),
        };
        let text = words.next().unwrap_or("");
        assert_eq!(&rt; fault.to_string(rt.alloc())?.as_str(), text);
    }
    assert!(&rt; words.next().is_none());
    Ok(())
}

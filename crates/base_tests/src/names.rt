//! Names, the kinds of diagnostics, and the text of want of memory.
use sim_base::{Kinds, Name, NoMemory};
use std::test::Fail;

#[test]
fn names_are_in_the_byte_order(rt: HostRuntime) -> Result<(), Fail> {
    let short = Name::copy_of(rt.alloc(), b"top")?;
    let long = Name::new(Vec::from_slice(rt.alloc(), b"top.q")?);
    assert!(rt; short < long);
    assert!(rt; short == short.clone()?);
    assert_eq!(rt; long.len(), 5);
    assert!(rt; !long.is_empty());
    assert_eq!(rt; long.as_bytes(), b"top.q".as_slice());
    assert_eq!(rt; long.into_bytes().as_slice(), b"top.q".as_slice());
    Ok(())
}

fn kinds(asserts: bool, assumes: bool) -> Kinds {
    Kinds { asserts, assumes }
}

#[test]
fn kinds_are_compared_by_both(rt: HostRuntime) {
    assert!(rt; kinds(true, false) == kinds(true, false));
    assert!(rt; kinds(true, false) != kinds(true, true));
    assert!(rt; kinds(true, false) != kinds(false, false));
}

#[test]
fn want_of_memory_has_a_text(rt: HostRuntime) -> Result<(), Fail> {
    let text = format!(in rt.alloc(); "{NoMemory}")?;
    assert_eq!(rt; text.as_str(), "out of memory");
    Ok(())
}

//! Names that come and are looked up.
use crate::table::Table;
use std::test::Fail;

#[test]
fn the_first_of_a_name_counts(rt: HostRuntime) -> Result<(), Fail> {
    let mut table = Table::new(rt.alloc());
    assert!(rt; table.add(b"\\a", 1u32)?);
    assert!(rt; table.add(b"\\b", 2u32)?);
    assert!(rt; !table.add(b"\\a", 3u32)?);
    assert_eq!(rt; table.get(b"\\a"), Some(1));
    assert_eq!(rt; table.get(b"\\b"), Some(2));
    assert_eq!(rt; table.get(b"\\"), None);
    Ok(())
}

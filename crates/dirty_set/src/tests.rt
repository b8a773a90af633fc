//! That the marks are taken in rising order, across the borders of words and of levels, and that calls succeed with
//! ample memory.
use crate::DirtySet;
use std::test::Fail;

#[test]
fn marks_are_taken_in_rising_order(rt: HostRuntime) -> Result<(), Fail> {
    let mut set = DirtySet::new(rt.alloc(), 262_146)?;
    for i in [262_143, 64, 262_145, 0, 4_096, 63, 64, 4_095] {
        assert!(rt; i < set.size());
        set.mark(i);
    }
    assert!(rt; !set.is_empty());
    for want in [0, 63, 64, 4_095, 4_096, 262_143, 262_145] {
        assert_eq!(rt; set.take(), Some(want));
    }
    assert!(rt; set.is_empty());
    assert_eq!(rt; set.take(), None);
    Ok(())
}

#[test]
fn numbers_are_marked_between_takes(rt: HostRuntime) -> Result<(), Fail> {
    let mut set = DirtySet::new(rt.alloc(), 5_000)?;
    let steps: [(&[u32], Option<u32>); 8] = [
        (&[], None),
        (&[4_999, 70], Some(70)),
        (&[70], Some(70)),
        (&[71, 3, 4_100], Some(3)),
        (&[], Some(71)),
        (&[2], Some(2)),
        (&[], Some(4_100)),
        (&[], Some(4_999)),
    ];
    for (marks, want) in steps {
        for i in marks {
            assert!(rt; *i < set.size());
            set.mark(*i);
        }
        assert_eq!(rt; set.take(), want);
    }
    assert!(rt; set.is_empty());
    Ok(())
}

#[test]
fn the_last_number_of_each_size_is_marked_and_taken(rt: HostRuntime) -> Result<(), Fail> {
    for n in [1u32, 63, 64, 65, 4_096, 4_097, 262_144, 262_145] {
        let mut set = DirtySet::new(rt.alloc(), n)?;
        assert_eq!(rt; set.size(), n);
        assert!(rt; set.is_empty());
        set.mark(n - 1);
        assert_eq!(rt; set.take(), Some(n - 1), "of {n}");
        assert_eq!(rt; set.take(), None, "of {n}");
    }
    let mut none = DirtySet::new(rt.alloc(), 0)?;
    assert_eq!(rt; none.size(), 0);
    assert!(rt; none.is_empty());
    assert_eq!(rt; none.take(), None);
    Ok(())
}

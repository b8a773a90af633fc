//! The shape of a recording.
use sim_base::Shape;
use std::test::Fail;

#[test]
fn a_shape_counts_the_words_of_its_slots(rt: HostRuntime) -> Result<(), Fail> {
    let shape = Shape::new(Vec::from_slice(rt.alloc(), &[1u32, 32, 33, 0, u32::MAX])?);
    assert_eq!(rt; shape.len(), 5);
    assert!(rt; !shape.is_empty());
    assert_eq!(rt; shape.width(2), 33);
    for (slot, want) in [(0u32, 1u32), (1, 1), (2, 2), (3, 0), (4, 134_217_728)] {
        assert_eq!(rt; shape.words_of(slot), want, "slot {slot}");
    }
    assert_eq!(rt; shape.words(), 134_217_732);
    assert_eq!(rt; shape.widths().len(), 5);
    assert_eq!(rt; shape.into_widths().len(), 5);
    Ok(())
}

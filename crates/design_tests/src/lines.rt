//! The lines of faults that have bits, or no place.
use circuit::{BitAt, DesignFault, DesignKind};
use refusal_lines::design_fault_line;
use sim_base::{Name, NoMemory};
use sqlite_items::Items;
use std::alloc::Global;
use std::test::Fail;

fn fault_of(
    alloc: Global,
    kind: DesignKind,
    place: &[u8],
    nets: &[(&[u8], u32)],
) -> Result<DesignFault, NoMemory> {
    let mut bits = Items::new(alloc);
    for (net, bit) in nets {
        let net = Name::copy_of(alloc, net)?;
        bits.push(BitAt { net, bit: *bit })?;
    }
    Ok(DesignFault {
        kind,
        place: Name::copy_of(alloc, place)?,
        bits,
        drives: Items::new(alloc),
    })
}

fn line_of(
    alloc: Global,
    kind: DesignKind,
    place: &[u8],
    nets: &[(&[u8], u32)],
) -> Result<Vec<u8>, NoMemory> {
    design_fault_line(alloc, &fault_of(alloc, kind, place, nets)?)
}

#[test]
fn a_line_has_the_place_or_the_bits(rt: HostRuntime) -> Result<(), Fail> {
    let alloc = rt.alloc();
    let line = line_of(alloc, DesignKind::NoTop, b"", &[])?;
    assert_eq!(rt; line.as_slice(), b"refused 10 NoTop\n".as_slice());
    let line = line_of(alloc, DesignKind::DuplicateName, b"\\m", &[])?;
    assert_eq!(rt;
        line.as_slice(),
        b"refused 13 DuplicateName \\m\n".as_slice()
    );
    let line = line_of(alloc, DesignKind::TwoDrivers, b"", &[(b"\\odd \\p", 0)])?;
    assert_eq!(rt;
        line.as_slice(),
        b"refused 23 TwoDrivers \\odd \\p [0]\n".as_slice()
    );
    let line = line_of(
        alloc,
        DesignKind::CombLoop,
        b"",
        &[(b"\\a", 0), (b"\\b", 4294967295)],
    )?;
    assert_eq!(rt;
        line.as_slice(),
        b"refused 24 CombLoop \\a [0] \\b [4294967295]\n".as_slice()
    );
    Ok(())
}

#[test]
fn want_of_memory_has_no_line(rt: HostRuntime) -> Result<(), Fail> {
    assert!(rt; line_of(rt.alloc(), DesignKind::NoMemory, b"\\m \\a", &[]).is_err());
    Ok(())
}

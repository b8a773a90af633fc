//! Why a text is no circuit.
ghost use Rattle.std.specs.Prelude.{◌≡◌};
ghost use Rattle.circuit.specs.Fault.{fault_name, fault_number};

use sim_base::Name;
use sqlite_items::Items;
use thiserror::Error;

/// Why a design has no circuit, or a circuit no order. It is shown by its kind; the place is in bytes, which need not
/// be text.
#[derive(Debug, Drop, Error)]
#[error("{kind}")]
pub struct DesignFault {
    pub kind: DesignKind,
    /// The module's identifier, a space, and the identifier of the wire or cell, or the word `connect`.
    /// The module's identifier alone for a second module of one name; empty for `NoTop`, `ManyTops`,
    /// `TwoDrivers`, `CombLoop` and `NoMemory`.
    pub place: Name,
    /// Of `TwoDrivers` the least bit with two drivers, of `CombLoop` the bits of the cycle in turn, each
    /// depending on the next one; otherwise none.
    pub bits: Items<BitAt>,
    /// Of `TwoDrivers` the first two places in the list of drives that cover the bit; otherwise none.
    pub drives: Items<u64>,
}

/// A bit of a net.
#[derive(Debug, Drop)]
pub struct BitAt {
    /// The path of the net.
    pub net: Name,
    pub bit: u32,
}

/// What is wrong with a design.
#[derive(Clone, Copy, Debug, PartialEq, Eq, Error)]
pub enum DesignKind {
    /// The module that is to be the top is not there; or none was named, no module has a `\top` that is
    /// not zero, and there is not exactly one module.
    #[error("no module is the top")]
    NoTop,
    /// No top was named, and several modules have a `\top` that is not zero.
    #[error("several modules are the top")]
    ManyTops,
    /// A cell's type has no such port, or a wire is not there.
    #[error("a name that is not there")]
    UnknownName,
    /// A module, a wire, a cell, a memory, or a parameter or port of a cell has the name of an earlier one.
    #[error("a name that stands twice")]
    DuplicateName,
    /// The type of a cell is no module of the file and no known type.
    #[error("a cell of an unknown type")]
    UnknownCell,
    /// A parameter of a cell is missing or out of its range, a `$slice` takes bits beyond its operand, a read
    /// port of a memory has a reset that is not constant 0, or an instance of a module has parameters.
    #[error("a parameter that is missing, out of range or not taken")]
    BadParameter,
    /// A slice is outside its signal, or a signal has another width than what it is joined to.
    #[error("a width that does not fit")]
    Width,
    /// A wire is `inout`, or both `input` and `output`.
    #[error("a wire of no one direction")]
    Inout,
    /// A wire or a port has more than 65,536 bits.
    #[error("more than 65536 bits")]
    TooWide,
    /// A port of an arithmetic cell has more than 128 bits.
    #[error("more than 128 bits at an arithmetic cell")]
    ArithTooWide,
    /// A module is an instance inside itself.
    #[error("a module inside itself")]
    RecursiveModules,
    /// The design is over a limit: 1,000,000 nets, or as many cells, registers, memories, diagnostics and
    /// instances together; 16,777,216 bits of all nets; 67,108,864 bits or rows of all memories;
    /// 4,294,967,295 bytes of an item's name or of a diagnostic's text.
    #[error("more parts than are taken")]
    TooLarge,
    /// The left side of a `connect` holds a constant.
    #[error("a constant that would be driven")]
    ConstTarget,
    /// Two drives share a bit.
    #[error("two drivers of one bit")]
    TwoDrivers,
    /// A bit depends on itself.
    #[error("a bit that depends on itself")]
    CombLoop,
    /// The allocator had no memory.
    #[error("out of memory")]
    NoMemory,
}

impl DesignKind {
    /// The number under which a refusal is printed; want of memory has none.
    pub fn number(self) -> Option<u8>
        ensures { result ≡ fault_number self }
    {
        match self {
            DesignKind::NoTop => Some(10),
            DesignKind::ManyTops => Some(11),
            DesignKind::UnknownName => Some(12),
            DesignKind::DuplicateName => Some(13),
            DesignKind::UnknownCell => Some(14),
            DesignKind::BadParameter => Some(15),
            DesignKind::Width => Some(16),
            DesignKind::Inout => Some(17),
            DesignKind::TooWide => Some(18),
            DesignKind::ArithTooWide => Some(19),
            DesignKind::RecursiveModules => Some(20),
            DesignKind::TooLarge => Some(21),
            DesignKind::ConstTarget => Some(22),
            DesignKind::TwoDrivers => Some(23),
            DesignKind::CombLoop => Some(24),
            DesignKind::NoMemory => None,
        }
    }

    /// The name that is printed.
    pub fn name(self) -> &'static str
        ensures { result.now ≡ fault_name self }
    {
        match self {
            DesignKind::NoTop => "NoTop",
            DesignKind::ManyTops => "ManyTops",
            DesignKind::UnknownName => "UnknownName",
            DesignKind::DuplicateName => "DuplicateName",
            DesignKind::UnknownCell => "UnknownCell",
            DesignKind::BadParameter => "BadParameter",
            DesignKind::Width => "Width",
            DesignKind::Inout => "Inout",
            DesignKind::TooWide => "TooWide",
            DesignKind::ArithTooWide => "ArithTooWide",
            DesignKind::RecursiveModules => "RecursiveModules",
            DesignKind::TooLarge => "TooLarge",
            DesignKind::ConstTarget => "ConstTarget",
            DesignKind::TwoDrivers => "TwoDrivers",
            DesignKind::CombLoop => "CombLoop",
            DesignKind::NoMemory => "NoMemory",
        }
    }
}

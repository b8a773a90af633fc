//! The types of cells that drive nothing, and what a diagnostic reads of them.
ghost use Rattle.std.specs.Prelude.{◌≡◌};
ghost use Rattle.design_diagnostics.specs.Names as spec;

/// The type of a cell that drives nothing.
#[derive(Clone, Copy, Debug, PartialEq, Eq)]
pub enum SilentType {
    Assert,
    Assume,
    Check,
    Cover,
    Fair,
    Live,
    Print,
    ScopeInfo,
}

/// A parameter that is read.
#[derive(Clone, Copy, Debug, PartialEq, Eq)]
pub enum Parameter {
    Flavor,
    TriggerEnable,
    TriggerWidth,
    TriggerPolarity,
}

/// A port that is read.
#[derive(Clone, Copy, Debug, PartialEq, Eq)]
pub enum Port {
    Value,
    Enable,
    Trigger,
}

impl SilentType {
    /// The identifier.
    fn name(self) -> &'static [u8]
        ensures { result.now ≡ spec.type_name self }
    {
        match self {
            SilentType::Assert => b"$assert",
            SilentType::Assume => b"$assume",
            SilentType::Check => b"$check",
            SilentType::Cover => b"$cover",
            SilentType::Fair => b"$fair",
            SilentType::Live => b"$live",
            SilentType::Print => b"$print",
            SilentType::ScopeInfo => b"$scopeinfo",
        }
    }
}

impl Parameter {
    /// The identifier.
    pub fn name(self) -> &'static [u8]
        ensures { result.now ≡ spec.parameter_name self }
    {
        match self {
            Parameter::Flavor => b"\\FLAVOR",
            Parameter::TriggerEnable => b"\\TRG_ENABLE",
            Parameter::TriggerWidth => b"\\TRG_WIDTH",
            Parameter::TriggerPolarity => b"\\TRG_POLARITY",
        }
    }
}

impl Port {
    /// The identifier.
    pub fn name(self) -> &'static [u8]
        ensures { result.now ≡ spec.port_name self }
    {
        match self {
            Port::Value => b"\\A",
            Port::Enable => b"\\EN",
            Port::Trigger => b"\\TRG",
        }
    }
}

static TYPES: [SilentType; 8] = [
    SilentType::Assert,
    SilentType::Assume,
    SilentType::Check,
    SilentType::Cover,
    SilentType::Fair,
    SilentType::Live,
    SilentType::Print,
    SilentType::ScopeInfo,
];

#[tactic(auto, unfolding(crate::specs::Names::types))]
fn types() -> &'static [SilentType]
    ensures { result.now ≡ spec.types }
{
    &TYPES
}

/// The first of some types with an identifier.
fn type_in(types: &[SilentType], name: &[u8]) -> Option<SilentType>
    ensures { result ≡ spec.type_in types.now name.now }
{
    for silent in types {
        if silent.name() == name {
            return Some(*silent);
        }
    }
    None
}

/// The type of an identifier.
pub fn type_named(name: &[u8]) -> Option<SilentType>
    ensures { result ≡ spec.type_named name.now }
{
    type_in(types(), name)
}

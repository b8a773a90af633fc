//! Why the files of a run are refused.
ghost use Rattle.std.specs.Prelude.{◌≡◌};
ghost use Rattle.cxxsim.specs.declared.refusal.LoadFault.TheVariants as fault;
ghost use Rattle.cxxsim.specs.Printed.{refusal_line};

use sim_base::NoMemory;

/// A fault of a file that was read.
#[derive(Clone, Copy, Debug, PartialEq, Eq)]
pub enum Refusal {
    /// The design's file has more bytes than are read.
    DesignTooLong,
    /// The design is not of the form that is read so far.
    DesignNotBuilt,
    /// The stimulus' file has more bytes than are read.
    StimulusTooLong,
    /// The stimulus is not of the form that is read so far.
    StimulusNotBuilt,
}

impl Refusal {
    /// The line that the log gets.
    pub fn line(self) -> &'static [u8]
        ensures { result.now ≡ refusal_line self }
    {
        match self {
            Refusal::DesignTooLong => b"refused 50 FileTooLong design\n",
            Refusal::DesignNotBuilt => b"refused 60 NotBuilt design\n",
            Refusal::StimulusTooLong => b"refused 50 FileTooLong stimulus\n",
            Refusal::StimulusNotBuilt => b"refused 60 NotBuilt stimulus\n",
        }
    }
}

/// Why no run was loaded.
#[derive(Clone, Copy, Debug, PartialEq, Eq)]
pub enum LoadFault {
    /// A file could not be read.
    Read,
    Refused(Refusal),
    NoMemory,
}

impl From<NoMemory> for LoadFault {
    ghost from_gives = { λ _ e. e ≡ fault.NoMemory };

    fn from(_cause: NoMemory) -> LoadFault {
        LoadFault::NoMemory
    }
}

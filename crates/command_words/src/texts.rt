//! The texts that the program prints about itself.
ghost use Rattle.std.specs.Prelude.{◌≡◌};
ghost use Rattle.command_words.specs.Texts.{help_text, version_text};

/// How the program is called.
pub fn help_text() -> &'static str
    ensures { result.now ≡ help_text }
{
    "cxxsim simulates a digital design, written in RTLIL, under a stimulus.

usage: cxxsim trace|solo|demo [NUMBER] [OPTIONS]

Modes
  trace   Runs the design and prints the value of every item at every sample.
            cxxsim trace --design counter.il --stimulus counter.stim
  solo    Serves one debugger: its packets come from the standard input, and
          replies and events go to the standard output. When the session has
          ended, its log goes to the standard error.
            cxxsim solo --design counter.il --stimulus counter.stim
  demo    Makes a design of NUMBER stages, from 1 to 1000, runs it, and prints
          a summary.
            cxxsim demo 100

Options
  --design F     The file of the design. trace and solo need it.
  --stimulus F   The file of the stimulus. trace and solo need it.
  --top NAME     The module to run, without the \\ before its name. Without it,
                 the one whose attribute \\top is set, or the only one.
  --help         Prints this text. It stands alone.
  --version      Prints the version. It stands alone.

Files
  A design is text in RTLIL, as Yosys writes it with write_rtlil after prep.
  A stimulus is text: the names of the inputs, and blocks of times and values.
  A trace is text: the items, a line for each sample, and how the run ended.
  Packets are JSON, each with a zero byte behind it.

Statuses
  0  All was read, served and written.
  2  The words do not fit; the standard error has the usage line.
  3  A file or the standard input could not be read.
  4  A file has a fault; the standard error says which and where.
  5  An output could not be written.
  6  A sample did not settle.
  8  There was not enough memory.
  9  The debugger sent more than 16777216 bytes.
"
}

/// The program and its version.
pub fn version_text() -> &'static str
    ensures { result.now ≡ version_text }
{
    "cxxsim 0.1.0\n"
}

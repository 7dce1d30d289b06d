// What the command line asks for.
ghost use Rattle.reports.specs.ProfileNames.{Named};
ghost use Rattle.reports.specs.Renamed.{Renamed};

use std::fmt;
use std::str::FromStr;

/// What standard input holds.
#[derive(Clone, Copy, PartialEq, Eq, Default, Debug)]
pub enum Input {
    /// A script of calls on a graph.
    #[default]
    Script,
    /// A list of steps between numbered events.
    Steps,
}

/// The profiles that go by a name.
#[derive(Clone, Copy, PartialEq, Eq, Default, Debug)]
pub enum ProfileName {
    Strict,
    #[default]
    Jam21,
}

impl FromStr for ProfileName {
    type Err = BadOption;

    ghost from_str_gives = { Named };

    fn from_str(name: &str) -> Result<ProfileName, BadOption> {
        match name {
            "strict" => Ok(ProfileName::Strict),
            "jam21" => Ok(ProfileName::Jam21),
            _ => Err(BadOption::UnknownProfile),
        }
    }
}

impl fmt::Display for ProfileName {
    fn fmt<W: fmt::Write>(&self, f: &mut fmt::Formatter<W>) -> fmt::Result {
        f.write_str(match self {
            ProfileName::Strict => "strict",
            ProfileName::Jam21 => "jam21",
        })
    }
}

/// What is asked for; with no options a script, under JAM21.
#[derive(Clone, Copy, PartialEq, Eq, Default, Debug)]
pub struct Options {
    pub input: Input,
    pub profile: ProfileName,
    /// Print the kept and pushed pairs by rule.
    pub pairs: bool,
    pub help: bool,
}

/// Why a word of the command line is not understood.
#[derive(Clone, Copy, PartialEq, Eq, Debug)]
pub enum BadOption {
    Unknown,
    NoProfile,
    UnknownProfile,
}

impl fmt::Display for BadOption {
    fn fmt<W: fmt::Write>(&self, f: &mut fmt::Formatter<W>) -> fmt::Result {
        f.write_str(match self {
            BadOption::Unknown => "this option is not known; --help lists them",
            BadOption::NoProfile => "--profile wants a name: strict or jam21",
            BadOption::UnknownProfile => "the profiles are strict and jam21",
        })
    }
}

/// What `--help` prints.
pub const HELP: &str = "jam21: draws an execution graph and looks for cycles

usage: jam21 [--profile NAME] [--pairs] < SCRIPT
       jam21 --steps < STEPS

A script has a call to a line; `#` begins a comment:
  add THREAD CODE LOCATION VALUE   adds an event: add 0 W rlx 0 1, add 1 R acq 1, add 0 F sc
  source READ WRITE                the read takes its value from the write: source 10 9
  back                             undoes the last step that stands

Options:
  --profile NAME   the ordering profile: strict or jam21 (jam21 unless told)
  --pairs          also prints the pairs of events that the profile keeps and pushes, by rule
  --steps          reads steps between numbered events in place of a script, one `from to` to a line
  --help           prints this
";

impl Options {
    /// The options with one more word of the command line; `--profile` takes its name in the word after it.
    pub fn with(self, word: &str) -> Result<Options, BadOption> {
        match word {
            "--steps" => Ok(Options {
                input: Input::Steps,
                ..self
            }),
            "--pairs" => Ok(Options {
                pairs: true,
                ..self
            }),
            "--help" => Ok(Options { help: true, ..self }),
            _ => Err(BadOption::Unknown),
        }
    }

    /// The options with a profile by its name.
    pub fn with_profile(self, name: &str) -> Result<Options, BadOption>
        ensures { Renamed self name.now result }
    {
        Ok(Options {
            profile: name.parse()?,
            ..self
        })
    }
}

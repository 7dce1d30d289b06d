// What a sheet says of a graph.
ghost use Rattle.std.specs.Prelude.{◌≡◌, Decides};
ghost use Rattle.sheets.specs.Verdicts.{number as «number_of_lem», Belongs, Numbered};

use axioms::rule::Rule;
use std::error::Error;
use std::fmt;

/// Both axioms hold, the first is broken, or the second is.
#[derive(Clone, Copy, PartialEq, Eq, Debug)]
pub enum Verdict {
    Clear,
    SourceCycle,
    CoherenceCycle,
}

impl Verdict {
    /// The number of a verdict: 0 to 2.
    pub fn number(self) -> u8
        ensures { result ≡ «number_of_lem» self }
    {
        self as u8
    }

    /// Can a step that holds by this rule stand in a sheet of this verdict? The rules of coherence belong to coherence
    /// cycles, the others to source cycles.
    pub fn admits(self, rule: Rule) -> bool
        ensures { Decides result (Belongs self rule) }
    {
        match self {
            Verdict::Clear => false,
            Verdict::SourceCycle => !rule.is_coherence(),
            Verdict::CoherenceCycle => rule.is_coherence(),
        }
    }
}

/// A number that no verdict has.
#[derive(Clone, Copy, PartialEq, Eq, Debug)]
pub struct UnknownVerdict(pub u8);

/// The verdict of a number: 0 to 2.
impl TryFrom<u8> for Verdict {
    type Error = UnknownVerdict;

    ghost try_from_gives = { Numbered };

    fn try_from(number: u8) -> Result<Self, UnknownVerdict> {
        match number {
            0 => Ok(Verdict::Clear),
            1 => Ok(Verdict::SourceCycle),
            2 => Ok(Verdict::CoherenceCycle),
            _ => Err(UnknownVerdict(number)),
        }
    }
}

impl fmt::Display for UnknownVerdict {
    fn fmt<W: fmt::Write>(&self, f: &mut fmt::Formatter<W>) -> fmt::Result {
        write!(f, "no verdict has the number {}", self.0)
    }
}

impl Error for UnknownVerdict {}

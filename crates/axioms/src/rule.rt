// The rules by which a step of a cycle holds.
ghost use Rattle.std.specs.Prelude.{◌≡◌};
ghost use Rattle.axioms.specs.Rules.{number as «number_of_lem», is_coherence, Numbered};

use std::error::Error;
use std::fmt;

// A number and no `Option`: a sheet has a byte for each reader.
/// What stands for a reader that a rule does not name.
pub const NO_READER: u8 = 255;

/// A step of a source cycle holds by the first two rules, a step of a coherence cycle by the others.
#[derive(Clone, Copy, PartialEq, Eq, Debug)]
pub enum Rule {
    ProgramOrder = 1,
    ReadsFrom,
    Coww,
    Cowr,
    Corw,
    Corr,
}

impl Rule {
    /// The number of a rule: 1 to 6.
    pub fn number(self) -> u8
        ensures { result ≡ «number_of_lem» self }
    {
        self as u8
    }

    /// Is it a rule of coherence?
    pub fn is_coherence(self) -> bool
        ensures { result ≡ is_coherence self }
    {
        match self {
            Rule::ProgramOrder | Rule::ReadsFrom => false,
            Rule::Coww | Rule::Cowr | Rule::Corw | Rule::Corr => true,
        }
    }
}

/// A number that no rule has.
#[derive(Clone, Copy, PartialEq, Eq, Debug)]
pub struct UnknownRule(pub u8);

/// The rule of a number: 1 to 6.
impl TryFrom<u8> for Rule {
    type Error = UnknownRule;

    ghost try_from_gives = { Numbered };

    fn try_from(number: u8) -> Result<Rule, UnknownRule> {
        match number {
            1 => Ok(Rule::ProgramOrder),
            2 => Ok(Rule::ReadsFrom),
            3 => Ok(Rule::Coww),
            4 => Ok(Rule::Cowr),
            5 => Ok(Rule::Corw),
            6 => Ok(Rule::Corr),
            _ => Err(UnknownRule(number)),
        }
    }
}

impl fmt::Display for UnknownRule {
    fn fmt<W: fmt::Write>(&self, f: &mut fmt::Formatter<W>) -> fmt::Result {
        write!(f, "no rule has the number {}", self.0)
    }
}

impl Error for UnknownRule {}

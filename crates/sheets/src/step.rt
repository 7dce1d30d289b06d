// A step of a sheet's cycle.
ghost use Rattle.std.specs.Prelude.{◌≡◌};
ghost use Rattle.sheets.specs.Steps.{readers, step_bytes};

use axioms::rule::{self, Rule};

/// What stands in a reader's place where the rule names none there.
// A number and no `None`: a sheet is read back byte by byte, and 255 where the rule names a reader is a fault to be told.
pub const NO_READER: u8 = rule::NO_READER;

/// How many bytes a step takes in a sheet.
pub const STEP_SIZE: usize = 5;

/// A step from one event to another, the rule by which it holds, and the readers that the rule names.
///
/// A rule that names one reader has it first. Under `Corr`, which names two, the earlier stands first.
#[derive(Clone, Copy, PartialEq, Eq, Debug)]
pub struct Step {
    pub from: u8,
    pub to: u8,
    pub rule: Rule,
    // Bytes and no `Option`s: a step is what stands in a sheet, faults too.
    pub reader: u8,
    pub second: u8,
}

impl Step {
    /// How many readers the step's rule names: 0 to 2.
    pub fn readers(self) -> u8
        ensures { result ≡ readers self.rule }
    {
        match self.rule {
            Rule::ProgramOrder | Rule::ReadsFrom | Rule::Coww => 0,
            Rule::Cowr | Rule::Corw => 1,
            Rule::Corr => 2,
        }
    }

    /// The step as it stands in a sheet.
    pub fn bytes(self) -> [u8; STEP_SIZE]
        ensures { result ≡ step_bytes self }
    {
        [
            self.from,
            self.to,
            self.rule.number(),
            self.reader,
            self.second,
        ]
    }
}

// The steps that show a verdict. The calls have a file of their own.
ghost use Rattle.std.specs.Prelude.{◌≤◌};

use axioms::rule::{NO_READER, Rule};
use sheets::step::Step;
use sheets::writing::MOST_STEPS;

mod calls;

/// The steps of a cycle: at most as many as a graph has events.
#[derive(Clone, Copy)]
pub(crate) struct Steps {
    /// The first `count` of these are the steps: fixed memory, as there is no heap.
    pub laid: [Step; MOST_STEPS],
    pub count: usize,
    ghost few: { count ≤ 64 },
}

/// What stands in the places behind the steps.
pub(crate) const BLANK: Step = Step {
    from: 0,
    to: 0,
    rule: Rule::ProgramOrder,
    reader: NO_READER,
    second: NO_READER,
};

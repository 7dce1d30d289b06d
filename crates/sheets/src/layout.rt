// A sheet by the layout of its bytes.
ghost use Rattle.std.specs.Prelude.{◌≡◌, ◌/◌, List, length};
ghost use Rattle.std.specs.List.{slice_get, flat_map};
ghost use Rattle.sheets.specs.Entries.{StepAt};
ghost use Rattle.sheets.specs.Steps.{step_bytes};
ghost use Rattle.sheets.specs.declared.step.Step.{Step};

use crate::step::{STEP_SIZE, Step};
use crate::verdict::Verdict;
use axioms::rule::Rule;

/// The parts of a sheet: its verdict, its push order, and the bytes of its steps.
#[derive(Clone, Copy)]
pub struct Layout<'a> {
    pub verdict: Verdict,
    pub order: &'a [u8],
    /// Five bytes to a step.
    pub steps: &'a [u8],
}

impl Layout<'_> {
    /// How many steps there are.
    pub fn count(&self) -> usize
        ensures value { result ≡ length self.now.steps.now / 5 }
        ensures told { (ts : List Step) → self.now.steps.now ≡ flat_map step_bytes ts → result ≡ length ts }
    {
        self.steps.len() / STEP_SIZE
    }

    /// The step at a place, from 0. There is none past the last, nor where the bytes are those of no step.
    pub fn step(&self, place: usize) -> Option<Step>
        ensures value { StepAt self.now.steps.now place result }
        ensures told { (ts : List Step) → self.now.steps.now ≡ flat_map step_bytes ts → result ≡ slice_get ts place }
    {
        step_at(self.steps, place)
    }
}

// The step at a place of the bytes of steps.
pub(crate) fn step_at(steps: &[u8], place: usize) -> Option<Step>
    ensures { StepAt steps.now place result }
{
    let (chunks, _) = steps.as_chunks::<STEP_SIZE>();
    let [from, to, number, reader, second] = *chunks.get(place)?;
    let rule = Rule::try_from(number).ok()?;
    Some(Step {
        from,
        to,
        rule,
        reader,
        second,
    })
}

// A list of steps between numbered events, one `from to` to a line, and the cycles that they make.
ghost use Rattle.std.specs.Prelude.{◌≡◌, ◌+◌, ◌*◌, ◌<◌, ◌≤◌, false, replicate, IfSome, IfOk, count_by, MatchOption, MatchResult, nat_eq, slice_index_or, slice_set};
ghost use Rattle.step_lists.specs.Cycles.{Rounds};
ghost use Rattle.step_lists.specs.declared.step_list.BadStep.TheVariants.{TooHigh};

use measures::measure::Measure;
use measures::settling::{CELLS, LARGEST};
use measures::steps::{StepCount, settle_steps};
use std::{array, fmt};

/// Events are numbered below this.
pub const MOST: usize = LARGEST;

// One step leads from a row to a column.
const STEP: u8 = 1;

/// The steps read so far: a table of step counts, 1 where a step leads from a row to a column.
#[derive(Drop)]
pub struct StepList {
    // Step counts, as settling takes them, and no `Option`s.
    cells: [u8; CELLS],
    named: [bool; MOST],
}

/// Why a line is no step.
#[derive(Clone, Copy, PartialEq, Eq, Debug)]
pub enum BadStep {
    NotTwoNumbers,
    TooHigh,
}

impl fmt::Display for BadStep {
    fn fmt<W: fmt::Write>(&self, f: &mut fmt::Formatter<W>) -> fmt::Result {
        match self {
            BadStep::NotTwoNumbers => f.write_str("a step is two numbers, as in `8 9`"),
            BadStep::TooHigh => f.write_str("events are numbered below 64"),
        }
    }
}

impl StepList {
    /// No steps.
    pub fn new() -> StepList
        ensures { result.cells ≡ replicate 4096 255 }
    {
        StepList {
            cells: [StepCount::NONE; CELLS],
            named: [false; MOST],
        }
    }

    /// Notes a step; numbers of 64 and above are refused.
    pub fn add(&mut self, from: u8, to: u8) -> Result<(), BadStep>
        ensures { MatchResult result (λ _. self.new.cells ≡ slice_set self.old.cells (from * 64 + to) 1) (λ why. (why ≡ TooHigh) × ((from < 64 → to < 64 → ⊥) × (self.new ≡ self.old))) }
    {
        let (from, to) = (usize::from(from), usize::from(to));
        if from >= MOST || to >= MOST {
            return Err(BadStep::TooHigh);
        }
        // A flat table, since that is what settling takes.
        self.cells[from * MOST + to] = STEP;
        self.named[from] = true;
        self.named[to] = true;
        Ok(())
    }

    /// Whether a step names the event.
    pub fn names(&self, event: u8) -> bool
        ensures { result ≡ slice_index_or self.now.named event false }
    {
        self.named
            .get(usize::from(event))
            .is_some_and(|named| *named)
    }

    /// How many steps there are, each counted once.
    pub fn count(&self) -> usize
        ensures { result ≡ count_by (λ x. nat_eq x 1) self.now.cells }
    {
        self.cells.iter().filter(|cell| **cell == STEP).count()
    }

    /// The fewest steps of a cycle through each event, where there is one of at most 64.
    pub fn shortest_cycles(&self) -> [Option<u8>; MOST]
        ensures { Rounds self.now.cells result }
    {
        let mut cells = self.cells;
        let Ok(()) = settle_steps(&mut cells, MOST) else {
            unreachable()
        };
        array::from_fn(|v| counted(cells[v * MOST + v]))
    }
}

// A count of steps, if it is one: above 64 there is no walk.
fn counted(count: u8) -> Option<u8>
    ensures { MatchOption result (64 < count) (λ k. (k ≡ count) × (k ≤ 64)) }
{
    (usize::from(count) <= MOST).then_some(count)
}

/// The step that a line tells, if any: two numbers below 64, or nothing but a comment after `#`.
pub fn read_step(line: &str) -> Result<Option<(u8, u8)>, BadStep>
    ensures { IfOk result (λ step. IfSome step (λ s. (s.0 < 64) × (s.1 < 64))) }
{
    // Scripts of calls (`reports`) begin a line in the same way; no crate stands below both.
    let text = line.split_once('#').map_or(line, |(before, _)| before);
    let mut words = text.split_whitespace();
    let Some(first) = words.next() else {
        return Ok(None);
    };
    let (Some(second), None) = (words.next(), words.next()) else {
        return Err(BadStep::NotTwoNumbers);
    };
    let (from, to) = (number(first)?, number(second)?);
    if from >= MOST as u64 || to >= MOST as u64 {
        return Err(BadStep::TooHigh);
    }
    Ok(Some((from as u8, to as u8)))
}

fn number(word: &str) -> Result<u64, BadStep> {
    word.parse().map_err(|_| BadStep::NotTwoNumbers)
}

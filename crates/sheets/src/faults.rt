// What is wrong with the steps of a sheet, by their bytes alone.
ghost use Rattle.std.specs.Prelude.{◌≡◌, ℕ, ◌+◌, ◌*◌, ◌<◌, ◌≤◌, length, Decides, MatchOption};
ghost use Rattle.sheets.specs.Entries.{from as «from_byte», next};
ghost use Rattle.sheets.specs.Faults.{ReaderAt, Fault, FirstFault};
ghost use Rattle.sheets.specs.WellLaid.{WellNamed};

use crate::layout::step_at;
use crate::step::{NO_READER, STEP_SIZE, Step};
use crate::verdict::Verdict;

// The place of the first step that is faulty, of the `count` steps whose bytes these are.
pub(crate) fn first_fault(verdict: Verdict, steps: &[u8], count: u8, present: u8) -> Option<u8>
    requires { length steps.now ≡ count * 5 }
    ensures { MatchOption result ((k : ℕ) → k < count → Fault present verdict count steps.now k → ⊥) (λ k. FirstFault present verdict count steps.now k) }
{
    // By place, since a fault speaks of the steps beside this one too; the place that is answered is a byte, as the count is.
    (0..count).find(
        |&place|
            requires within { place < count }
            requires whole { length steps.now ≡ count * 5 }
            ensures { Decides result (Fault present verdict count steps.entry.now place) }
        { is_faulty(verdict, steps, count as usize, place as usize, present) },
    )
}

fn is_faulty(verdict: Verdict, steps: &[u8], count: usize, place: usize, present: u8) -> bool
    requires within { place < count }
    requires whole { length steps.now ≡ count * 5 }
    ensures { Decides result (Fault present verdict count steps.now place) }
{
    let Some(step) = step_at(steps, place) else {
        // No rule has the number that stands there.
        return true;
    };
    let next = place_behind(place, count);
    !is_well_named(step, verdict, present)
        || step.to != steps[next * STEP_SIZE]
        || starts_where_another_did(steps, place)
}

// The place of the step behind the one at this place, of `count`: behind the last is the first. (`judging` asks a list for
// the event there, and has no places of steps yet.)
fn place_behind(place: usize, count: usize) -> usize
    requires { place < count }
    ensures { result ≡ next count place }
{
    if place + 1 < count { place + 1 } else { 0 }
}

// Does a step name present events and a rule of the verdict, with the readers that the rule names?
fn is_well_named(step: Step, verdict: Verdict, present: u8) -> bool
    ensures { Decides result (WellNamed present verdict step) }
{
    let named = step.readers();
    step.from < present
        && step.to < present
        && verdict.admits(step.rule)
        && is_right_reader(step.reader, 0, named, present)
        && is_right_reader(step.second, 1, named, present)
}

// Can this reader stand at a place, from 0, of the readers of a rule that names so many?
fn is_right_reader(reader: u8, place: u8, named: u8, present: u8) -> bool
    ensures { Decides result (ReaderAt present named place reader) }
{
    if place < named {
        reader < present
    } else {
        reader == NO_READER
    }
}

// Does an earlier step start where the step at this place does?
fn starts_where_another_did(steps: &[u8], place: usize) -> bool
    requires { place * 5 + 5 ≤ length steps.now }
    ensures { Decides result ((j : ℕ) × (j < place) × («from_byte» steps.now j ≡ «from_byte» steps.now place)) }
{
    let from = steps[place * STEP_SIZE];
    // By place: chunks of five would leave a remainder to speak of, which is never there.
    (0..place).any(
        |earlier|
            requires { earlier * 5 < length steps.now }
        { steps[earlier * STEP_SIZE] == from },
    )
}

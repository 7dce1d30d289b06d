// The measure step count: the fewest steps of a path from one vertex to another.
ghost use Rattle.std.specs.Prelude.{◌≡◌, Decides, refl};
ghost use Rattle.measures.specs.Outcome.{Either};
ghost use Rattle.measures.specs.Steps.{Steps, counted, no_steps, zero_steps, added, fewer, step_laws, same_steps};
ghost use Rattle.measures.specs.Walks.{Fewest};

use crate::measure::Measure;
use crate::settling::{Refusal, settle};

/// 0 to 64 steps; every number above 64 means that there is no path.
pub struct StepCount;

impl Measure for StepCount {
    // A byte and no `Option<u8>`: C hands over bytes, and a sum above 64 means none without a test.
    type Value = u8;

    const NONE: u8 = 255;

    ghost NONE = { 255 };

    const HERE: u8 = 0;

    ghost HERE = { 0 };

    ghost Meaning = { Steps };

    ghost means = { counted };

    ghost none = { no_steps };

    ghost here = { zero_steps };

    ghost joined = { added };

    ghost better = { fewer };

    ghost laws = { step_laws };

    ghost means_none = { same_steps _ _ refl };

    ghost means_here = { same_steps _ _ refl };

    // A sum above 64 means none as it stands, so nothing has to be tested here.
    fn join(a: u8, b: u8) -> u8 {
        a.saturating_add(b)
    }

    fn choose(a: u8, b: u8) -> u8 {
        a.min(b)
    }

    fn same(a: u8, b: u8) -> bool {
        a.min(65) == b.min(65)
    }
}

/// Makes each entry of a table of step counts the fewest steps from its row to its column, by one step or more.
///
/// An entry above 64 afterwards says that no walk of at most 64 steps leads there. `cells` holds a table of side at
/// most 64 row by row; otherwise the call is refused and `cells` is as it was.
pub fn settle_steps(cells: &mut [u8], side: usize) -> Result<(), Refusal>
    ensures { Either Fewest side cells.old cells.new result }
{
    // The outcome of settling at this measure, in the words of walks.
    settle::<StepCount>(cells, side)
}

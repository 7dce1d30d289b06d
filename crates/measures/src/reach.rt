// The measure yes/no: whether some path leads from one vertex to another.
ghost use Rattle.std.specs.Prelude.{◌≡◌, Bool, true, false, ◌&&◌, ◌||◌, Decides, refl};
ghost use Rattle.measures.specs.Outcome.{Either};
ghost use Rattle.measures.specs.Reach.{yes, yes_no_laws};
ghost use Rattle.measures.specs.Walks.{Reachable};

use crate::measure::Measure;
use crate::settling::{Refusal, settle};

/// 0 is no, and every other number is yes.
pub struct YesNo;

impl Measure for YesNo {
    // A byte and no `bool`: C hands over bytes, of which each but 0 is yes.
    type Value = u8;

    const NONE: u8 = 0;

    ghost NONE = { 0 };

    const HERE: u8 = 255;

    ghost HERE = { 255 };

    ghost Meaning = { Bool };

    ghost means = { yes };

    ghost none = { false };

    ghost here = { true };

    ghost joined = { ◌&&◌ };

    ghost better = { ◌||◌ };

    ghost laws = { yes_no_laws };

    ghost means_none = { refl };

    ghost means_here = { refl };

    fn join(a: u8, b: u8) -> u8 {
        a.min(b)
    }

    fn choose(a: u8, b: u8) -> u8 {
        a.max(b)
    }

    fn same(a: u8, b: u8) -> bool {
        (a == 0) == (b == 0)
    }
}

/// Makes each entry of a yes/no table say whether yes entries lead from its row to its column, by one step or more.
///
/// `cells` holds a table of side at most 64 row by row; otherwise the call is refused and `cells` is as it was.
pub fn settle_reach(cells: &mut [u8], side: usize) -> Result<(), Refusal>
    ensures { Either Reachable side cells.old cells.new result }
{
    // The outcome of settling at this measure, in the words of steps that lead somewhere.
    settle::<YesNo>(cells, side)
}

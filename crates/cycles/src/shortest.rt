// The shortest cycle, read off the fewest steps between vertices.
ghost use Rattle.std.specs.Prelude.{◌≡◌, ℕ, ◌<◌, ◌≤◌, length, MatchOption};
ghost use Rattle.measures.specs.Outcome.{Square};
ghost use Rattle.measures.specs.Reach.{yes};
ghost use Rattle.measures.specs.Walks.{at as entry, Yes};
ghost use Rattle.cycles.specs.Answers.{ShortestCycle};
ghost use Rattle.cycles.specs.Distances.{Marked, Distances, AllFar, FewestBack, Nearest, Traced};

use measures::measure::Measure;
use measures::settling::{CELLS, LARGEST, Refusal, check_square};
use measures::steps::{StepCount, settle_steps};

// A step count above `MOST_STEPS` says that there is no way.
const MOST_STEPS: u8 = 64;

// A number and no `Option`, since it stands in a table of step counts, which settling takes.
const NO_WAY: u8 = StepCount::NONE;

/// Finds a cycle with the fewest steps, and writes its vertices to the front of `cycle`, the lowest first.
/// Of several it is the one whose vertices come first in lexicographic order.
///
/// `steps` holds a yes/no table row by row, of side at most 64: an entry that is not 0 is a step from its row to its
/// column. Answers the number of steps, which is the number of vertices written; the rest of `cycle` is as it was.
/// Without a cycle the answer is `None`, and `cycle` is as it was. A table that is not square is refused, and
/// `cycle` is as it was.
///
/// With steps 0 → 1 → 2 → 3 → 0 and 3 → 1 the answer is 3, and `cycle` begins with 1, 2, 3.
pub fn shortest_cycle(
    steps: &[u8],
    side: usize,
    cycle: &mut [u8; LARGEST],
) -> Result<Option<usize>, Refusal>
    ensures { ShortestCycle side steps.now cycle.old cycle.new result }
{
    // The cycle goes into memory that the caller lends, as there is no heap, and the count says how much of it.
    check_square(steps, side)?;
    let mut table = [NO_WAY; CELLS];
    let counts = &mut table[..steps.len()];
    mark(steps, counts);
    settle_steps(counts, side)?;
    let ways = Ways {
        steps,
        counts,
        side,
    };
    let Some(start) = ways.nearest() else {
        return Ok(None);
    };
    Ok(Some(ways.trace(start, cycle)))
}

// One where there is a step, and 255 elsewhere. Not `zip`, since a proof knows no value that `iter_mut` has lent to it.
fn mark(steps: &[u8], counts: &mut [u8])
    requires { length counts.old ≡ length steps.now }
    ensures { Marked steps.now counts.new }
{
    for (i, count) in counts.iter_mut().enumerate() {
        *count = if steps[i] == 0 { NO_WAY } else { 1 };
    }
}

// The steps of a relation, with how many lead from each vertex to each.
#[derive(Clone, Copy)]
struct Ways<'a> {
    // A yes/no table, row by row.
    steps: &'a [u8],
    // The fewest steps from a row to a column, in a table of the same side.
    counts: &'a [u8],
    side: usize,
    ghost square: { Square side steps.now },
    ghost shape: { Square side counts.now },
}

impl Ways<'_> {
    // Whether a step leads from one vertex to another.
    fn leads(&self, from: usize, to: usize) -> bool
        requires from { from < self.now.side }
        requires to { to < self.now.side }
        ensures { result ≡ yes (entry self.now.side self.now.steps.now from to) }
    {
        self.steps[from * self.side + to] != 0
    }

    // The fewest steps from one vertex to another, by one or more.
    fn count(&self, from: usize, to: usize) -> u8
        requires from { from < self.now.side }
        requires to { to < self.now.side }
        ensures { result ≡ entry self.now.side self.now.counts.now from to }
    {
        self.counts[from * self.side + to]
    }

    // The fewest steps by which some vertex leads back to itself.
    fn fewest_back(&self) -> Option<u8>
        ensures { MatchOption result (AllFar self.now.side self.now.counts.now) (FewestBack self.now.side self.now.counts.now) }
    {
        (0..self.side)
            .map(|v| self.count(v, v))
            .min()
            .filter(|count| *count <= MOST_STEPS)
    }

    // The lowest of the vertices with the shortest way back to themselves.
    fn nearest(&self) -> Option<usize>
        ensures { MatchOption result (AllFar self.now.side self.now.counts.now) (Nearest self.now.side self.now.counts.now) }
    {
        let fewest = self.fewest_back()?;
        (0..self.side).find(|v| self.count(*v, *v) == fewest)
    }

    // The lowest vertex that a step leads to and that has `left` steps to go.
    fn onward(&self, from: usize, to: usize, left: u8) -> usize
        requires from { from < self.now.side }
        requires to { to < self.now.side }
        requires there { (w : ℕ) × Yes self.now.side self.now.steps.now from w × (entry self.now.side self.now.counts.now w to ≡ left) }
        ensures step { Yes self.now.side self.now.steps.now from result }
        ensures nearer { entry self.now.side self.now.counts.now result to ≡ left }
        ensures lowest { (v : ℕ) → Yes self.now.side self.now.steps.now from v → entry self.now.side self.now.counts.now v to ≡ left → result ≤ v }
    {
        (0..self.side)
            .find(|w| self.leads(from, *w) && self.count(*w, to) == left)
            .unwrap()
    }

    // Writes the vertices of the shortest walk from `start` back to it, and answers how many there are.
    fn trace(&self, start: usize, cycle: &mut [u8; LARGEST]) -> usize
        requires start { start < self.now.side }
        requires small { entry self.now.side self.now.counts.now start start ≤ 64 }
        requires measured { Distances (Yes self.now.side self.now.steps.now) self.now.side self.now.counts.now }
        ensures count { result ≡ entry self.now.side self.now.counts.now start start }
        ensures traced { Traced (Yes self.now.side self.now.steps.now) self.now.side self.now.counts.now start result cycle.old cycle.new }
    {
        let count = usize::from(self.count(start, start));
        cycle[0] = start as u8;
        let between = &mut cycle[1..count];
        let mut at = start;
        for (done, vertex) in between.iter_mut().enumerate() {
            at = self.onward(at, start, (count - 1 - done) as u8);
            *vertex = at as u8;
        }
        count
    }
}

// Whether there is a cycle at all.
ghost use Rattle.cycles.specs.Answers.{CycleTest};

use measures::reach::settle_reach;
use measures::settling::Refusal;

/// Answers whether some vertex leads back to itself, by one step or more.
///
/// `cells` holds a yes/no table row by row, of side at most 64: an entry that is not 0 is a step from its row to its
/// column. The table is settled in place, so that afterwards each entry says whether steps lead from its row to
/// its column. A table that is not square is refused, and is as it was.
pub fn has_cycle(cells: &mut [u8], side: usize) -> Result<bool, Refusal>
    ensures { CycleTest side cells.old cells.new result }
{
    settle_reach(cells, side)?;
    // The diagonal by its vertices, as the definition has it: `step_by` over the cells is no plainer.
    Ok((0..side).any(|v| cells[v * side + v] != 0))
}

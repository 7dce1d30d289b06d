// Settling for callers from C: the slice goes over as a pointer and a length.
#![tactic(auto)]

ghost use Rattle.std.specs.Prelude.{◌≡◌};
ghost use Rattle.measures.specs.Walks.{Reachable, Fewest};
ghost use Rattle.settle_c.specs.Status.{Status, status_of};

use measures::reach::settle_reach;
use measures::settling::Refusal;
use measures::steps::settle_steps;

// Two exports and not one, since C calls each by its name.
/// Settles a yes/no table; answers 0, or the number of the refusal.
#[unsafe(no_mangle)]
pub extern "C" fn jam21_settle_reach(cells: &mut [u8], side: usize) -> u8
    ensures { Status Reachable side cells.old cells.new result }
{
    status(settle_reach(cells, side))
}

/// Settles a table of step counts; answers 0, or the number of the refusal.
#[unsafe(no_mangle)]
pub extern "C" fn jam21_settle_steps(cells: &mut [u8], side: usize) -> u8
    ensures { Status Fewest side cells.old cells.new result }
{
    status(settle_steps(cells, side))
}

// A number, as C takes it.
fn status(outcome: Result<(), Refusal>) -> u8
    ensures { result ≡ status_of outcome }
{
    match outcome {
        Ok(()) => 0,
        Err(refusal) => refusal.number(),
    }
}

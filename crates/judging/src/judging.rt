// Judging: the sheet of a graph under a push order.
ghost use Rattle.graph.specs.Holds.{added_events};
ghost use Rattle.judging.specs.Judging.{Judges};

use crate::finding::{Finding, find};
use graph::graph::Graph;
use graph::refusal::{Refusal, Refused};
use profiles::profile::Profile;
use sheets::writing::{LEAST_BUFFER, write_sheet};

/// Judges a graph under a profile and a push order: writes its sheet to the front of `buffer` and answers the sheet's length.
///
/// The verdict is a source cycle where there is one, else a coherence cycle where there is one under `list`, else clear. A cycle is shown by
/// its steps: it has the fewest of any that breaks that axiom, no event twice, and starts at its lowest event. The rest of `buffer` is as it was.
///
/// Refusals, in this order: 16 where `buffer` is shorter than 384 bytes; 11 where `list` is not the pushing events, each once; 12 where there
/// is no source cycle and `list` is not lawful. Then `buffer` is as it was.
// No heap: the sheet goes into lent memory, and its length is the answer.
pub fn judge<P: Profile>(
    graph: &Graph<'_>,
    profile: &P,
    list: &[u8],
    buffer: &mut [u8],
) -> Result<usize, Refused>
    ensures { Judges (P.meaning profile.now) (added_events graph.now) list.now buffer.old buffer.new result }
{
    // Each call that writes tests its buffer itself, at its own place among its refusals.
    if buffer.len() < LEAST_BUFFER {
        return Err(Refusal::BufferTooShort.into());
    }
    let Finding { verdict, steps } = find(graph, profile, list)?;
    write_sheet(verdict, list, steps.as_slice(), buffer)
}

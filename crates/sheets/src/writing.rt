// Writing a sheet.
ghost use Rattle.sheets.specs.Written.{Written};

use crate::step::{STEP_SIZE, Step};
use crate::verdict::Verdict;
use graph::graph::MOST_EVENTS;
use graph::refusal::{Refusal, Refused};
use measures::settling::LARGEST;

/// The least length of a buffer that a sheet is written to.
pub const LEAST_BUFFER: usize = 384;

/// The most events that a sheet's push order can have: the most that can be added.
pub const MOST_LISTED: usize = MOST_EVENTS;

/// The most steps that a sheet can have: as many as a graph has events.
pub const MOST_STEPS: usize = LARGEST;

// No heap: the sheet goes into lent memory, and its length is the answer.
/// Writes a sheet to the front of `buffer`, and answers its length; the rest of `buffer` is as it was.
///
/// Where `buffer` is shorter than 384 bytes, `order` has more than 56 events or there are more than 64 steps, the
/// answer is `BufferTooShort` and `buffer` is as it was.
pub fn write_sheet(
    verdict: Verdict,
    order: &[u8],
    steps: &[Step],
    buffer: &mut [u8],
) -> Result<usize, Refused>
    ensures { Written (record { verdict = verdict; order = order.now; steps = steps.now }) buffer.old buffer.new result }
{
    // Each call that writes tests its buffer itself, at its own place among its refusals.
    if buffer.len() < LEAST_BUFFER || order.len() > MOST_LISTED || steps.len() > MOST_STEPS {
        return Err(Refusal::BufferTooShort.into());
    }
    buffer[0] = verdict.number();
    buffer[1] = order.len() as u8;
    let end = 2 + order.len();
    buffer[2..end].copy_from_slice(order);
    buffer[end] = steps.len() as u8;
    let front = end + 1;
    // Not `zip` with `chunks_exact_mut`, since a proof knows no value of a slice that it has lent.
    for (place, step) in steps.iter().enumerate() {
        let at = front + place * STEP_SIZE;
        buffer[at..at + STEP_SIZE].copy_from_slice(&step.bytes());
    }
    Ok(front + steps.len() * STEP_SIZE)
}

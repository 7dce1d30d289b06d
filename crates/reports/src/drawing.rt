// An execution graph as text: a column for each thread, a line for each place in program order.
use graph::code::{Code, FenceMode, ReadMode, WriteMode};
use graph::event::{Event, INITIAL};
use graph::lookup::event_at;
use std::alloc::{AllocError, Global};
use std::fmt;

/// How wide a column is.
const WIDTH: usize = 28;

/// How many threads there are.
const THREADS: u8 = 8;

/// A code as it is written in litmus tests: `R acq`.
#[derive(Clone, Copy)]
pub struct CodeName(pub Code);

impl fmt::Display for CodeName {
    fn fmt<W: fmt::Write>(&self, f: &mut fmt::Formatter<W>) -> fmt::Result {
        f.write_str(match self.0 {
            Code::Read(ReadMode::Na) => "R na",
            Code::Read(ReadMode::Rlx) => "R rlx",
            Code::Read(ReadMode::Acq) => "R acq",
            Code::Read(ReadMode::Sc) => "R sc",
            Code::Write(WriteMode::Na) => "W na",
            Code::Write(WriteMode::Rlx) => "W rlx",
            Code::Write(WriteMode::Rel) => "W rel",
            Code::Write(WriteMode::Sc) => "W sc",
            Code::Fence(FenceMode::Acq) => "F acq",
            Code::Fence(FenceMode::Rel) => "F rel",
            Code::Fence(FenceMode::Sc) => "F sc",
        })
    }
}

/// An event with its number: `9 W rel x1 = 1`, `10 R acq x1 = 1 from 9`, `12 F sc`.
#[derive(Clone, Copy)]
pub struct Label<'a> {
    pub events: &'a [Event],
    pub number: u8,
}

impl fmt::Display for Label<'_> {
    fn fmt<W: fmt::Write>(&self, f: &mut fmt::Formatter<W>) -> fmt::Result {
        let number = self.number;
        let Some(event) = event_at(self.events, number) else {
            return write!(f, "{number} absent");
        };
        let Event {
            code,
            location,
            value,
            source,
            ..
        } = event;
        write!(f, "{number} {}", CodeName(code))?;
        match source {
            Some(source) => {
                let value = event_at(self.events, source).map_or(0, |write| write.value);
                write!(f, " x{location} = {value} from {source}")
            }
            None if code.is_fence() => Ok(()),
            None => write!(f, " x{location} = {value}"),
        }
    }
}

/// The drawing. Threads without events have no column.
pub fn draw(heap: Global, events: &[Event]) -> Result<String, AllocError> {
    // The threads with events are sought once; a line asks these alone.
    let mut threads = Vec::new(heap);
    for thread in (0..THREADS).filter(|thread| number_in_thread(events, *thread, 0).is_some()) {
        threads.push(thread)?;
    }
    let mut text = draw_line(
        heap,
        &threads,
        |thread| -> Result<Option<String>, AllocError> {
            Ok(Some(format!(in heap; "thread {thread}")?))
        },
    )?;
    text.push('\n')?;
    // A row is how many events of its thread come before, and no place of the slice; the first without a cell is behind the last.
    for row in 0..events.len() {
        let line = draw_line(
            heap,
            &threads,
            |thread| -> Result<Option<String>, AllocError> {
                let Some(number) = number_in_thread(events, thread, row) else {
                    return Ok(None);
                };
                Ok(Some(format!(in heap; "{}", Label { events, number })?))
            },
        )?;
        // An empty line is none: it is printed nowhere.
        if line.is_empty() {
            break;
        }
        text.push_str(line.as_str())?;
        text.push('\n')?;
    }
    Ok(text)
}

// A line with the cell of each of these threads, where it has one, in the thread's column.
fn draw_line<F: Fn(u8) -> Result<Option<String>, AllocError>>(
    heap: Global,
    threads: &[u8],
    cell_of: F,
) -> Result<String, AllocError>
    requires { F.IsAlwaysCallable cell_of }
{
    let mut line = String::new(heap);
    for (column, thread) in threads.iter().enumerate() {
        if let Some(cell) = cell_of(*thread)? {
            // Blanks up to the column, which take no value of the range.
            for _ in line.len()..column.saturating_mul(WIDTH) {
                line.push(' ')?;
            }
            line.push_str(cell.as_str())?;
        }
    }
    Ok(line)
}

// The number of the event of a thread that has `row` events of it before it.
fn number_in_thread(events: &[Event], thread: u8, row: usize) -> Option<u8> {
    // Numbers end at 255, which stands for all events behind it too; a graph has none of these.
    events
        .iter()
        .enumerate()
        .filter(|(_, event)| event.thread == thread)
        .nth(row)
        .map(|(at, _)| at.saturating_add(INITIAL as usize).min(u8::MAX as usize) as u8)
}

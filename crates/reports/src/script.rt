// A script of calls, one to a line: `add 0 W rlx 0 1`, `source 10 9`, `back`, with `#` comments.
use graph::call::Call;
use graph::code::{Code, FenceMode, ReadMode, WriteMode};
use std::fmt;
use std::str::{FromStr, SplitWhitespace};

/// Why a line is no call.
#[derive(Clone, Copy, PartialEq, Eq, Debug)]
pub enum BadLine {
    UnknownCall,
    UnknownCode,
    NotANumber,
    MissingWord,
    ExtraWord,
}

impl fmt::Display for BadLine {
    fn fmt<W: fmt::Write>(&self, f: &mut fmt::Formatter<W>) -> fmt::Result {
        f.write_str(match self {
            BadLine::UnknownCall => "a call is `add`, `source` or `back`",
            BadLine::UnknownCode =>
                "a code is R, W or F with a mode, as in `R acq`, or a number up to 255",
            BadLine::NotANumber => "a number up to 255, or a value of 32 bits, is wanted",
            BadLine::MissingWord => "the call lacks an argument",
            BadLine::ExtraWord => "a word follows the call",
        })
    }
}

/// The call that a line tells, if any: nothing but a comment after `#` tells none.
///
/// `add THREAD CODE LOCATION VALUE` takes a code by its letter and mode or by its number; location and
/// value may be left out, and are 0 then.
pub fn read_call(line: &str) -> Result<Option<Call>, BadLine> {
    let text = line.split_once('#').map_or(line, |(before, _)| before);
    let mut words = text.split_whitespace();
    let Some(name) = words.next() else {
        return Ok(None);
    };
    let call = match name {
        "add" => read_addition(&mut words)?,
        "source" => Call::Source {
            read: read_number(next_word(&mut words)?)?,
            write: read_number(next_word(&mut words)?)?,
        },
        "back" => Call::TakeBack,
        _ => return Err(BadLine::UnknownCall),
    };
    if words.next().is_some() {
        return Err(BadLine::ExtraWord);
    }
    Ok(Some(call))
}

// The arguments of `add`.
fn read_addition(words: &mut SplitWhitespace<'_>) -> Result<Call, BadLine> {
    let thread = read_number(next_word(words)?)?;
    let kind = next_word(words)?;
    let code = match kind {
        "R" | "W" | "F" => read_code(kind, next_word(words)?)?.number(),
        _ => read_number(kind)?,
    };
    let location = words.next().map_or(Ok(0), read_number)?;
    let value = words.next().map_or(Ok(0), read_number)?;
    Ok(Call::Add {
        thread,
        code,
        location,
        value,
    })
}

// A code by its letter and its mode. The names stand here and in `CodeName`, since a `match` over text and one over codes are each
// plainer than a table that serves both.
fn read_code(kind: &str, mode: &str) -> Result<Code, BadLine> {
    match (kind, mode) {
        ("R", "na") => Ok(Code::Read(ReadMode::Na)),
        ("R", "rlx") => Ok(Code::Read(ReadMode::Rlx)),
        ("R", "acq") => Ok(Code::Read(ReadMode::Acq)),
        ("R", "sc") => Ok(Code::Read(ReadMode::Sc)),
        ("W", "na") => Ok(Code::Write(WriteMode::Na)),
        ("W", "rlx") => Ok(Code::Write(WriteMode::Rlx)),
        ("W", "rel") => Ok(Code::Write(WriteMode::Rel)),
        ("W", "sc") => Ok(Code::Write(WriteMode::Sc)),
        ("F", "acq") => Ok(Code::Fence(FenceMode::Acq)),
        ("F", "rel") => Ok(Code::Fence(FenceMode::Rel)),
        ("F", "sc") => Ok(Code::Fence(FenceMode::Sc)),
        _ => Err(BadLine::UnknownCode),
    }
}

// The next word, where the call wants one.
fn next_word<'a>(words: &mut SplitWhitespace<'a>) -> Result<&'a str, BadLine> {
    words.next().ok_or(BadLine::MissingWord)
}

fn read_number<T: FromStr>(word: &str) -> Result<T, BadLine>
where
    T::Err: Drop,
{
    word.parse().map_err(|_| BadLine::NotANumber)
}

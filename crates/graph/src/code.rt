// What an event is: a read, a write or a fence, and its mode.
ghost use Rattle.std.specs.Prelude.{◌≡◌, Some};
ghost use Rattle.std.specs.List.{slice_get};
ghost use Rattle.graph.specs.Codes.{codes, numbered, is_read, is_write, is_fence, is_access};

use crate::refusal::Refusal;

#[derive(Clone, Copy, PartialEq, Eq, Debug)]
pub enum ReadMode {
    Na,
    Rlx,
    Acq,
    Sc,
}

#[derive(Clone, Copy, PartialEq, Eq, Debug)]
pub enum WriteMode {
    Na,
    Rlx,
    Rel,
    Sc,
}

#[derive(Clone, Copy, PartialEq, Eq, Debug)]
pub enum FenceMode {
    Acq,
    Rel,
    Sc,
}

#[derive(Clone, Copy, PartialEq, Eq, Debug)]
pub enum Code {
    Read(ReadMode),
    Write(WriteMode),
    Fence(FenceMode),
}

/// The code of a number: 0 to 10.
impl TryFrom<u8> for Code {
    type Error = Refusal;

    ghost try_from_gives = { λ number r. r ≡ numbered number };

    fn try_from(number: u8) -> Result<Code, Refusal> {
        match number {
            0 => Ok(Code::Read(ReadMode::Na)),
            1 => Ok(Code::Read(ReadMode::Rlx)),
            2 => Ok(Code::Read(ReadMode::Acq)),
            3 => Ok(Code::Read(ReadMode::Sc)),
            4 => Ok(Code::Write(WriteMode::Na)),
            5 => Ok(Code::Write(WriteMode::Rlx)),
            6 => Ok(Code::Write(WriteMode::Rel)),
            7 => Ok(Code::Write(WriteMode::Sc)),
            8 => Ok(Code::Fence(FenceMode::Acq)),
            9 => Ok(Code::Fence(FenceMode::Rel)),
            10 => Ok(Code::Fence(FenceMode::Sc)),
            _ => Err(Refusal::CodeTooHigh),
        }
    }
}

impl Code {
    // Written out, since a code is a kind that holds a mode and so has no discriminant of its own.
    /// The number of a code.
    pub fn number(self) -> u8
        ensures { slice_get codes result ≡ Some self }
    {
        match self {
            Code::Read(ReadMode::Na) => 0,
            Code::Read(ReadMode::Rlx) => 1,
            Code::Read(ReadMode::Acq) => 2,
            Code::Read(ReadMode::Sc) => 3,
            Code::Write(WriteMode::Na) => 4,
            Code::Write(WriteMode::Rlx) => 5,
            Code::Write(WriteMode::Rel) => 6,
            Code::Write(WriteMode::Sc) => 7,
            Code::Fence(FenceMode::Acq) => 8,
            Code::Fence(FenceMode::Rel) => 9,
            Code::Fence(FenceMode::Sc) => 10,
        }
    }

    pub fn is_read(self) -> bool
        ensures { result ≡ is_read self }
    {
        matches!(self, Code::Read(_))
    }

    pub fn is_write(self) -> bool
        ensures { result ≡ is_write self }
    {
        matches!(self, Code::Write(_))
    }

    pub fn is_fence(self) -> bool
        ensures { result ≡ is_fence self }
    {
        matches!(self, Code::Fence(_))
    }

    /// A read or a write.
    pub fn is_access(self) -> bool
        ensures { result ≡ is_access self }
    {
        matches!(self, Code::Read(_) | Code::Write(_))
    }
}

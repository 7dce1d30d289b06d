// Why a call of the marker is refused.
ghost use Rattle.std.specs.Prelude.{◌≡◌, ◌==◌, Decides};
ghost use Rattle.graph.specs.Refusals.{number as «number_of_lem», plain as «plain_of_lem»};
ghost use Rattle.std.specs.Cmp.Rules.{comparing};
ghost use Rattle.std.proofs.Common.{rules};

use std::fmt;

/// The refusals of every call of the marker, by rising number from 1.
#[derive(Clone, Copy, Eq, Debug)]
pub enum Refusal {
    NoRoom = 1,
    ThreadTooHigh,
    CodeTooHigh,
    BadLocation,
    BadValue,
    StepsFull,
    NotAnAddedRead,
    NotItsWrite,
    NoStep,
    AbsentEvent,
    NotThePushingEvents,
    NotLawful,
    TooManyPush,
    NoLawfulOrder,
    BadSide,
    BufferTooShort,
    RecordCut,
    BytesAfterRecord,
    GraphNotNew,
    BadLayout,
    StepFails,
    WrongVerdict,
}

/// A refusal, and the place in a record or a sheet that it is about: both 0 where it is about none.
#[derive(Clone, Copy, Debug, PartialEq, Eq)]
pub struct Refused {
    pub refusal: Refusal,
    // Numbers and no `Option`: a section may be at fault with no entry, and outside a refusal is three numbers.
    /// The section, from 1.
    pub section: u8,
    /// The entry of the section, from 1. A section counts its entries in one byte.
    pub entry: u8,
}

impl Refusal {
    /// The number of a refusal: 1 to 22.
    pub fn number(self) -> u8
        ensures { result ≡ «number_of_lem» self }
    {
        self as u8
    }
}

impl Refused {
    // `From` below serves `?`; this is the name by which a contract or a test speaks of such a refusal.
    /// A refusal that is about no place in a record or a sheet.
    pub fn plain(refusal: Refusal) -> Refused
        ensures { result ≡ «plain_of_lem» refusal }
    {
        Refused {
            refusal,
            section: 0,
            entry: 0,
        }
    }
}

impl From<Refusal> for Refused {
    ghost from_gives = { λ refusal r. r ≡ «plain_of_lem» refusal };

    fn from(refusal: Refusal) -> Refused {
        Refused::plain(refusal)
    }
}

// Written out, so that its contract says in one clause that two refusals are equal exactly if they are one.
impl PartialEq for Refusal {
    ghost eq = { λ x y. «number_of_lem» x == «number_of_lem» y };

    ghost laws = { Prim.search (comparing, rules) };

    fn eq(&self, other: &Refusal) -> bool
        ensures value { result ≡ («number_of_lem» self.now == «number_of_lem» other.now) }
        ensures decides { Decides result (self.now ≡ other.now) }
    {
        self.number() == other.number()
    }
}

/// A sentence that says what was refused.
impl fmt::Display for Refusal {
    fn fmt<W: fmt::Write>(&self, f: &mut fmt::Formatter<W>) -> fmt::Result {
        f.write_str(match self {
            Refusal::NoRoom => "there is no room for another event",
            Refusal::ThreadTooHigh => "the thread is above 7",
            Refusal::CodeTooHigh => "the code is above 10",
            Refusal::BadLocation => "the location is above 7, or a fence has one that is not 0",
            Refusal::BadValue => "a read or a fence has a value that is not 0",
            Refusal::StepsFull => "256 steps stand",
            Refusal::NotAnAddedRead => "the event to source is not an added read",
            Refusal::NotItsWrite => "the source is not a write of the read's location",
            Refusal::NoStep => "no step stands",
            Refusal::AbsentEvent => "there is no event of that number",
            Refusal::NotThePushingEvents => "the list is not the pushing events, each once",
            Refusal::NotLawful => "the push order is not lawful",
            Refusal::TooManyPush => "more than eight events push",
            Refusal::NoLawfulOrder => "there is no lawful push order",
            Refusal::BadSide => "the side is above 64, or the length is not its square",
            Refusal::BufferTooShort => "the output buffer is too short, or the list is above 56",
            Refusal::RecordCut => "the record ends inside a section",
            Refusal::BytesAfterRecord => "bytes follow the record",
            Refusal::GraphNotNew => "the graph to read into has standing steps",
            Refusal::BadLayout => "the sheet breaks its layout, or names an absent event",
            Refusal::StepFails => "a step does not hold by its rule",
            Refusal::WrongVerdict => "the verdict is not the graph's",
        })
    }
}

// The JAM21 profile: the Java memory model of 2021.
ghost use Rattle.std.specs.Prelude.{◌≡◌, ◌&&◌, ◌||◌, Decides, nat_le};
ghost use Rattle.profiles.specs.Jam21.{jam21};
ghost use Rattle.profiles.specs.Meaning.{Told};
ghost use Rattle.profiles.specs.Rules.{Ra, Svo, Spush, Volint, Kept, Pushed};
ghost use Rattle.profiles.specs.Summed.{rules_of};
ghost use Rattle.profiles.specs.Jam21Rules.{jam21_lawful};

use crate::mode::{is_marking, is_sc_access};
use crate::profile::Profile;
use crate::scan::Summary;
use graph::event::{Event, INITIAL};

/// Which of the four rules hold for a pair of events; by default none does.
#[derive(Clone, Copy, PartialEq, Eq, Default, Debug)]
pub struct Rules {
    /// An added access of mode sc, rel or acq stands at `a`, at `b` or between them.
    pub ra: bool,
    /// Strictly between stand a release fence, an access and an acquire fence, in this order.
    pub svo: bool,
    /// An sc fence stands strictly between.
    pub spush: bool,
    /// Both are sc accesses.
    pub volint: bool,
}

impl Rules {
    /// The rules that hold for the pair `a`, `b`; none does unless `a` precedes `b` in program
    /// order. The profile keeps the pair if any holds, and pushes it by the last two.
    pub fn of(events: &[Event], a: u8, b: u8) -> Rules
        ensures ra { Decides result.ra (Ra events.now a b) }
        ensures svo { Decides result.svo (Svo events.now a b) }
        ensures spush { Decides result.spush (Spush events.now a b) }
        ensures volint { Decides result.volint (Volint events.now a b) }
        ensures kept { Told (((result.ra || result.svo) || result.spush) || result.volint) (jam21.kept events.now a b) (Kept events.now a b) }
        ensures pushed { Told (nat_le 8 a && (result.spush || result.volint)) (jam21.pushed events.now a b) (Pushed events.now a b) }
    {
        Summary::of(events, a, b).map_or(Rules::default(), Rules::from)
    }

    /// Does a rule keep the pair?
    pub fn keeps(self) -> bool
        ensures { result ≡ (((self.ra || self.svo) || self.spush) || self.volint) }
    {
        self.ra || self.svo || self.spush || self.volint
    }

    /// Does a rule push the pair, whose first event is `first`?
    pub fn pushes(self, first: u8) -> bool
        ensures { result ≡ (nat_le 8 first && (self.spush || self.volint)) }
    {
        first >= INITIAL && (self.spush || self.volint)
    }
}

/// The rules that hold for a pair in program order, by its summary.
impl From<Summary> for Rules {
    ghost from_gives = { λ pair rules. rules ≡ rules_of pair };

    fn from(pair: Summary) -> Rules {
        Rules {
            ra: is_marking(pair.first) || is_marking(pair.last) || pair.met.marked,
            svo: pair.met.stage.is_complete(),
            spush: pair.met.fenced,
            volint: is_sc_access(pair.first) && is_sc_access(pair.last),
        }
    }
}

/// Keeps the pairs of the four rules, and pushes those of spush and volint whose first event is
/// an added one.
#[derive(Clone, Copy, PartialEq, Eq, Debug)]
pub struct Jam21;

impl Profile for Jam21 {
    ghost meaning = { λ _. jam21 };

    ghost lawful = { λ p. jam21_lawful };

    fn keeps(&self, events: &[Event], a: u8, b: u8) -> bool
        ensures value { result ≡ jam21.kept events.now a b }
        ensures rules { Decides result (Kept events.now a b) }
    {
        Rules::of(events, a, b).keeps()
    }

    fn pushes(&self, events: &[Event], a: u8, b: u8) -> bool
        ensures value { result ≡ jam21.pushed events.now a b }
        ensures rules { Decides result (Pushed events.now a b) }
    {
        Rules::of(events, a, b).pushes(a)
    }
}

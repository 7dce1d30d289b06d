// The pairs of events that a profile keeps and pushes.
ghost use Rattle.std.specs.Prelude.{◌≡◌, ◌*◌, ◌≤◌, length, MatchResult};
ghost use Rattle.axioms.specs.EventTables.{Tells};
ghost use Rattle.axioms.specs.Relations.{Kept, Pushed};
ghost use Rattle.axioms.specs.Tables.{Drawn, TooMany};

use crate::relation::{Relation, RelationFamily};
use crate::table::EventTable;
use graph::event::Event;
use graph::order::precedes;
use measures::settling::Refusal;
use profiles::profile::Profile;

/// The kept and the pushed pairs of a graph's events, as two yes/no tables that a profile was asked for once.
#[derive(Drop)]
pub struct Pairs {
    pub(crate) kept: EventTable,
    pub(crate) pushed: EventTable,
    ghost one_side: { pushed.side ≡ kept.side },
}

impl Pairs {
    ghost use Rattle.axioms.specs.Asked.{Asked, AskedOf};

    /// Asks a profile about the pairs of a graph's events, each question at most once. `events` are the added events.
    ///
    /// More than 56 added events are refused.
    pub fn ask<P: Profile>(profile: &P, events: &[Event]) -> Result<Pairs, Refusal>
        ensures { MatchResult result (Asked (P.meaning profile.now) events.now) (TooMany events.now) }
    {
        let kept = EventTable::of(events, &KeptPairs { profile, events })?;
        let pushed = EventTable::of_family(
            events,
            &PushedPairs {
                profile,
                events,
                kept: &kept,
            },
        )?;
        Ok(Pairs { kept, pushed })
    }

    /// How many rows and columns each table has.
    pub fn side(&self) -> usize
        ensures value { result ≡ self.now.kept.side }
        ensures small { result ≤ 64 }
    {
        self.kept.side()
    }

    /// The table of the kept pairs, row by row.
    pub fn kept(&self) -> &[u8]
        ensures size { length result.now ≡ self.now.kept.side * self.now.kept.side }
        ensures told { AskedOf self.now (λ m es. Drawn (Kept m es) self.now.kept.side result.now) }
    {
        self.kept.cells()
    }

    /// The table of the pushed pairs, row by row.
    pub fn pushed(&self) -> &[u8]
        ensures size { length result.now ≡ self.now.kept.side * self.now.kept.side }
        ensures told { AskedOf self.now (λ m es. Drawn (Pushed m es) self.now.kept.side result.now) }
    {
        self.pushed.cells()
    }
}

// The pairs that a profile keeps. It is asked about pairs in program order alone: it keeps no other.
#[derive(Clone, Copy)]
struct KeptPairs<'a, P> {
    profile: &'a P,
    events: &'a [Event],
}

impl<P: Profile> Relation for KeptPairs<'_, P> {
    ghost related = { λ s a b. Kept (P.meaning s.profile.now) s.events.now a b };

    fn holds(&self, a: u8, b: u8) -> bool {
        precedes(self.events, a, b) && self.profile.keeps(self.events, a, b)
    }
}

// The pairs that a profile pushes. It is asked about kept pairs alone: it pushes no other.
#[derive(Clone, Copy)]
struct PushedPairs<'a, P> {
    profile: &'a P,
    events: &'a [Event],
    kept: &'a EventTable,
}

impl<P: Profile> RelationFamily for PushedPairs<'_, P> {
    ghost known = { λ s. Tells (Unit {0}) (λ _. Kept (P.meaning s.profile.now) s.events.now) s.events.now s.kept.now };

    ghost related = { λ s _ a b. Pushed (P.meaning s.profile.now) s.events.now a b };

    fn holds(&self, a: u8, b: u8) -> bool {
        self.kept.says(a, b) && self.profile.pushes(self.events, a, b)
    }
}

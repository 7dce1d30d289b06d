// The pairs of events that a profile keeps and pushes, in words.
ghost use Rattle.std.specs.Prelude.{◌≡◌, true, false, MatchOption};
ghost use Rattle.profiles.specs.Rules.{Kept};
ghost use Rattle.profiles.specs.Strict.{strict};

use graph::event::Event;
use profiles::jam21::Rules;
use profiles::profile::Profile;
use profiles::strict::Strict;
use std::fmt;

/// A pair with the JAM21 rules that keep it: `8 -> 10 kept by ra spush, pushed`.
#[derive(Clone, Copy)]
pub struct RulePair {
    pub first: u8,
    pub second: u8,
    pub rules: Rules,
}

impl RulePair {
    /// The pair, where some rule keeps it.
    pub fn of(events: &[Event], first: u8, second: u8) -> Option<RulePair>
        ensures { MatchOption result (Kept events.now first second → ⊥) (λ p. (p.first ≡ first) × ((p.second ≡ second) × Kept events.now first second)) }
    {
        let rules = Rules::of(events, first, second);
        rules.keeps().then_some(RulePair {
            first,
            second,
            rules,
        })
    }
}

impl fmt::Display for RulePair {
    fn fmt<W: fmt::Write>(&self, f: &mut fmt::Formatter<W>) -> fmt::Result {
        let RulePair {
            first,
            second,
            rules,
        } = *self;
        write!(f, "{first} -> {second} kept by")?;
        let names = [
            (rules.ra, " ra"),
            (rules.svo, " svo"),
            (rules.spush, " spush"),
            (rules.volint, " volint"),
            (rules.pushes(first), ", pushed"),
        ];
        for (holds, name) in names {
            if holds {
                f.write_str(name)?;
            }
        }
        Ok(())
    }
}

/// A pair that the strict profile keeps and pushes: `8 -> 10 kept, pushed`.
#[derive(Clone, Copy)]
pub struct StrictPair {
    pub first: u8,
    pub second: u8,
}

impl StrictPair {
    /// The pair, where the first event is an added one that precedes the second in program order.
    pub fn of(events: &[Event], first: u8, second: u8) -> Option<StrictPair>
        ensures { MatchOption result (strict.pushed events.now first second ≡ false) (λ p. (p.first ≡ first) × ((p.second ≡ second) × (strict.pushed events.now first second ≡ true))) }
    {
        Strict
            .pushes(events, first, second)
            .then_some(StrictPair { first, second })
    }
}

impl fmt::Display for StrictPair {
    fn fmt<W: fmt::Write>(&self, f: &mut fmt::Formatter<W>) -> fmt::Result {
        write!(f, "{} -> {} kept, pushed", self.first, self.second)
    }
}

// A profile of another crate: total store order, as a maker of an x86-like chip might write it.
#![tactic(auto)]

ghost use Rattle.std.specs.Prelude.{◌≡◌};
ghost use Rattle.tso.specs.Tso.{delayed, tso, Rules-stand};
ghost use Rattle.tso.specs.TsoLaws.{tso_lawful};

use graph::code::Code;
use graph::event::{Event, INITIAL};
use profiles::profile::Profile;
use profiles::scan::Summary;

/// Keeps every pair in program order except from a write to a read, since a write may wait in the
/// store buffer while a later read goes ahead, and every pair with an sc fence strictly between.
/// Pushes the pairs with an sc fence strictly between whose first event is an added one.
#[derive(Clone, Copy, PartialEq, Eq, Debug)]
pub struct Tso;

impl Profile for Tso {
    ghost meaning = { λ _. tso };

    ghost lawful = { λ p. tso_lawful };

    fn keeps(&self, events: &[Event], a: u8, b: u8) -> bool {
        Summary::of(events, a, b).is_some_and(|pair| {
            pair.met.fenced || !is_delayed(pair.first, pair.last)
        })
    }

    fn pushes(&self, events: &[Event], a: u8, b: u8) -> bool {
        a >= INITIAL && Summary::of(events, a, b).is_some_and(|pair| pair.met.fenced)
    }
}

/// May a store buffer hold `first` back behind `last`? It may if that is a write before a read.
pub fn is_delayed(first: Code, last: Code) -> bool
    ensures { result ≡ delayed first last }
{
    first.is_write() && last.is_read()
}

/// The theorem that the profile is what its rules say: a pair is kept, or pushed, exactly if the
/// relation holds, in every list of events.
pub fn rules_stand()
    ensures { Rules-stand }
{}

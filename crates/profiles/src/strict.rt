// The strict profile.
ghost use Rattle.profiles.specs.Strict.{strict};
ghost use Rattle.profiles.specs.StrictLaws.{strict_lawful};

use crate::profile::Profile;
use graph::event::{Event, INITIAL};
use graph::order::precedes;

/// Keeps every pair in program order, and pushes every such pair of two added events.
#[derive(Clone, Copy, PartialEq, Eq, Debug)]
pub struct Strict;

impl Profile for Strict {
    ghost meaning = { λ _. strict };

    ghost lawful = { λ p. strict_lawful };

    fn keeps(&self, events: &[Event], a: u8, b: u8) -> bool {
        precedes(events, a, b)
    }

    fn pushes(&self, events: &[Event], a: u8, b: u8) -> bool {
        a >= INITIAL && precedes(events, a, b)
    }
}

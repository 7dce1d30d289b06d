// What an ordering profile is.
ghost use Rattle.std.specs.Prelude.{◌≡◌};
ghost use Rattle.profiles.specs.Meaning.{Meaning};
ghost use Rattle.profiles.specs.Laws.{Lawful};
ghost use Rattle.profiles.specs.Lasting.{Lasting};

use graph::event::Event;

/// Answers two questions about a pair of events, given by number: is `a` kept before `b`, and is
/// `a` pushed to `b`? `events` are the added events. A question is never refused and changes
/// nothing, and a number that names no event gets no.
///
/// What a profile means is one value, the two sets of pairs for each list of events; `lawful`
/// has the facts that every implementation shows of it.
// The list and both numbers stay apart, as every relation of the field takes them.
pub trait Profile {
    ghost meaning: { Self → Meaning };

    /// Is `a` kept before `b`? Yes exactly if the pair is in the set of kept pairs.
    fn keeps(&self, events: &[Event], a: u8, b: u8) -> bool
        ensures { result ≡ (meaning self.now).kept events.now a b };

    /// Is `a` pushed to `b`? Yes exactly if the pair is in the set of pushed pairs.
    fn pushes(&self, events: &[Event], a: u8, b: u8) -> bool
        ensures { result ≡ (meaning self.now).pushed events.now a b };

    ghost lawful: { (p : Self) → Lawful (meaning p) };
}

/// The theorem that the answers of every profile last: no other source, no later event and no other
/// thread changes one. It is for callers' proofs and does nothing.
pub fn answers_last<P: Profile>(profile: &P)
    ensures { Lasting (P.meaning profile.now) }
{
    let _ = profile;
}

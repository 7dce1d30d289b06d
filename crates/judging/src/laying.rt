// The steps of a cycle as a sheet has them.
ghost use Rattle.std.specs.Prelude.{◌≡◌, ℕ, ◌<◌, ◌≤◌, List, length};
ghost use Rattle.cycles.specs.Cycles.{Closed};
ghost use Rattle.coherence.specs.declared.naming.NamedStep.{NamedStep};
ghost use Rattle.axioms.specs.Relations.{SourceStep};
ghost use Rattle.coherence.specs.Sights.{Throughout};
ghost use Rattle.coherence.specs.Naming.{Named};
ghost use Rattle.judging.specs.Laying.{SourceNamed, SomeCo, Laid, next};

use crate::steps::{BLANK, Steps};
use axioms::rule::{NO_READER, Rule};
use coherence::naming::NamedStep;
use coherence::sight::Sight;
use graph::event::Event;
use graph::order::precedes;
use sheets::step::Step;
use sheets::writing::MOST_STEPS;

/// Names the steps of a relation by rule and readers.
pub(crate) trait Namer {
    ghost related: { Self → ℕ → ℕ → Type 0 };

    ghost named: { Self → ℕ → ℕ → NamedStep → Type 0 };

    fn name(&self, from: u8, to: u8) -> NamedStep
        requires { related self.now from to }
        ensures { named self.now from to result };
}

/// Names the steps of program order and reads-from.
#[derive(Clone, Copy)]
pub(crate) struct SourceNamer<'a> {
    pub events: &'a [Event],
}

impl Namer for SourceNamer<'_> {
    ghost related = { λ s p q. SourceStep s.events.now p q };

    ghost named = { λ s p q n. SourceNamed s.events.now p q n };

    fn name(&self, from: u8, to: u8) -> NamedStep {
        let rule = if precedes(self.events, from, to) {
            Rule::ProgramOrder
        } else {
            Rule::ReadsFrom
        };
        // Written out: no rule of coherence is named here, for which the crate below has a name.
        NamedStep {
            rule,
            reader: NO_READER,
            second: NO_READER,
        }
    }
}

/// Names the steps of coherence.
#[derive(Clone, Copy)]
pub(crate) struct CoherenceNamer<'e, 't> {
    pub sight: Sight<'e, 't>,
}

impl Namer for CoherenceNamer<'_, '_> {
    ghost related = { λ s p q. SomeCo s.sight p q };

    ghost named = { λ s p q n. Throughout s.sight (λ es m L. Named m es L p q n) };

    fn name(&self, from: u8, to: u8) -> NamedStep {
        let Some(step) = self.sight.name_step(from, to) else {
            unreachable()
        };
        step
    }
}

/// Lays a closed chain of events out as steps.
pub(crate) fn lay<N: Namer>(namer: &N, cycle: &[u8]) -> Steps
    requires few { length cycle.now ≤ 64 }
    requires closed { Closed (N.related namer.now) cycle.now }
    ensures { Laid (N.named namer.now) cycle.now result }
{
    let mut laid = [BLANK; MOST_STEPS];
    // Not `zip`, since a proof knows no value that `iter_mut` has lent to it.
    for (place, &from) in cycle.iter().enumerate() {
        let to = next_of(cycle, place);
        let NamedStep {
            rule,
            reader,
            second,
        } = namer.name(from, to);
        laid[place] = Step {
            from,
            to,
            rule,
            reader,
            second,
        };
    }
    Steps {
        laid,
        count: cycle.len(),
    }
}

// The event after a place of a cycle, and behind the last the first.
fn next_of(cycle: &[u8], place: usize) -> u8
    requires { place < length cycle.now }
    ensures { result ≡ next cycle.now place }
{
    cycle.get(place + 1).copied().unwrap_or(cycle[0])
}

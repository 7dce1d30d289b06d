// Finding the verdict of a graph, with the steps that show it.
ghost use Rattle.std.specs.Prelude.{ℕ, ◌≤◌, List, length, MatchOption, MatchResult};
ghost use Rattle.graph.specs.Holds.{added_events};
ghost use Rattle.profiles.specs.Meaning.{Meaning};
ghost use Rattle.axioms.specs.Relations.{SourceStep, Co, SourceCycle, CoherenceCycle};
ghost use Rattle.coherence.specs.Sights.{Known, Throughout};
ghost use Rattle.sheets.specs.declared.verdict.Verdict.TheVariants.{SourceCycle as BySources, CoherenceCycle as ByCoherence};
ghost use Rattle.judging.specs.Finding.{LeastChain, Found};
ghost use Rattle.judging.specs.Judging.{RefusesList};
ghost use Rattle.judging.specs.Laying.{steps_of};

use crate::laying::{CoherenceNamer, SourceNamer, lay};
use crate::steps::Steps;
use axioms::pairs::Pairs;
use axioms::source_cycle::source_cycle;
use axioms::source_reach::SourceReach;
use coherence::sight::Sight;
use coherence::visibility::Visibility;
use graph::event::Event;
use graph::graph::Graph;
use graph::refusal::{Refusal, Refused};
use measures::settling::LARGEST;
use profiles::profile::Profile;
use sheets::verdict::Verdict;

/// A verdict, and the steps that show it: none for a clear one.
#[derive(Clone, Copy)]
pub(crate) struct Finding {
    pub verdict: Verdict,
    pub steps: Steps,
}

/// Finds the verdict of a graph under a list, with the steps that show it.
pub(crate) fn find<P: Profile>(
    graph: &Graph<'_>,
    profile: &P,
    list: &[u8],
) -> Result<Finding, Refused>
    ensures { MatchResult result (Found (P.meaning profile.now) (added_events graph.now) list.now) (RefusesList (P.meaning profile.now) (added_events graph.now) list.now) }
{
    let events = graph.events();
    // A graph has at most 56 events, so no table is refused. Each call asks for what it needs in a line.
    let Ok(pairs) = Pairs::ask(profile, events) else {
        unreachable()
    };
    if !pairs.is_push_order(list) {
        return Err(Refusal::NotThePushingEvents.into());
    }
    if let Some(steps) = find_source_cycle(events) {
        let verdict = Verdict::SourceCycle;
        return Ok(Finding { verdict, steps });
    }
    let Ok(reach) = SourceReach::of(events) else {
        unreachable()
    };
    if !reach.is_lawful(list) {
        return Err(Refusal::NotLawful.into());
    }
    let Ok(visibility) = Visibility::of(events, pairs.kept(), pairs.pushed(), list) else {
        unreachable()
    };
    match find_coherence_cycle(&visibility.sight()) {
        Some(steps) => {
            let verdict = Verdict::CoherenceCycle;
            Ok(Finding { verdict, steps })
        }
        None => {
            let verdict = Verdict::Clear;
            let steps = Steps::none();
            Ok(Finding { verdict, steps })
        }
    }
}

// Two functions, and not one: a least cycle of either relation is told by a contract of its own, and what they share is `lay`.

// Finds a least source cycle and lays it out as steps.
fn find_source_cycle(events: &[Event]) -> Option<Steps>
    requires few { length events.now ≤ 56 }
    ensures { MatchOption result (SourceCycle events.now → ⊥) (λ s. (m : Meaning) (L : List ℕ) → LeastChain (SourceStep events.now) m events.now L BySources (steps_of s)) }
{
    let mut cycle = [0; LARGEST];
    let Ok(found) = source_cycle(events, &mut cycle) else {
        unreachable()
    };
    let count = found?;
    Some(lay(&SourceNamer { events }, &cycle[0..count]))
}

// Finds a least coherence cycle and lays it out as steps.
fn find_coherence_cycle(sight: &Sight<'_, '_>) -> Option<Steps>
    requires { Known sight.now }
    ensures { Throughout sight.now (λ es m L. MatchOption result (CoherenceCycle m es L → ⊥) (λ s. LeastChain (Co m es L) m es L ByCoherence (steps_of s))) }
{
    let mut cycle = [0; LARGEST];
    let Ok(found) = sight.coherence_cycle(&mut cycle) else {
        unreachable()
    };
    let count = found?;
    Some(lay(&CoherenceNamer { sight: *sight }, &cycle[0..count]))
}

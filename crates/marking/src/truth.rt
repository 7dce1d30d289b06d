// Is what a sheet says true of a graph? The layout of the sheet is right.
ghost use Rattle.std.specs.Prelude.{◌≡◌, ℕ, ◌+◌, ◌<◌, ◌≤◌, ◌⊎◌, List, [], ◌∷◌, length, IfSome, MatchBool, MatchOption};
ghost use Rattle.std.specs.List.{flat_map};
ghost use Rattle.graph.specs.Holds.{added_events};
ghost use Rattle.axioms.specs.Orders.{Once};
ghost use Rattle.axioms.specs.Relations.{CoherenceCycle};
ghost use Rattle.coherence.specs.Sights.{Throughout};
ghost use Rattle.coherence.specs.Visibility.{Fits};
ghost use Rattle.sheets.specs.declared.step.Step.{Step};
ghost use Rattle.sheets.specs.declared.verdict.Verdict.TheVariants.{Clear};
ghost use Rattle.sheets.specs.Steps.{step_bytes};
ghost use Rattle.sheets.specs.Truth.{Ordered, TrueOf};
ghost use Rattle.sheets.specs.WellLaid.{Told};
ghost use Rattle.marking.specs.Marking.{order_part, StepHolds, AllHold, FirstFailing, HasSourceCycle, Unlawful, FailingStep, HasCoherenceCycle, Given, truth_checks};
ghost use Rattle.marking.specs.Passing.{Decided};

use axioms::pairs::Pairs;
use axioms::source_reach::SourceReach;
use coherence::sight::Sight;
use coherence::visibility::Visibility;
use graph::graph::Graph;
use graph::refusal::{Refusal, Refused};
use profiles::profile::Profile;
use sheets::layout::Layout;
use sheets::verdict::Verdict;

// Checks the parts of a sheet against a graph. A count of one byte tells at most 255 steps, which are 1275 bytes; a layout
// is also made by hand, so its type does not say that.
pub(crate) fn check_truth<P: Profile>(
    graph: &Graph<'_>,
    profile: &P,
    layout: &Layout<'_>,
) -> Result<(), Refused>
    requires { length layout.now.steps.now ≤ 1275 }
    ensures { (bs : List ℕ) → (t : Told (length (added_events graph.now) + 8) bs layout.now) → Decided (TrueOf (P.meaning profile.now) (added_events graph.now) t.sheet) (truth_checks (P.meaning profile.now) (added_events graph.now) bs (order_part bs)) result }
{
    let events = graph.events();
    // A graph has at most 56 events, so no table is refused. Each call asks for what it needs in a line.
    let Ok(pairs) = Pairs::ask(profile, events) else {
        unreachable()
    };
    if !pairs.is_push_order(layout.order) {
        return Err(Refusal::NotThePushingEvents.into());
    }
    if denies_source_cycle(layout.verdict) {
        check_order(graph, layout.order)?;
    }
    let Ok(visibility) = Visibility::of(events, pairs.kept(), pairs.pushed(), layout.order) else {
        unreachable()
    };
    check_steps(&visibility.sight(), layout)
}

// Does a sheet of this verdict say that there is no source cycle? Only then does the order of its list matter.
fn denies_source_cycle(verdict: Verdict) -> bool
    ensures { MatchBool result ((verdict ≡ Verdict.Clear) ⊎ (verdict ≡ Verdict.CoherenceCycle)) (verdict ≡ Verdict.SourceCycle) }
{
    matches!(verdict, Verdict::Clear | Verdict::CoherenceCycle)
}

// Checks that there is no source cycle, and that a list is lawful.
fn check_order(graph: &Graph<'_>, list: &[u8]) -> Result<(), Refused>
    requires { Once list.now }
    ensures { Decided (Ordered (added_events graph.now) list.now) (HasSourceCycle (added_events graph.now) ∷ Unlawful (added_events graph.now) list.now ∷ []) result }
{
    let Ok(reach) = SourceReach::of(graph.events()) else {
        unreachable()
    };
    if reach.has_cycle() {
        return Err(Refusal::WrongVerdict.into());
    }
    if !reach.is_lawful(list) {
        return Err(Refusal::NotLawful.into());
    }
    Ok(())
}

// Checks that the steps hold by their rules and, under a clear verdict, that there is no coherence cycle.
fn check_steps(sight: &Sight<'_, '_>, layout: &Layout<'_>) -> Result<(), Refused>
    requires fits { Fits sight.now.events.now sight.now.leads.now }
    requires counted { length layout.now.steps.now ≤ 1275 }
    ensures { Throughout sight.now (λ es m L. (ts : List Step) → layout.now.steps.now ≡ flat_map step_bytes ts → Decided (AllHold m es L (flat_map step_bytes ts) (length ts) × (layout.now.verdict ≡ Clear → CoherenceCycle m es L → ⊥)) (FailingStep m es L (flat_map step_bytes ts) (length ts) ∷ Given (layout.now.verdict ≡ Clear) (HasCoherenceCycle m es L) ∷ []) result) }
{
    if let Some(place) = first_failing(sight, layout) {
        return Err(Refused {
            refusal: Refusal::StepFails,
            section: 2,
            entry: place + 1,
        });
    }
    match layout.verdict {
        Verdict::Clear => check_clear(sight),
        Verdict::SourceCycle | Verdict::CoherenceCycle => Ok(()),
    }
}

// The place of the first step that does not hold by its rule. There are at most 255 steps, as their count is a byte.
fn first_failing(sight: &Sight<'_, '_>, layout: &Layout<'_>) -> Option<u8>
    requires { length layout.now.steps.now ≤ 1275 }
    ensures low { IfSome result (λ k. k < 255) }
    ensures told { Throughout sight.now (λ es m L. (ts : List Step) → layout.now.steps.now ≡ flat_map step_bytes ts → MatchOption result (AllHold m es L (flat_map step_bytes ts) (length ts)) (FirstFailing m es L (flat_map step_bytes ts) (length ts))) }
{
    let count = layout.count() as u8;
    // By place, which is the answer.
    (0..count).find(
        |&place|
            ensures { Throughout sight.entry.now (λ es m L. MatchBool result (StepHolds m es L layout.entry.now.steps.now place → ⊥) (StepHolds m es L layout.entry.now.steps.now place)) }
        { fails(sight, layout, place) },
    )
}

// Is it wrong that the step at a place holds by its rule? It is where no step stands, too.
fn fails(sight: &Sight<'_, '_>, layout: &Layout<'_>, place: u8) -> bool
    ensures { Throughout sight.now (λ es m L. MatchBool result (StepHolds m es L layout.now.steps.now place → ⊥) (StepHolds m es L layout.now.steps.now place)) }
{
    let Some(step) = layout.step(usize::from(place)) else {
        return true;
    };
    !sight.holds(step.rule, step.from, step.to, step.reader, step.second)
}

// Checks that there is no coherence cycle.
fn check_clear(sight: &Sight<'_, '_>) -> Result<(), Refused>
    requires { Fits sight.now.events.now sight.now.leads.now }
    ensures { Throughout sight.now (λ es m L. Decided (CoherenceCycle m es L → ⊥) (HasCoherenceCycle m es L ∷ []) result) }
{
    let Ok(has_cycle) = sight.has_coherence_cycle() else {
        unreachable()
    };
    if has_cycle {
        return Err(Refusal::WrongVerdict.into());
    }
    Ok(())
}

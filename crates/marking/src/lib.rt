// Marking: a sheet that somebody brings, checked against a graph.
#![tactic(auto)]

ghost use Rattle.std.specs.Prelude.{◌≡◌, Result, MatchResult};
ghost use Rattle.graph.specs.declared.refusal.Refused.{Refused};
ghost use Rattle.graph.specs.Holds.{added_events};
ghost use Rattle.marking.specs.Marking.{Marks};
ghost use Rattle.marking.specs.Passing.{Passes};

use graph::event::INITIAL;
use graph::graph::Graph;
use graph::refusal::Refused;
use profiles::profile::Profile;
use sheets::reading::read_layout;
use truth::check_truth;

mod truth;

/// Checks a sheet against a graph, under a profile.
///
/// It passes exactly if its bytes are those of a sheet that is true of the graph: the list is a push order, and its steps
/// show the verdict, be they the shortest or not, from whichever event they start. Refusals, in this order:
///
/// - `BadLayout` (20), with the section and the entry that `read_layout` tells;
/// - `NotThePushingEvents` (11) where the list is not a push order;
/// - under a clear verdict and that of a coherence cycle, `WrongVerdict` (22) where there is a source cycle, and then
///   `NotLawful` (12) where the list is not lawful;
/// - `StepFails` (21), section 2 and the number of the step, at the first step that does not hold by its rule;
/// - under a clear verdict, `WrongVerdict` (22) where there is a coherence cycle.
pub fn mark<P: Profile>(graph: &Graph<'_>, profile: &P, sheet: &[u8]) -> Result<(), Refused>
    ensures outcome { Marks (P.meaning profile.now) (added_events graph.now) sheet.now result }
    ensures only { (other : Result (Unit {0}) Refused) → Marks (P.meaning profile.now) (added_events graph.now) sheet.now other → other ≡ result }
    ensures told { MatchResult result (λ _. Passes (P.meaning profile.now) (added_events graph.now) sheet.now) (λ _. Passes (P.meaning profile.now) (added_events graph.now) sheet.now → ⊥) }
{
    let present = graph.events().len() as u8 + INITIAL;
    let layout = read_layout(sheet, present)?;
    check_truth(graph, profile, &layout)
}

// Reading a sheet's layout.
ghost use Rattle.std.specs.Prelude.{◌≡◌, ◌<◌, ◌≤◌, length, Decides, Result, MatchResult};
ghost use Rattle.std.specs.Result.{result_err};
ghost use Rattle.graph.specs.declared.refusal.Refused.{Refused};
ghost use Rattle.sections.specs.Sections.{Whole};
ghost use Rattle.sheets.specs.Layouts.{at, Says, RightCount, BadVerdict, CutIn, Laid};
ghost use Rattle.sheets.specs.WellLaid.{Layouts};
ghost use Rattle.sheets.specs.declared.layout.Layout.{Layout};

use crate::faults::first_fault;
use crate::layout::Layout;
use crate::step::STEP_SIZE;
use crate::verdict::Verdict;
use graph::refusal::{Refusal, Refused};
use sections::{Cut, Section};

/// Reads the layout of a sheet, for a graph with `present` events, initial writes too.
///
/// Where `bytes` are those of a sheet that is well laid out, the answer tells its verdict, its push order and its
/// steps. Else it is `BadLayout`, with the section and the entry of the first fault, sought in this order: the verdict
/// byte (0, 0); the sections, cut or not (the first entry that is not whole, or 0 for a missing count); the number of
/// steps, which has to be 0 under a clear verdict alone (2, 0); the steps, each by itself and in the chain; bytes
/// behind the sheet (0, 0). What the push order lists is no matter of layout.
pub fn read_layout(bytes: &[u8], present: u8) -> Result<Layout<'_>, Refused>
    ensures outcome { Laid present bytes.now result }
    ensures only { (other : Result Layout Refused) → Laid present bytes.now other → result_err other ≡ result_err result }
    ensures told { Layouts present bytes.now result }
{
    let verdict = read_verdict(bytes)?;
    let Section { end: middle, .. } = cut_section(bytes, 1, 1, 1)?;
    let Section { count, end } = cut_section(bytes, 2, middle, STEP_SIZE)?;
    if !is_right_count(verdict, count) {
        return Err(broken_at(2, 0));
    }
    let steps = &bytes[middle + 1..end];
    if let Some(place) = first_fault(verdict, steps, count, present) {
        return Err(broken_at(2, place + 1));
    }
    if end < bytes.len() {
        return Err(broken_at(0, 0));
    }
    let order = &bytes[2..middle];
    Ok(Layout {
        verdict,
        order,
        steps,
    })
}

// The refusal of a broken layout.
fn broken_at(section: u8, entry: u8) -> Refused
    ensures { result ≡ at section entry }
{
    Refused {
        refusal: Refusal::BadLayout,
        section,
        entry,
    }
}

#[tactic(auto, using(crate::proofs::Naming::no_verdict))]
fn read_verdict(bytes: &[u8]) -> Result<Verdict, Refused>
    ensures { MatchResult result (λ v. (0 < length bytes.now) × Says bytes.now v) (BadVerdict bytes.now) }
{
    let number = bytes.first().ok_or(broken_at(0, 0))?;
    Verdict::try_from(*number).map_err(|_| broken_at(0, 0))
}

// Cuts out the section whose count stands at `start`, or tells the entry of that section where the bytes end.
fn cut_section(bytes: &[u8], section: u8, start: usize, size: usize) -> Result<Section, Refused>
    ensures { MatchResult result (Whole bytes.now start size) (CutIn bytes.now section start size) }
{
    Section::cut(bytes, start, size).map_err(|cut| broken_at(section, cut.entry()))
}

// A clear sheet has no steps, and any other has some.
fn is_right_count(verdict: Verdict, count: u8) -> bool
    ensures { Decides result (RightCount verdict count) }
{
    match verdict {
        Verdict::Clear => count == 0,
        Verdict::SourceCycle | Verdict::CoherenceCycle => count > 0,
    }
}

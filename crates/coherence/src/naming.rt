// The steps of coherence by name.
ghost use Rattle.std.specs.Prelude.{◌≡◌, ◌+◌, length, IfSome, MatchOption};
ghost use Rattle.coherence.specs.Naming.{Named, FirstNamed, Lowest, LowestPair};
ghost use Rattle.axioms.specs.Relations.{Co, Holds};
ghost use Rattle.coherence.specs.Sights.{Throughout};
ghost use Rattle.axioms.specs.declared.rule.Rule.TheVariants.{Corr};

use crate::sight::Sight;
use axioms::rule::{NO_READER, Rule};
use axioms::table::side_of;
use graph::order::reads_from;

// A number and no `Option`, as a sheet has it; the name by which callers of this crate know it.
/// What stands for a reader that a rule does not name.
pub const UNUSED: u8 = NO_READER;

/// A step of coherence by name: its rule, and the readers that the rule names.
#[derive(Clone, Copy, PartialEq, Eq, Debug)]
pub struct NamedStep {
    pub rule: Rule,
    // Numbers and no `Option`: a sheet has a byte for each reader, and the rule tells whether it names one.
    /// The reader; under corr the earlier of the two.
    pub reader: u8,
    pub second: u8,
}

impl NamedStep {
    // A step by a rule that names at most one reader.
    fn by(rule: Rule, reader: u8) -> NamedStep
        ensures { result ≡ record { rule = rule; reader = reader; second = 255 } }
    {
        NamedStep {
            rule,
            reader,
            second: UNUSED,
        }
    }
}

impl Sight<'_, '_> {
    /// Names the step of coherence from `p` to `q`, where there is one: the first rule that holds, in the order coww, cowr,
    /// corw, corr, with the lowest readers.
    pub fn name_step(&self, p: u8, q: u8) -> Option<NamedStep>
        ensures names { Throughout self.now (λ es m L. MatchOption result (Co m es L p q → ⊥) (Named m es L p q)) }
        ensures first { Throughout self.now (λ es m L. IfSome result (FirstNamed m es L p q)) }
    {
        if self.holds(Rule::Coww, p, q, UNUSED, UNUSED) {
            return Some(NamedStep::by(Rule::Coww, UNUSED));
        }
        if let Some(reader) = self.first_reader(Rule::Cowr, p, q) {
            return Some(NamedStep::by(Rule::Cowr, reader));
        }
        if let Some(reader) = self.first_reader(Rule::Corw, p, q) {
            return Some(NamedStep::by(Rule::Corw, reader));
        }
        self.first_pair(p, q)
    }

    // The lowest reader by which the step holds. Each of the three searches asks for the side itself, which is one line.
    fn first_reader(&self, rule: Rule, p: u8, q: u8) -> Option<u8>
        ensures { Throughout self.now (λ es m L. Lowest (length es + 8) (λ x. Holds m es L rule p q x 255) result) }
    {
        let side = side_of(self.events).ok()? as u8;
        (0..side).find(|reader| self.holds(rule, p, q, *reader, UNUSED))
    }

    // The lowest readers by which the step holds by corr, the first deciding.
    fn first_pair(&self, p: u8, q: u8) -> Option<NamedStep>
        ensures { Throughout self.now (λ es m L. LowestPair (Holds m es L Corr p q) result) }
    {
        let side = side_of(self.events).ok()? as u8;
        // One search inside another: `find` would answer the reader alone, and its second reader would be sought twice.
        for reader in 0..side {
            if reads_from(self.events, p, reader) {
                if let Some(second) = self.second_reader(p, q, reader) {
                    return Some(NamedStep {
                        rule: Rule::Corr,
                        reader,
                        second,
                    });
                }
            }
        }
        None
    }

    // The lowest second reader by which the step holds by corr, with the first one given.
    fn second_reader(&self, p: u8, q: u8, reader: u8) -> Option<u8>
        ensures { Throughout self.now (λ es m L. Lowest (length es + 8) (Holds m es L Corr p q reader) result) }
    {
        let side = side_of(self.events).ok()? as u8;
        (0..side).find(|second| self.holds_by_corr(p, q, reader, *second))
    }
}

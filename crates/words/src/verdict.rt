// A verdict in words.
use sheets::verdict::Verdict;
use std::fmt;

// A wrapper, as each type of this crate: `Display` of another crate's type cannot be written here.
/// What a verdict says of a graph under a push order.
#[derive(Clone, Copy)]
pub struct VerdictWords(pub Verdict);

impl fmt::Display for VerdictWords {
    fn fmt<W: fmt::Write>(&self, f: &mut fmt::Formatter<W>) -> fmt::Result {
        f.write_str(match self.0 {
            Verdict::Clear => "clear: both axioms hold",
            Verdict::SourceCycle =>
                "source cycle: program order and reads-from lead from an event back to itself",
            Verdict::CoherenceCycle => "coherence cycle: a write has to come before itself",
        })
    }
}

// A refusal in words.
use graph::refusal::Refused;
use std::fmt;

/// A refusal with its number, and its place where it has one: `refused 21 at section 2, entry 1: a step does not hold by its rule`.
#[derive(Clone, Copy)]
pub struct RefusedWords(pub Refused);

impl fmt::Display for RefusedWords {
    fn fmt<W: fmt::Write>(&self, f: &mut fmt::Formatter<W>) -> fmt::Result {
        let Refused {
            refusal,
            section,
            entry,
        } = self.0;
        let number = refusal.number();
        write!(f, "refused {number}")?;
        // Section 0 is part of what a refusal is: it tells that the refusal is about no place.
        if section != 0 {
            write!(f, " at section {section}, entry {entry}")?;
        }
        write!(f, ": {refusal}")
    }
}

// A step of a cycle as a sentence.
use axioms::rule::Rule;
use sheets::step::Step;
use std::fmt;

/// A step by its events, its rule and the reads that the rule names:
/// `8 comes before 0 by cowr: 8 is visible to 11, which reads from 0`.
#[derive(Clone, Copy)]
pub struct Sentence(pub Step);

impl fmt::Display for Sentence {
    fn fmt<W: fmt::Write>(&self, f: &mut fmt::Formatter<W>) -> fmt::Result {
        let Step {
            rule,
            from,
            to,
            reader,
            second,
        } = self.0;
        match rule {
            Rule::ProgramOrder => write!(f, "{from} precedes {to} in program order"),
            Rule::ReadsFrom => write!(f, "{to} reads from {from}"),
            Rule::Coww => write!(
                f,
                "{from} comes before {to} by coww: {from} is visible to {to}"
            ),
            Rule::Cowr => write!(
                f,
                "{from} comes before {to} by cowr: {from} is visible to {reader}, which reads from {to}"
            ),
            Rule::Corw => write!(
                f,
                "{from} comes before {to} by corw: {from} is visible to {reader}, a read of that location that precedes {to}"
            ),
            Rule::Corr => write!(
                f,
                "{from} comes before {to} by corr: {reader} reads from {from} and precedes {second}, which reads from {to}"
            ),
        }
    }
}

// What is said of a graph.
use graph::refusal::Refused;
use searching::answer::Answer;

/// The answers of judging, marking and searching one graph.
#[derive(Clone, Copy)]
pub struct Answers {
    /// The length of the sheet that judging wrote.
    pub judged: Result<usize, Refused>,
    /// What marking says of that sheet; nothing where judging refused.
    pub own: Option<Result<(), Refused>>,
    /// What marking says of the sheet that the caller brought.
    pub brought: Result<(), Refused>,
    pub searched: Result<Answer, Refused>,
}

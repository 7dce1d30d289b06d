// The steps as they are handed out.
ghost use Rattle.std.specs.Prelude.{◌≡◌, []};
ghost use Rattle.judging.specs.Laying.{steps_of};

use crate::steps::{BLANK, Steps};
use sheets::step::Step;
use sheets::writing::MOST_STEPS;

impl Steps {
    pub(crate) fn none() -> Steps
        ensures { steps_of result ≡ [] }
    {
        Steps {
            laid: [BLANK; MOST_STEPS],
            count: 0,
        }
    }

    pub(crate) fn as_slice(&self) -> &[Step]
        ensures { result.now ≡ steps_of self.now }
    {
        &self.laid[0..self.count]
    }
}

// A refusal as an answer, and the one place where an edit that is refused is told.
ghost use Rattle.std.specs.Prelude.{◌≡◌};
ghost use Rattle.refusals.specs.Numbers.{number_of};
ghost use Rattle.map.specs.Memory.{refusal, settled};

use crate::{Answer, Edited, State};
use refusals::Refusal;

impl From<Refusal> for Answer {
    ghost from_gives = { λ r a. a ≡ refusal (number_of r) };

    fn from(r: Refusal) -> Answer {
        match r {
            Refusal::TooLong => Answer::TooLong,
            Refusal::Missing => Answer::Missing(0),
            Refusal::WrongSlice => Answer::WrongSlice,
            Refusal::NoRoom => Answer::NoRoom,
            Refusal::Broken => Answer::Broken,
        }
    }
}

impl State {
    // An edit that ends with this state: the answer of its steps, or their refusal. (In line, as the steps are: so an edit that the first tests
    // refuse copies no state.)
    #[inline(always)]
    pub(crate) fn settled(self, done: Result<Answer, Refusal>) -> Edited
        ensures { result ≡ settled self done }
    {
        let answer = match done {
            Ok(answer) => answer,
            Err(r) => Answer::from(r),
        };
        Edited {
            answer,
            state: self,
        }
    }
}

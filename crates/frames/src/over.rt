// The files that are named: what `pft size`, `pft run` and `pft count` share.
ghost use Rattle.std.specs.Prelude.{◌≡◌, ◌<◌, IsTrue};
ghost use Rattle.frames.specs.Words.{count_of};

use crate::argument::{Arguments, PATH, argument};
use crate::said::Name;
use crate::source::HasArguments;
use crate::{Ended, Session, Work};
use std::io::{Error, Print};

// An argument of one byte tells it, and a longer one is none.
fn is_standard_input(source: &impl HasArguments, i: usize) -> bool {
    let mut room = [0u8; 1];
    matches!(argument(source, i, &mut room), Ok(b"-"))
}

// Whether standard input is named twice, which can be read once.
pub fn names_input_twice(source: &impl HasArguments, arguments: Arguments) -> bool
    ensures { IsTrue result → 1 < count_of arguments }
{
    let mut is_named = false;
    for i in arguments.first..arguments.end {
        if is_standard_input(source, i) {
            if is_named {
                return true;
            }
            is_named = true;
        }
    }
    false
}

impl<R, A: Print, M: Print> Session<'_, R, A, M> {
    pub(crate) fn named_twice(&self) -> Ended
        ensures { result ≡ Ended.Usage }
    {
        self.say(Name::File(b"-"), "named twice, and it can be read once");
        Ended::Usage
    }
}

impl<R: HasArguments, A: Print, M: Print> Session<'_, R, A, M> {
    // An argument that no path can be, by its number.
    pub(crate) fn unread_argument(&self, place: usize, error: Error) -> Ended
        ensures { result ≡ Ended.Failed }
    {
        self.unread(Name::Argument(self.rt.number_at(place)), error)
    }

    // Does something with each file, and answers how the worst of that ended.
    pub(crate) fn over<F: FnMut(&[u8]) -> Work<Ended>>(
        &self,
        files: Arguments,
        mut work: F,
    ) -> Work<Ended>
        requires { F.IsAlwaysCallable work }
    {
        let mut worst = Ended::Done;
        let mut room = [0u8; PATH];
        for number in files.first..files.end {
            let ended = match argument(self.rt, number, &mut room) {
                Ok(path) => work(path)?,
                Err(error) => self.unread_argument(number, error),
            };
            worst = worst.max(ended);
        }
        Ok(worst)
    }
}

// `pft size`: how many instructions the program of each tree has, by the question, which makes no program.
ghost use Rattle.std.specs.Prelude.{◌≡◌};
ghost use Rattle.frames.specs.Words.{count_of};

use crate::argument::{Arguments, CommandWord};
use crate::over::names_input_twice;
use crate::source::{HasArguments, HasFiles};
use crate::tree::{Behind, Given, Room, TREE_BYTES};
use crate::{Ended, Session, Work};
use std::io::Print;

impl<R: HasArguments + HasFiles, A: Print, M: Print> Session<'_, R, A, M> {
    // An instruction has 8 bytes.
    fn size_of(&self, given: Given) -> Work<Ended> {
        match build::question(given.tree) {
            Ok(count) => {
                let bytes = 8 * u64::from(count);
                self.answer(
                    given.name,
                    format_args!("{count} instructions, {bytes} bytes"),
                )
            }
            Err(r) => Ok(self.refused(given.name, r)),
        }
    }

    // One tree file among others.
    fn size_file(&self, path: &[u8]) -> Work<Ended> {
        let mut room = [0u8; TREE_BYTES];
        match self.tree_file(path, Arguments::NONE, &mut room) {
            Ok(given) => self.size_of(given),
            // The others have a size.
            Err(ended) => Ok(ended),
        }
    }

    // One tree file or more by name, or `--type` with a link and a line, alone.
    pub(crate) fn size(&self, arguments: Arguments) -> Work<Ended>
        ensures { count_of arguments ≡ 0 → result ≡ Err Ended.Usage }
    {
        if arguments.is_empty() {
            return Err(Ended::Usage);
        }
        if CommandWord::read_at(self.rt, arguments.first).is_option() {
            let mut room = Room::new();
            return self.size_of(self.tree(arguments, Behind::Nothing, &mut room)?);
        }
        if names_input_twice(self.rt, arguments) {
            return Err(self.named_twice());
        }
        self.over(arguments, |path| self.size_file(path))
    }
}

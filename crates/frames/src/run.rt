// `pft run`: what is answered of a frame file, its verdict and its direct reading.
ghost use Rattle.std.specs.Prelude.{◌≡◌, ◌<◌};
ghost use Rattle.frames.specs.Words.{count_of};

use crate::argument::Arguments;
use crate::said::{Name, VerdictWord};
use crate::source::{HasArguments, HasFiles};
use crate::tree::{Behind, Room};
use crate::{Ended, PROGRAM_BYTES, Session, Work, program_of};
use error::Refusal;
use std::io::Print;

// A frame has at most 65,535 bytes, so of a longer file so many tell that.
const FRAME_BYTES: usize = 65536;

// A tree that passes checks 1 to 4 has a direct reading.
fn is_tree(r: Refusal) -> bool {
    matches!(
        r,
        Refusal::KindOnRaw
            | Refusal::PortProtocol
            | Refusal::EtherOnRaw
            | Refusal::FarJump
            | Refusal::CookedAddress
    )
}

impl<R: HasArguments + HasFiles, A: Print, M: Print> Session<'_, R, A, M> {
    // Where there is no program the tree is read directly alone.
    fn run_program(
        &self,
        name: Name,
        program: Option<&[u8]>,
        frame: &[u8],
        truth: bool,
    ) -> Work<Ended> {
        let Some(program) = program else {
            return self.answer(name, format_args!("not run, direct reading {truth}"));
        };
        match machine::run(program, frame) {
            Ok(outcome) => {
                let verdict = VerdictWord(outcome.verdict);
                let steps = outcome.steps;
                self.answer(
                    name,
                    format_args!("{verdict}, steps {steps}, direct reading {truth}"),
                )
            }
            Err(r) => Ok(self.refused(name, r)),
        }
    }

    fn run_frame(&self, path: &[u8], tree: &[u8], program: Option<&[u8]>) -> Work<Ended> {
        let name = Name::File(path);
        let mut room = [0u8; FRAME_BYTES];
        let frame = match files::read(self.rt.host(), path, &mut room) {
            Ok(n) => &room[..n],
            Err(error) => return Ok(self.unread(name, error)),
        };
        match evaluate::direct_reading(tree, frame) {
            Ok(truth) => self.run_program(name, program, frame, truth),
            Err(r) => Ok(self.refused(name, r)),
        }
    }

    // A tree, and the frames that its program runs over. Without a program a frame may still be read directly.
    pub(crate) fn run(&self, arguments: Arguments) -> Work<Ended>
        ensures { count_of arguments < 2 → result ≡ Err Ended.Usage }
    {
        let mut room = Room::new();
        let given = self.tree(arguments, Behind::Files, &mut room)?;
        let tree = given.tree;
        let mut program = [0u8; PROGRAM_BYTES];
        match program_of(tree, &mut program) {
            Ok(program) => self.over(
                given.files,
                |path| self.run_frame(path, tree, Some(program)),
            ),
            Err(r) => {
                let ended = self.refused(given.name, r);
                if !is_tree(r) {
                    return Ok(ended);
                }
                Ok(ended.max(self.over(given.files, |path| self.run_frame(path, tree, None))?))
            }
        }
    }
}

// `pft count`: what is answered of a capture, how many of its frames a program keeps.
ghost use Rattle.std.specs.Prelude.{◌≡◌, ◌<◌, length};
ghost use Rattle.frames.specs.Words.{count_of};

use crate::argument::Arguments;
use crate::said::{LinkName, Name, Refused};
use crate::source::{HasArguments, HasFiles};
use crate::tree::{Behind, Room};
use crate::{Ended, PROGRAM_BYTES, Session, Work, program_of};
use ast::LinkType;
use capture::{Halt, Tally};
use error::Refusal;
use files::Source;
use std::fmt;
use std::fmt::{Display, Formatter, Write};
use std::io::{Input, Print};
use std::rt::Files;

// Room for the longest frame with its header, 65,551 bytes, and for many others in one read.
const ROOM: usize = 262144;

// Its length alone is known where it is lent: a proof would write out the zeros.
fn room() -> [u8; ROOM]
    ensures { 262144 ≡ length result }
{
    [0; ROOM]
}

// How files of Wireshark's own kind start.
const PCAPNG: [u8; 4] = *b"\n\r\r\n";

// A capture that is refused: the frames before that, the tree's link, and the capture's start.
#[derive(Clone, Copy)]
struct Stopped<'a> {
    refusal: Refusal,
    tally: Tally,
    link: LinkType,
    start: &'a [u8],
}

// The bad frame's number is from 1 on, and its place that of its header in the file.
impl Display for Stopped<'_> {
    fn fmt<W: Write>(&self, f: &mut Formatter<W>) -> fmt::Result {
        write!(f, "{}", Refused(self.refusal))?;
        match self.refusal {
            Refusal::NoCapture if self.start.starts_with(&PCAPNG) => write!(f, ", it is pcapng"),
            Refusal::OtherLink => write!(f, ", the tree is for {}", LinkName(self.link)),
            Refusal::CutFrame => {
                let frame = self.tally.given.saturating_add(1);
                let byte = self.tally.stop;
                write!(f, ", at frame {frame}, byte {byte}")
            }
            _ => Ok(()),
        }
    }
}

impl<R: HasArguments + HasFiles, A: Print, M: Print> Session<'_, R, A, M> {
    fn kept(&self, name: Name, tally: Tally, of: &str) -> Work<Ended> {
        let Tally { kept, given, .. } = tally;
        self.answer(name, format_args!("kept {kept} {of} {given} frames"))
    }

    // Before a bad frame some are counted.
    fn stopped(&self, name: Name, stopped: Stopped) -> Work<Ended> {
        let counted = match stopped.refusal {
            Refusal::CutFrame => self.kept(name, stopped.tally, "of the first"),
            _ => Ok(Ended::Done),
        };
        self.say(name, stopped);
        counted?;
        Ok(Ended::Refused)
    }

    // The source is closed before anything is said. A window starts where the capture does that is refused with 12.
    // Not inlined, so that no other work takes the stack of its window.
    #[inline(never)]
    fn count_source(
        &self,
        name: Name,
        mut source: Source<<R::Host as Files>::File, <R::Host as Input>::Reader>,
        program: &[u8],
        link: LinkType,
    ) -> Work<Ended> {
        let mut window = room();
        let counted = files::count(&mut source, program, link, &mut window);
        drop(source);
        match counted {
            Ok(Ok(tally)) => self.kept(name, tally, "of"),
            Ok(Err(Halt { refusal, tally })) => self.stopped(
                name,
                Stopped {
                    refusal,
                    tally,
                    link,
                    start: &window,
                },
            ),
            Err(error) => Ok(self.unread(name, error)),
        }
    }

    fn count_file(&self, path: &[u8], program: &[u8], link: LinkType) -> Work<Ended> {
        let name = Name::File(path);
        match files::open(self.rt.host(), path) {
            Ok(source) => self.count_source(name, source, program, link),
            Err(error) => Ok(self.unread(name, error)),
        }
    }

    // A tree, and the captures whose frames its program counts.
    pub(crate) fn count(&self, arguments: Arguments) -> Work<Ended>
        ensures { count_of arguments < 2 → result ≡ Err Ended.Usage }
    {
        let mut room = Room::new();
        let given = self.tree(arguments, Behind::Files, &mut room)?;
        let mut program = [0u8; PROGRAM_BYTES];
        let program = match program_of(given.tree, &mut program) {
            Ok(program) => program,
            Err(r) => return Ok(self.refused(given.name, r)),
        };
        match reader::header(given.tree) {
            Ok(link) => self.over(given.files, |path| self.count_file(path, program, link)),
            Err(r) => Ok(self.refused(given.name, r)),
        }
    }
}

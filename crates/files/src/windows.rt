// A capture of any size, read in windows: what is not yet used of it stands at the start of a lent buffer, and what is read follows it.
ghost use Rattle.std.specs.Prelude.{◌≡◌, ◌+◌, ◌^◌, ◌≤◌, ◌<◌, length};
ghost use Rattle.capture.specs.Turns.{finish as T·finish};
ghost use Rattle.capture.specs.Promises.{Sound};
ghost use Rattle.files.specs.Windows.{beginning, is_turned, Used, Whole};

use crate::read_from;
use ast::LinkType;
use capture::{Halt, Stage, Tally};
use std::io;
use std::io::{Error, ErrorKind, Read};

// The most bytes that a file can have. Of a pipe that gives more nothing is counted.
const MOST: usize = 9223372036854775807;

// How far a capture is read: its frames so far, and how many of its bytes are not yet used.
#[derive(Drop)]
struct Progress {
    stage: Stage,
    tally: Tally,
    left: usize,
}

impl Progress {
    fn beginning() -> Progress
        ensures { result ≡ beginning }
    {
        Progress {
            stage: Stage::Header,
            tally: Tally::NONE,
            left: 0,
        }
    }

    // Uses a window, and moves what is left of it to its start.
    #[tactic(auto, using(crate::proofs::Reading::window_within, crate::proofs::Reading::window_sound_here))]
    fn use_window(&mut self, program: &[u8], link: LinkType, window: &mut [u8])
        requires left_within { self.old.left ≤ length window.old }
        requires sound { Sound self.old.tally × (self.old.tally.stop + length window.old < 2 ^ 64) }
        ensures used { Used program.now link self.old (length window.old) window.old self.new window.new }
        ensures long { length window.new ≡ length window.old }
    {
        let step = capture::take_window(program, link, self.stage, window);
        let used = step.tally.stop;
        self.stage = step.stage;
        self.tally = self.tally + step.tally;
        self.left = window.len() - used;
        // Bytes that wait for the rest of their frame stand there already, and are not moved at each read.
        if used > 0 {
            window.copy_within(used.., 0);
        }
    }

    fn is_turned(&self) -> bool
        ensures { result ≡ is_turned self.now.stage }
    {
        matches!(self.stage, Stage::Turned(_))
    }

    fn finish(&self) -> Result<Tally, Halt>
        ensures { result ≡ T·finish self.now.stage self.now.tally self.now.left }
    {
        capture::finish(self.stage, self.tally, self.left)
    }
}

// The frames of a capture, read to its end or to a refusal; or why it cannot be read.
pub fn count<R: Read>(
    reader: &mut R,
    program: &[u8],
    link: LinkType,
    buffer: &mut [u8],
) -> io::Result<Result<Tally, Halt>>
    requires { (65551 ≤ length buffer.old) × (length buffer.old ≤ 2 ^ 62) }
    ensures { Whole program.now link result }
{
    let mut p = Progress::beginning();
    // What comes is the reader's to say, so no iterator knows the end.
    while !p.is_turned() {
        if MOST < p.tally.stop {
            return Err(Error::from(ErrorKind::FileTooLarge));
        }
        let n = read_from(reader, buffer, p.left)?;
        if n == 0 {
            break;
        }
        let end = p.left + n;
        p.use_window(program, link, &mut buffer[..end]);
    }
    Ok(p.finish())
}

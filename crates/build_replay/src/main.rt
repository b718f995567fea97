// Builds stored tree files and counts the differences from what the Rust answered, or of cooked trees, which are no longer the Rust's, the
// second generator.
//
// Standard input, made by tools/oracle/builds.py, has seven groups: a count of two bytes, then that many cases. All numbers are big-endian.
// A case has five bytes, then the tree file and the program:
//   0    the refusal's number, or 0
//   1-2  the instruction count; 0 where the file is refused
//   3-4  the tree file's length
// Each file is built into lent buffers of several lengths, and every byte of them is compared. The number 9 is this program's own: the Rust
// has no lent buffer.
#![tactic(auto)]

ghost use Rattle.std.specs.Prelude.{◌<◌, ◌≤◌, All, IfOk, length};

use error::Refusal;
use std::fmt::{Display, Formatter};
use std::io::{BufReader, BufWriter, ErrorKind, Read, Write};
use std::{fmt, io};

const GROUPS: [&str; 7] = [
    "conditions",
    "pairs",
    "ports",
    "random",
    "far jumps",
    "large",
    "damaged",
];

// What a buffer holds before it is lent, and what has to stay behind the lent part.
const FILLED: u8 = 0x5a;

// The most bytes of a tree file that are read.
const FILE: usize = 4096;

// The most bytes of a program that are read, and how many are lent at the last turn.
const MOST: usize = 32768;

// A buffer has room for sixteen more: so many may be lent beyond a program.
const ROOM: usize = MOST + 16;

// The refusals of a build are below this.
const REFUSALS: usize = 16;

// ---- answers

// A build's answer as C has it: the count, or the refusal's number times 65,536.
#[derive(Clone, Copy, Debug, PartialEq, Eq)]
struct Answer(u32);

impl Answer {
    fn of_refusal(number: u32) -> Answer
        requires { number < 256 }
    {
        Answer(number * 65536)
    }

    // The refusal's number; a count has none.
    fn refusal(self) -> Option<usize> {
        match self.0 / 65536 {
            0 => None,
            number => Some(number as usize),
        }
    }
}

impl Display for Answer {
    fn fmt<W: fmt::Write>(&self, f: &mut Formatter<W>) -> fmt::Result {
        match self.refusal() {
            None => write!(f, "count {}", self.0),
            Some(number) => write!(f, "refused {number}"),
        }
    }
}

// How a build differs: the answers, and the first wrong byte, which is past the buffer's end where the answer alone is wrong.
#[derive(Clone, Copy)]
struct Difference {
    lent: usize,
    here: Answer,
    wanted: Answer,
    wrong: usize,
}

impl Display for Difference {
    fn fmt<W: fmt::Write>(&self, f: &mut Formatter<W>) -> fmt::Result {
        let Difference {
            lent,
            here,
            wanted,
            wrong,
        } = *self;
        write!(
            f,
            "{lent} bytes lent: {here}, wanted {wanted}, first wrong byte {wrong}"
        )
    }
}

// ---- the tally

// How many builds had a count, how many had each refusal by its number, and how many differ.
#[derive(Clone, Copy, Default)]
struct Tally {
    counts: u64,
    refused: [u64; REFUSALS],
    differences: u64,
}

impl Tally {
    fn add(&mut self, answer: Answer) {
        match answer.refusal() {
            Some(number) if number < REFUSALS => {
                self.refused[number] = self.refused[number].saturating_add(1);
            }
            _ => self.counts = self.counts.saturating_add(1),
        }
    }

    fn differs(&mut self) {
        self.differences = self.differences.saturating_add(1);
    }
}

// A refusal that no build had is left out.
impl Display for Tally {
    fn fmt<W: fmt::Write>(&self, f: &mut Formatter<W>) -> fmt::Result {
        let Tally {
            counts,
            refused,
            differences,
        } = *self;
        write!(f, "counts: {counts}\n")?;
        let mut compared = counts;
        for (number, builds) in refused.iter().enumerate() {
            let builds = *builds;
            compared = compared.saturating_add(builds);
            if builds > 0 {
                write!(f, "refused {number}: {builds}\n")?;
            }
        }
        write!(f, "{compared} compared, {differences} differences\n")
    }
}

// ---- a build

// What a buffer has to hold: the program, zeros up to the lent part's end, then what was there.
fn left_by(program: &[u8], lent: usize) -> [u8; ROOM]
    requires program { length program.now ≤ lent }
    requires lent { lent ≤ ROOM }
{
    let mut bytes = [FILLED; ROOM];
    bytes[..lent].fill(0);
    bytes[..program.len()].copy_from_slice(program);
    bytes
}

// The first place with another byte, or the buffer's end.
fn first_wrong(buffer: &[u8], wanted: &[u8]) -> usize {
    buffer
        .iter()
        .zip(wanted)
        .position(|(byte, wanted)| *byte != *wanted)
        .unwrap_or(buffer.len())
}

// ---- a case

// The stored count or the refusal's number, how many instructions are stored, and the tree file's length.
#[derive(Clone, Copy)]
struct Head {
    answer: Result<u16, u8>,
    count: u16,
    file: u16,
}

impl From<[u8; 5]> for Head {
    fn from(h: [u8; 5]) -> Head {
        let count = u16::from_be_bytes([h[1], h[2]]);
        Head {
            answer: match h[0] {
                0 => Ok(count),
                refusal => Err(refusal),
            },
            count,
            file: u16::from_be_bytes([h[3], h[4]]),
        }
    }
}

// A tree file with its number in its group, and the stored answer and program.
#[derive(Clone, Copy)]
struct Case<'a> {
    index: usize,
    answer: Result<u16, u8>,
    file: &'a [u8],
    program: &'a [u8],
    ghost program_limit: { length program.now ≤ 32768 },
}

impl Case<'_> {
    // As many bytes as a program needs; a file that is refused has 0 to 599 for that.
    fn exact(&self) -> usize
        ensures { result ≤ MOST }
    {
        match self.answer {
            Ok(_) => self.program.len(),
            Err(_) => self.index % 600,
        }
    }

    // How many bytes are lent: exactly enough, more, one too few, none, all.
    fn lengths(&self) -> [usize; 5]
        ensures { All (λ lent. lent ≤ ROOM) result }
    {
        let exact = self.exact();
        let more = exact + 1 + self.index % 16;
        [exact, more, exact.saturating_sub(1), 0, MOST]
    }

    // What a build into so many bytes has to answer.
    fn answer(&self, lent: usize) -> Answer {
        match self.answer {
            Err(refusal) => Answer::of_refusal(u32::from(refusal)),
            Ok(_) if lent < self.program.len() => {
                Answer::of_refusal(u32::from(Refusal::ShortBuffer))
            }
            Ok(count) => Answer(u32::from(count)),
        }
    }

    // The program that a build into so many bytes has to leave, if it has one.
    fn program_in(&self, lent: usize) -> &[u8]
        ensures { length result.now ≤ lent }
    {
        match self.answer {
            Ok(_) if self.program.len() <= lent => self.program,
            _ => &[],
        }
    }

    // How the build into so many bytes differs from what it has to be.
    fn difference(&self, lent: usize) -> Option<Difference>
        requires { lent ≤ ROOM }
    {
        let mut buffer = [FILLED; ROOM];
        let here = Answer(pft::pft_build(self.file, &mut buffer[..lent]));
        let wanted = self.answer(lent);
        let wrong = first_wrong(&buffer, &left_by(self.program_in(lent), lent));
        if here == wanted && wrong == buffer.len() {
            return None;
        }
        Some(Difference {
            lent,
            here,
            wanted,
            wrong,
        })
    }
}

// ---- the replay

// An input without errors: a read that fails is its end.
#[derive(Drop)]
struct Input<R>(R);

impl<R: Read> Read for Input<R> {
    fn read(&mut self, buffer: &mut [u8]) -> io::Result<usize> {
        Ok(self.0.read(buffer).unwrap_or(0))
    }
}

// Each of the two replays has its own: what they share is the reading of a count and of some bytes.
#[derive(Drop)]
struct Replay<R, W> {
    input: R,
    out: W,
    tally: Tally,
}

impl<R: Read, W: Write> Replay<R, W> {
    // Reads to the front of a buffer. Nothing is read where the buffer is too small.
    fn bytes<'a, const N: usize>(
        &mut self,
        buffer: &'a mut [u8; N],
        size: usize,
    ) -> io::Result<&'a [u8]>
        ensures { IfOk result (λ bytes. length bytes.now ≤ N) }
    {
        if N < size {
            return Err(io::Error::from(ErrorKind::InvalidData));
        }
        self.input.read_exact(&mut buffer[..size])?;
        Ok(&buffer[..size])
    }

    fn next<'a>(
        &mut self,
        index: usize,
        file: &'a mut [u8; FILE],
        program: &'a mut [u8; MOST],
    ) -> io::Result<Case<'a>> {
        let mut head = [0u8; 5];
        self.input.read_exact(&mut head)?;
        let head = Head::from(head);
        let file = self.bytes(file, usize::from(head.file))?;
        let program = self.bytes(program, 8 * usize::from(head.count))?;
        Ok(Case {
            index,
            answer: head.answer,
            file,
            program,
        })
    }

    // A build of every length.
    fn compare(&mut self, group: &str, case: &Case<'_>) -> io::Result<()> {
        let mut is_good = true;
        for lent in case.lengths() {
            self.tally.add(case.answer(lent));
            if let Some(difference) = case.difference(lent) {
                is_good = false;
                self.tally.differs();
                write!(self.out, "{difference}\n")?;
            }
        }
        if !is_good {
            let index = case.index;
            write!(self.out, "{group} {index} differs\n")?;
        }
        Ok(())
    }

    // What cannot be read is a difference.
    fn case(&mut self, group: &str, index: usize) -> io::Result<()> {
        let (mut file, mut program) = ([0; FILE], [0; MOST]);
        match self.next(index, &mut file, &mut program) {
            Ok(case) => self.compare(group, &case),
            Err(_) => {
                self.tally.differs();
                write!(self.out, "{group} {index}: the case cannot be read\n")
            }
        }
    }

    // An input that ends before a group has no cases of it.
    fn group(&mut self, group: &str) -> io::Result<()> {
        let mut count = [0u8; 2];
        let _ = self.input.read_exact(&mut count);
        let count = u16::from_be_bytes(count);
        for index in 0..usize::from(count) {
            self.case(group, index)?;
        }
        write!(self.out, "{group}: {count} files\n")
    }

    fn all(&mut self) -> io::Result<()> {
        for group in GROUPS {
            self.group(group)?;
        }
        let tally = self.tally;
        write!(self.out, "{tally}")?;
        self.out.flush()
    }
}

fn main(rt: HostRuntime) -> io::Result<()> {
    let alloc = rt.alloc();
    let mut replay = Replay {
        input: Input(BufReader::new(alloc, rt.reader())?),
        out: BufWriter::new(alloc, io::writer(&rt))?,
        tally: Tally::default(),
    };
    replay.all()
}

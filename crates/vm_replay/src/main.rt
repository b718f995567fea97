// Replays stored runs through the machine and counts the differences from what vm.rs said.
//
// Standard input, made by tools/oracle/runs.py, has four groups: a count of two bytes, then that many cases. All numbers are big-endian.
// A case has twelve bytes, then the stored bytes of its program and of its frame:
//   0      what vm.rs answered: 1 accepted, 2 dropped, 3 None; 0 where the run is refused
//   1      the verdict of the copy that counts: 1 accepted, 2 dropped, 3 short, 4 broken; 0 where the run is refused
//   2      the refusal's number, or 0
//   3      how many bytes of the frame are stored
//   4-5    the steps
//   6-7    how many bytes of the program are stored
//   8-9    how many zeros follow the program's stored bytes
//   10-11  how many zeros follow the frame's
#![tactic(auto)]

ghost use Rattle.std.specs.Prelude.{◌≡◌, ◌+◌, ◌^◌, ◌<◌, ◌≤◌, if◌then◌else◌, IfOk};
ghost use Rattle.vm.specs.Machine.{refusal_of, verdict_of, steps_of};

use error::Refusal;
use std::fmt::{Display, Formatter};
use std::io::{BufReader, BufWriter, ErrorKind, Read, Write};
use std::{fmt, io};
use vm::{Outcome, Verdict};

const GROUPS: [&str; 4] = ["hand-made", "every code", "random", "refusals"];

// The most bytes of a program or a frame that are read.
const MOST: usize = 65600;

// What a run says, in the numbers of a case, so that all that is stored is compared. A case that cannot be read says only zeros.
#[derive(Clone, Copy, Debug, Default, PartialEq, Eq)]
struct Said {
    refusal: u32,
    answer: u8,
    verdict: u32,
    steps: u32,
}

// The bytes of a program or a frame: so many are stored, and so many zeros follow.
#[derive(Clone, Copy)]
struct Size {
    stored: u16,
    zeros: u16,
}

#[derive(Clone, Copy)]
struct Case {
    said: Said,
    program: Size,
    frame: Size,
}

#[derive(Clone, Copy, Default)]
struct Tally {
    runs: u64,
    differences: u64,
}

// ---- the run's answer in numbers

// "Rust's None is short or broken."
// A function: both types of a `From` would be other crates'.
fn answer_number(v: Verdict) -> u8 {
    match v {
        Verdict::Accepted => 1,
        Verdict::Dropped => 2,
        Verdict::Short | Verdict::Broken => 3,
    }
}

impl From<Result<Outcome, Refusal>> for Said {
    ghost from_gives = { λ r s. (s.refusal ≡ refusal_of r) × (s.verdict ≡ verdict_of r) × (s.steps ≡ steps_of r) };

    fn from(r: Result<Outcome, Refusal>) -> Said {
        match r {
            Ok(o) => Said {
                refusal: 0,
                answer: answer_number(o.verdict),
                verdict: u32::from(o.verdict),
                steps: o.steps,
            },
            Err(f) => Said {
                refusal: u32::from(f),
                answer: 0,
                verdict: 0,
                steps: 0,
            },
        }
    }
}

impl Display for Said {
    fn fmt<W: fmt::Write>(&self, f: &mut Formatter<W>) -> fmt::Result {
        let Said {
            refusal,
            answer,
            verdict,
            steps,
        } = *self;
        write!(
            f,
            "refusal {refusal} answer {answer} verdict {verdict} steps {steps}"
        )
    }
}

// ---- the tally

impl Display for Tally {
    fn fmt<W: fmt::Write>(&self, f: &mut Formatter<W>) -> fmt::Result {
        let Tally { runs, differences } = *self;
        write!(f, "{runs} runs, {differences} differences\n")
    }
}

impl Tally {
    fn count(&mut self, is_same: bool)
        requires runs { self.old.runs < 65535 }
        requires differences { self.old.differences ≤ self.old.runs }
        ensures runs { self.new.runs ≡ self.old.runs + 1 }
        ensures differences { self.new.differences ≡ self.old.differences + (if is_same then 0 else 1) }
    {
        self.runs += 1;
        if !is_same {
            self.differences += 1;
        }
    }

    fn add(&mut self, other: Tally)
        requires runs { self.old.runs + other.runs < 2 ^ 64 }
        requires differences { self.old.differences + other.differences < 2 ^ 64 }
        ensures runs { self.new.runs ≡ self.old.runs + other.runs }
        ensures differences { self.new.differences ≡ self.old.differences + other.differences }
    {
        self.runs += other.runs;
        self.differences += other.differences;
    }
}

// ---- a case

impl From<[u8; 12]> for Case {
    fn from(h: [u8; 12]) -> Case {
        Case {
            said: Said {
                refusal: u32::from(h[2]),
                answer: h[0],
                verdict: u32::from(h[1]),
                steps: u32::from(u16::from_be_bytes([h[4], h[5]])),
            },
            program: Size {
                stored: u16::from_be_bytes([h[6], h[7]]),
                zeros: u16::from_be_bytes([h[8], h[9]]),
            },
            frame: Size {
                stored: u16::from(h[3]),
                zeros: u16::from_be_bytes([h[10], h[11]]),
            },
        }
    }
}

// ---- the replay

// An input without errors: a read that fails is its end.
#[derive(Drop)]
struct Input<R>(R);

impl<R: Read> Read for Input<R> {
    fn read(&mut self, buffer: &mut [u8]) -> io::Result<usize> {
        Ok(self.0.read(buffer).unwrap_or(0))
    }
}

impl Size {
    // Reads to the front of a buffer. Nothing is read where the buffer is too small.
    fn read<'a, R: Read>(self, input: &mut R, buffer: &'a mut [u8; MOST]) -> io::Result<&'a [u8]> {
        let stored = usize::from(self.stored);
        let length = stored + usize::from(self.zeros);
        if MOST < length {
            return Err(io::Error::from(ErrorKind::InvalidData));
        }
        input.read_exact(&mut buffer[..stored])?;
        buffer[stored..length].fill(0);
        Ok(&buffer[..length])
    }
}

// Each of the two replays has its own: what they share is the reading of a count and of some bytes.
#[derive(Drop)]
struct Replay<R, W> {
    input: R,
    out: W,
    program: [u8; MOST],
    frame: [u8; MOST],
}

impl<R: Read, W: Write> Replay<R, W> {
    // What a run of the case says.
    fn run(&mut self, case: Case) -> io::Result<Said> {
        let program = case.program.read(&mut self.input, &mut self.program)?;
        let frame = case.frame.read(&mut self.input, &mut self.frame)?;
        Ok(Said::from(machine::run(program, frame)))
    }

    // What is stored of the next case, and what is said of it here. It fails where the input ends within the twelve bytes.
    fn next(&mut self) -> io::Result<(Said, Said)> {
        let mut head = [0u8; 12];
        self.input.read_exact(&mut head)?;
        let case = Case::from(head);
        Ok((case.said, self.run(case).unwrap_or_default()))
    }

    // Answers whether the next case's run says what is stored. Of a case that has no twelve bytes there is nothing to say.
    fn case(&mut self, group: &str, index: u64) -> io::Result<bool> {
        match self.next() {
            Ok((stored, here)) if stored == here => return Ok(true),
            Ok((stored, here)) => write!(self.out, "{group} {index}: {here}, stored {stored}\n")?,
            Err(_) => {}
        }
        Ok(false)
    }

    // An input that ends before a group has no cases of it.
    fn group(&mut self, group: &str) -> io::Result<Tally>
        ensures runs { IfOk result (λ tally. tally.runs < 65536) }
        ensures differences { IfOk result (λ tally. tally.differences < 65536) }
        ensures at_most_runs { IfOk result (λ tally. tally.differences ≤ tally.runs) }
    {
        let mut count = [0u8; 2];
        let _ = self.input.read_exact(&mut count);
        let mut tally = Tally::default();
        for index in 0..u64::from(u16::from_be_bytes(count)) {
            tally.count(self.case(group, index)?);
        }
        write!(self.out, "{group}: {tally}")?;
        Ok(tally)
    }

    fn all(&mut self) -> io::Result<()> {
        let mut tally = Tally::default();
        for group in GROUPS {
            tally.add(self.group(group)?);
        }
        write!(self.out, "{tally}")?;
        self.out.flush()
    }
}

fn main(rt: HostRuntime) -> io::Result<()> {
    let alloc = rt.alloc();
    let mut replay = Replay {
        input: Input(BufReader::new(alloc, rt.reader())?),
        out: BufWriter::new(alloc, io::writer(&rt))?,
        program: [0; MOST],
        frame: [0; MOST],
    };
    replay.all()
}

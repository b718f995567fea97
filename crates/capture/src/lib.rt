// Classic pcap files: the file header, the frames as parts of the file, and how many of them a program accepts.
#![tactic(auto)]

ghost use Rattle.std.specs.Prelude.{◌≡◌, true, ◌+◌, ◌^◌, ◌≤◌, ◌<◌, length, drop};
ghost use Rattle.capture.specs.Capture.{number_at, is_mark, order_of, field_of, opened, front, piece, part, frame_at};
ghost use Rattle.capture.specs.Counting as C;
ghost use Rattle.capture.specs.Promises.{Sound};
ghost use Rattle.capture.specs.Turns as T;
ghost use Rattle.capture.specs.declared.Stage.TheVariants.{Header};

use ast::LinkType;
use bpf::{be_u32, le_u32};
use error::Refusal;
use std::ops::Add;
use vm::{Outcome, Verdict};

// The bytes of a file header and of a frame header.
const FILE_HEADER: usize = 24;

const FRAME_HEADER: usize = 16;

// The places of the link in a file header and of the captured length in a frame header.
const LINK: usize = 20;

const CAPTURED: usize = 8;

// The longest frame.
const LONGEST: usize = 65535;

// A byte of so many is read of a frame before its run: two lines of a processor's cache.
const FETCHED: usize = 128;

// The byte order of a file's numbers.
#[derive(Clone, Copy, Debug, PartialEq, Eq)]
pub enum Order {
    Big,
    Little,
}

// What stands at the front of some bytes: a whole frame of so many bytes behind its header, one that runs past them, or one that is
// over 65,535 bytes. A window awaits more of the second and turns the third down.
#[derive(Clone, Copy, Debug, PartialEq, Eq)]
pub enum Front {
    Whole(usize),
    Past,
    Over,
}

// How many of the frames given are kept, how many are given, and the place where reading stopped.
#[derive(Clone, Copy, Debug, PartialEq, Eq)]
pub struct Tally {
    pub kept: u64,
    pub given: u64,
    pub stop: usize,
}

// A refusal, and the frames before it.
#[derive(Clone, Copy, Debug, PartialEq, Eq)]
pub struct Halt {
    pub refusal: Refusal,
    pub tally: Tally,
}

// How far a file is read: its header, its frames, or to a refusal.
// It is kept between two windows, so that it is a value and no closure.
#[derive(Clone, Copy, Debug, PartialEq, Eq)]
pub enum Stage {
    Header,
    Within(Order),
    Turned(Refusal),
}

// One window of a file: how far the file is read then, and the window's frames.
#[derive(Clone, Copy, Debug, PartialEq, Eq)]
pub struct Step {
    pub stage: Stage,
    pub tally: Tally,
}

impl Tally {
    // No frame, and nothing read.
    pub const NONE: Tally = Tally {
        kept: 0,
        given: 0,
        stop: 0,
    };
}

// The frames of two parts of a file, one behind the other.
impl Add for Tally {
    type Output = Tally;

    ghost can_add = { λ t u. (Sound t × Sound u) × (t.stop + u.stop < 2 ^ 64) };

    ghost add_gives = { λ t u r. r ≡ T.sum t u };

    fn add(self, rhs: Tally) -> Tally {
        Tally {
            kept: self.kept + rhs.kept,
            given: self.given + rhs.given,
            stop: self.stop + rhs.stop,
        }
    }
}

// A refusal before any frame.
impl From<Refusal> for Halt {
    ghost from_gives = { λ refusal h. h ≡ C.halt refusal C.none };

    fn from(early: Refusal) -> Halt {
        Halt {
            refusal: early,
            tally: Tally::NONE,
        }
    }
}

// ---- the file header

impl Order {
    // The number of four bytes.
    fn number(self, bytes: &[u8], at: usize) -> u32
        requires { at + 4 ≤ length bytes.now }
        ensures { result ≡ number_at self at bytes.now }
    {
        match self {
            Order::Big => be_u32(bytes, at),
            Order::Little => le_u32(bytes, at),
        }
    }
}

fn is_mark(n: u32) -> bool
    ensures { result ≡ is_mark n }
{
    matches!(n, 0xa1b2c3d4 | 0xa1b23c4d)
}

// Number 12, or the byte order.
#[tactic(auto, unfolding(crate::specs::Capture::order_of))]
fn order_of(capture: &[u8]) -> Result<Order, Refusal>
    ensures { result ≡ order_of capture.now }
{
    if capture.len() < FILE_HEADER {
        Err(Refusal::NoCapture)
    } else if is_mark(Order::Big.number(capture, 0)) {
        Ok(Order::Big)
    } else if is_mark(Order::Little.number(capture, 0)) {
        Ok(Order::Little)
    } else {
        Err(Refusal::NoCapture)
    }
}

// A function: both types of a `From` would be other crates'.
fn field_of(link: LinkType) -> u32
    ensures { result ≡ field_of link }
{
    match link {
        LinkType::Ethernet => 1,
        LinkType::RawIp => 101,
        LinkType::LinuxSll => 113,
    }
}

// Numbers 12 and 13, or the byte order.
#[tactic(auto, using(crate::proofs::Coded::order_long), unfolding(crate::specs::Capture::opened))]
fn read_header(bytes: &[u8], link: LinkType) -> Result<Order, Refusal>
    ensures { result ≡ opened link bytes.now }
{
    let order = order_of(bytes)?;
    if order.number(bytes, LINK) == field_of(link) {
        Ok(order)
    } else {
        Err(Refusal::OtherLink)
    }
}

// ---- the frames

impl Order {
    // What stands at a place.
    #[tactic(auto, using(crate::proofs::Coded::front_head, crate::proofs::Coded::front_over, crate::proofs::Coded::front_body, crate::proofs::Coded::front_here))]
    fn front(self, bytes: &[u8], at: usize) -> Front
        requires { at ≤ length bytes.now }
        ensures { result ≡ front self (drop at bytes.now) }
    {
        let left = bytes.len() - at;
        if left < FRAME_HEADER {
            return Front::Past;
        }
        let n = self.number(bytes, at + CAPTURED) as usize;
        if LONGEST < n {
            return Front::Over;
        }
        if left < FRAME_HEADER + n {
            return Front::Past;
        }
        Front::Whole(n)
    }
}

// The frame whose header stands at a place: the part of these bytes behind it, as long as it says.
pub fn frame<'a>(bytes: &'a [u8], order: Order, at: usize) -> &'a [u8]
    requires { at + 16 + number_at order (at + 8) bytes.now ≤ length bytes.now }
    ensures { result.now ≡ part bytes.now (piece (at + 16) (number_at order (at + 8) bytes.now)) }
{
    let n = order.number(bytes, at + CAPTURED) as usize;
    let from = at + FRAME_HEADER;
    &bytes[from..from + n]
}

// The captured length of the frame whose header stands at a place of a capture, or number 12 or 14.
#[tactic(auto, using(crate::proofs::Coded::front_head), unfolding(crate::specs::Capture::frame_at))]
pub fn frame_at(capture: &[u8], at: usize) -> Result<usize, Refusal>
    ensures { result ≡ frame_at capture.now at }
{
    let order = order_of(capture)?;
    if capture.len() < at {
        return Err(Refusal::CutFrame);
    }
    match order.front(capture, at) {
        Front::Whole(n) => Ok(n),
        Front::Past | Front::Over => Err(Refusal::CutFrame),
    }
}

// ---- the accepted frames

fn accepts(program: &[u8], frame: &[u8]) -> bool
    ensures { result ≡ C.keeps program.now frame.now }
{
    let run = machine::run(program, frame);
    matches!(
        run,
        Ok(Outcome {
            verdict: Verdict::Accepted,
            ..
        })
    )
}

// Reads a byte of every 128 of a frame, so that the processor foresees what follows: where the next header stands is known from this
// one alone, and each would be waited for. The sum is always below the bound, which the compiler does not see, so that it keeps the
// reads.
fn fetched(frame: &[u8]) -> bool
    requires { length frame.now ≤ 65535 }
    ensures { result ≡ true }
{
    let mut sum = 0u32;
    for at in (FETCHED..frame.len()).step_by(FETCHED) {
        sum += u32::from(frame[at]);
    }
    sum < 0x80000000
}

fn keeps(program: &[u8], frame: &[u8]) -> bool
    requires { length frame.now ≤ 65535 }
    ensures { result ≡ C.keeps program.now frame.now }
{
    fetched(frame) && accepts(program, frame)
}

// ---- a file in windows

impl Stage {
    // Nothing of the window is used.
    fn stay(self) -> Step
        ensures { result ≡ T.stay self }
    {
        Step {
            stage: self,
            tally: Tally::NONE,
        }
    }
}

// The whole frames at the front of a window: each is run where it lies.
// Program, link and bytes stay parameters: the public `take_window` and `count` have them in this order.
#[tactic(auto, using(crate::proofs::Passing::whole_at, crate::proofs::Passing::frame_few))]
fn count_window(program: &[u8], order: Order, bytes: &[u8]) -> Step
    ensures { result ≡ T.window program.now order bytes.now }
{
    let mut tally = Tally::NONE;
    // It ends at the window's last whole frame; the place is in the tally, which a frame moves by its own length.
    loop {
        match order.front(bytes, tally.stop) {
            Front::Whole(n) => {
                tally.kept += u64::from(keeps(program, frame(bytes, order, tally.stop)));
                tally.given += 1;
                tally.stop += FRAME_HEADER + n;
            }
            Front::Past => {
                return Step {
                    stage: Stage::Within(order),
                    tally,
                };
            }
            Front::Over => {
                return Step {
                    stage: Stage::Turned(Refusal::CutFrame),
                    tally,
                };
            }
        }
    }
}

// The window of which the file header is the beginning.
#[tactic(auto, using(crate::proofs::Passing::rest_is, crate::proofs::Joins::window_few))]
fn first_window(program: &[u8], order: Order, bytes: &[u8]) -> Step
    requires { 24 ≤ length bytes.now }
    ensures { result ≡ T.onto T.file_header (T.window program.now order (drop 24 bytes.now)) }
{
    let mut step = count_window(program, order, &bytes[FILE_HEADER..]);
    step.tally.stop += FILE_HEADER;
    step
}

#[tactic(auto, unfolding(crate::specs::Turns::step))]
fn begin(program: &[u8], link: LinkType, bytes: &[u8]) -> Step
    ensures { result ≡ T.step program.now link Header bytes.now }
{
    if bytes.len() < FILE_HEADER {
        return Stage::Header.stay();
    }
    match read_header(bytes, link) {
        Ok(order) => first_window(program, order, bytes),
        Err(refusal) => Stage::Turned(refusal).stay(),
    }
}

// One window: the bytes of a file that are not yet used, as far as they are there.
#[tactic(auto, unfolding(crate::specs::Turns::step))]
pub fn take_window(program: &[u8], link: LinkType, stage: Stage, bytes: &[u8]) -> Step
    ensures { result ≡ T.step program.now link stage bytes.now }
{
    match stage {
        Stage::Header => begin(program, link, bytes),
        Stage::Within(order) => count_window(program, order, bytes),
        Stage::Turned(_) => stage.stay(),
    }
}

// The answer at the end of a file that was read in windows, so many bytes of it not used.
pub fn finish(stage: Stage, tally: Tally, left: usize) -> Result<Tally, Halt>
    ensures { result ≡ T.finish stage tally left }
{
    match stage {
        Stage::Header => Err(Halt {
            refusal: Refusal::NoCapture,
            tally,
        }),
        Stage::Within(_) if left == 0 => Ok(tally),
        Stage::Within(_) => Err(Halt {
            refusal: Refusal::CutFrame,
            tally,
        }),
        Stage::Turned(refusal) => Err(Halt { refusal, tally }),
    }
}

// ---- a whole file

// A program of a link over each frame of a capture: the capture is one window.
#[tactic(auto, using(crate::proofs::Turning::step_few, crate::proofs::Turning::one_window))]
pub fn count(program: &[u8], link: LinkType, capture: &[u8]) -> Result<Tally, Halt>
    ensures { result ≡ C.counted program.now link capture.now }
{
    let Step { stage, tally } = take_window(program, link, Stage::Header, capture);
    finish(stage, tally, capture.len() - tally.stop)
}

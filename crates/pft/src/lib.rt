// The functions that Rust and C call by the archive of the crate pft_c, each answering one number.
#![tactic(auto)]

ghost use Rattle.std.specs.Prelude.{◌≡◌, ◌+◌, ◌*◌, ◌^◌, ◌≤◌, length};
ghost use Rattle.error.specs.Answer.{number_of};
ghost use Rattle.vm.specs.Machine as M;
ghost use Rattle.direct.specs.Direct.{direct};
ghost use Rattle.build.specs.Build.{build, question, load};
ghost use Rattle.capture.specs.Capture.{frame_at};
ghost use Rattle.count.specs.Count.{count};
ghost use Rattle.typing.specs.Typed.{typed};
ghost use Rattle.pft.specs.Numbers.{version, run_number, build_number, direct_number, count_number, frame_number, type_number};

use capture::Halt;
use error::Refusal;
use typing::Fault;

const VERSION: u32 = 5;

// A refusal stands above the 16 bits of a count of instructions, and above the 32 bits of a count of frames or a place.
const ABOVE_COUNT: u32 = 1 << 16;

const ABOVE_PLACE: u64 = 1 << 32;

// A refusal where a verdict or a truth stands else.
const REFUSED: u32 = 256;

// The number of this interface.
pub fn pft_version() -> u32
    ensures { result ≡ version }
{
    VERSION
}

// A count, or a refusal times 65,536. Both types of a `From` would be of other crates.
fn build_number(res: Result<u32, Refusal>) -> u32
    ensures { result ≡ build_number res }
{
    match res {
        Ok(n) => n,
        Err(refusal) => u32::from(refusal) * ABOVE_COUNT,
    }
}

// The build of a tree file into a lent buffer, as one number. Here and below the tree and the buffer are two parameters, as C passes them.
pub fn pft_build(tree: &[u8], program: &mut [u8]) -> u32
    ensures { (result ≡ build_number (build tree.now (length program.old)).answer) × (program.new ≡ (build tree.now (length program.old)).buffer) }
{
    build_number(build::build(tree, program))
}

// The count or refusal of a tree file, as one number.
pub fn pft_question(tree: &[u8]) -> u32
    ensures { result ≡ build_number (question tree.now) }
{
    build_number(build::question(tree))
}

// The build of a tree file that still has this count, as one number.
pub fn pft_load(tree: &[u8], count: u32, program: &mut [u8]) -> u32
    ensures { (result ≡ build_number (load tree.now count (length program.old)).answer) × (program.new ≡ (load tree.now count (length program.old)).buffer) }
{
    build_number(build::load(tree, count, program))
}

// The direct reading of a tree file on a frame, as one number.
pub fn pft_direct(tree: &[u8], frame: &[u8]) -> u32
    ensures { result ≡ direct_number (direct tree.now frame.now) }
{
    match evaluate::direct_reading(tree, frame) {
        Ok(truth) => u32::from(truth),
        Err(refusal) => REFUSED + u32::from(refusal),
    }
}

// The run of a program over a frame, as one number.
pub fn pft_run(program: &[u8], frame: &[u8]) -> u32
    ensures { result ≡ run_number (M.run program.now frame.now) }
{
    match machine::run(program, frame) {
        Ok(outcome) => u32::from(outcome.verdict) * ABOVE_COUNT + outcome.steps,
        Err(refusal) => (REFUSED + u32::from(refusal)) * ABOVE_COUNT,
    }
}

// A refusal beside a count of frames or bytes, or a place.
fn beside(refusal: Refusal, n: u64) -> u64
    requires { n + 2 ^ 40 ≤ 2 ^ 64 }
    ensures { result ≡ number_of refusal * 2 ^ 32 + n }
{
    u64::from(u32::from(refusal)) * ABOVE_PLACE + n
}

// The count of a capture's frames that a tree file's program accepts, as one number.
pub fn pft_count(tree: &[u8], program: &mut [u8], capture: &[u8]) -> u64
    ensures { (result ≡ count_number (count tree.now (length program.old) capture.now).answer) × (program.new ≡ (count tree.now (length program.old) capture.now).buffer) }
{
    match count::count(tree, program, capture) {
        Ok(tally) => tally.kept,
        Err(Halt { refusal, tally }) => beside(refusal, tally.kept),
    }
}

// The captured length of the frame whose header stands at a place of a capture, as one number.
pub fn pft_frame(capture: &[u8], at: usize) -> u64
    ensures { result ≡ frame_number (frame_at capture.now at) }
{
    match capture::frame_at(capture, at) {
        Ok(n) => n as u64,
        Err(refusal) => beside(refusal, 0),
    }
}

// The tree file of a typed line in 3,080 lent bytes, as one number.
pub fn pft_type(link: u8, text: &[u8], tree: &mut [u8; 3080]) -> u64
    ensures { (result ≡ type_number (typed link text.now).answer) × (tree.new ≡ (typed link text.now).tree) }
{
    match type_line::type_line(link, text, tree) {
        Ok(n) => n as u64,
        Err(Fault { refusal, place }) => beside(refusal, place as u64),
    }
}

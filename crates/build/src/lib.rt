// A tree file's program in a lent buffer: the build, and its two halves, the question and the load.
#![tactic(auto)]

ghost use Rattle.std.specs.Prelude.{◌≡◌, ◌≤◌, length};
ghost use Rattle.generate.specs.Promises.{Generates};
ghost use Rattle.build.specs.Build.{program, build, question, load};
ghost use Rattle.build.specs.Promises.{answer_of};

use error::Refusal;

// A file's program, counted or refused, and written where the lent part has room for it.
fn generated(tree: &[u8], part: &mut [u8]) -> Result<usize, Refusal>
    ensures { Generates (program tree.now) part.old part.new result }
{
    let link = reader::check(tree)?;
    generate::generate(tree, link, part)
}

// The answer for n instructions where so many bytes are lent.
fn within(lent: usize, n: usize) -> Result<u32, Refusal>
    requires { n ≤ 65536 }
    ensures { result ≡ answer_of lent n }
{
    if lent < 8 * n {
        return Err(Refusal::ShortBuffer);
    }
    Ok(n as u32)
}

// A tree file's program in the lent buffer, and zeros after it; or a refusal and zeros.
pub fn build(tree: &[u8], program: &mut [u8]) -> Result<u32, Refusal>
    ensures { (result ≡ (build tree.now (length program.old)).answer) × (program.new ≡ (build tree.now (length program.old)).buffer) }
{
    program.fill(0);
    let count = generated(tree, program)?;
    within(program.len(), count)
}

// A tree file's count or refusal.
pub fn question(tree: &[u8]) -> Result<u32, Refusal>
    ensures { result ≡ question tree.now }
{
    let count = generated(tree, &mut [])?;
    Ok(count as u32)
}

// The build of a tree file that still has this count.
pub fn load(tree: &[u8], count: u32, program: &mut [u8]) -> Result<u32, Refusal>
    ensures { (result ≡ (load tree.now count (length program.old)).answer) × (program.new ≡ (load tree.now count (length program.old)).buffer) }
{
    program.fill(0);
    let now = generated(tree, program)?;
    if now as u32 != count {
        program.fill(0);
        return Err(Refusal::CountMoved);
    }
    within(program.len(), now)
}

// The frames of a capture that a tree file's program accepts.
#![tactic(auto)]

ghost use Rattle.std.specs.Prelude.{◌≡◌, length};
ghost use Rattle.count.specs.Count.{count};

use capture::{Halt, Tally};

// A tree file's program in the lent buffer, run over each frame of a capture. A refusal of the tree's own comes before any frame.
#[tactic(auto, using(crate::proofs::Answers::built), unfolding(crate::specs::Count::count))]
pub fn count(tree: &[u8], program: &mut [u8], capture: &[u8]) -> Result<Tally, Halt>
    ensures { (result ≡ (count tree.now (length program.old) capture.now).answer) × (program.new ≡ (count tree.now (length program.old) capture.now).buffer) }
{
    let insns = build::build(tree, program)?;
    let link = reader::header(tree)?;
    let size = 8 * (insns as usize);
    capture::count(&program[..size], link, capture)
}

// The program of a tree whose file passed checks 1 to 4: counted or refused whatever is lent, and written where there is room for it.
#![tactic(auto)]

ghost use Rattle.std.specs.Prelude.{◌≡◌, ◌*◌, ◌≤◌, length, take};
ghost use Rattle.codegen.specs.Compile as C;
ghost use Rattle.reader.specs.Reader.{tree_of};
ghost use Rattle.generate.specs.Promises as P;

use ast::LinkType;
use bpf::Insn;
use codegen::GuardSet;
use emit::{Emitter, Patch};
use error::Refusal;
use guards::Note;

// A file of n records has 8 + 24 × n bytes and n notes. Its tree has at most 60 × ((n + 1) / 2) + n + 1 − 25 lines before the two returns, and
// as many pending jumps. The arrays are cleared at each call, so a short file gets short ones; they are of a fixed size, since no memory is
// asked for.

// These are for a file of at most two records: it has no join, so that there are no notes.
const TINY_FILE: usize = 56;

const TINY_NOTES: usize = 0;

const TINY_LINES: usize = 40;

const TINY_JUMPS: usize = 38;

// These are for at most eight records.
const SMALL_FILE: usize = 200;

const SMALL_NOTES: usize = 8;

const SMALL_LINES: usize = 226;

const SMALL_JUMPS: usize = 224;

// These are for at most 16 records.
const MEDIUM_FILE: usize = 392;

const MEDIUM_NOTES: usize = 16;

const MEDIUM_LINES: usize = 474;

const MEDIUM_JUMPS: usize = 472;

// These are for at most 32 records.
const MIDDLE_FILE: usize = 776;

const MIDDLE_NOTES: usize = 32;

const MIDDLE_LINES: usize = 970;

const MIDDLE_JUMPS: usize = 968;

// These are for at most 128 records, the most that a file has.
const LARGE_NOTES: usize = 128;

const LARGE_LINES: usize = 3946;

const LARGE_JUMPS: usize = 3944;

// What the arrays hold before anything is written.
const NO_INSN: Insn = Insn {
    code: 0,
    jt: 0,
    jf: 0,
    k: 0,
};

const NO_PATCH: Patch = Patch::Jt(0);

// The program in arrays of these lengths.
// The clause and the three parameters are the public function's, which two steps hand on.
// Not inlined, so that a call takes the stack of its own arrays, and not that of the largest.
#[inline(never)]
fn generate_in<const NOTES: usize, const LINES: usize, const JUMPS: usize>(
    tree: &[u8],
    link: LinkType,
    part: &mut [u8],
) -> Result<usize, Refusal>
    requires stands { P.Stands tree.now }
    requires room { P.Suffices tree.now NOTES LINES JUMPS (length part.old) }
    ensures { P.Generates (C.compile link (tree_of tree.now 0)) part.old part.new result }
{
    // Notes, lines and jumps are arrays of fixed sizes, since no memory is asked for.
    let no_note = Note {
        guards: GuardSet::none(),
        end: 0,
    };
    let mut notes = [no_note; NOTES];
    let mut insns = [NO_INSN; LINES];
    let mut success = [NO_PATCH; JUMPS];
    let mut failure = [NO_PATCH; JUMPS];
    let mut e = Emitter::new(link, &mut insns, &mut success, &mut failure);
    compile::compile(tree, &mut notes, &mut e)?;
    let count = e.count;
    if 8 * count <= part.len() {
        output::write_program(part, &e.insns[..count]);
    }
    Ok(count)
}

// No lines, where the part holds no instruction.
fn generate_by<const NOTES: usize, const LINES: usize, const JUMPS: usize>(
    tree: &[u8],
    link: LinkType,
    part: &mut [u8],
) -> Result<usize, Refusal>
    requires stands { P.Stands tree.now }
    requires room { P.Suffices tree.now NOTES LINES JUMPS 1 }
    ensures { P.Generates (C.compile link (tree_of tree.now 0)) part.old part.new result }
{
    if part.is_empty() {
        return generate_in::<NOTES, 0, JUMPS>(tree, link, part);
    }
    generate_in::<NOTES, LINES, JUMPS>(tree, link, part)
}

// The program's count or refusal; the part starts with the program where it has room for it, and else stays as it is. Who wants the count
// alone lends an empty part.
pub fn generate(tree: &[u8], link: LinkType, part: &mut [u8]) -> Result<usize, Refusal>
    requires { P.Stands tree.now }
    ensures { P.Generates (C.compile link (tree_of tree.now 0)) part.old part.new result }
{
    if tree.len() <= TINY_FILE {
        generate_by::<TINY_NOTES, TINY_LINES, TINY_JUMPS>(tree, link, part)
    } else if tree.len() <= SMALL_FILE {
        generate_by::<SMALL_NOTES, SMALL_LINES, SMALL_JUMPS>(tree, link, part)
    } else if tree.len() <= MEDIUM_FILE {
        generate_by::<MEDIUM_NOTES, MEDIUM_LINES, MEDIUM_JUMPS>(tree, link, part)
    } else if tree.len() <= MIDDLE_FILE {
        generate_by::<MIDDLE_NOTES, MIDDLE_LINES, MIDDLE_JUMPS>(tree, link, part)
    } else {
        generate_by::<LARGE_NOTES, LARGE_LINES, LARGE_JUMPS>(tree, link, part)
    }
}

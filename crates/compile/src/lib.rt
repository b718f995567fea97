// A tree's program: codegen.rs `emit_expr` and `compile`, over the records of a tree file.
#![tactic(auto)]

ghost use Rattle.std.specs.Prelude.{◌≡◌, ◌+◌};
ghost use Rattle.ast.specs.Tree.{And, Or};
ghost use Rattle.codegen.specs.Emit as E;
ghost use Rattle.codegen.specs.Compile as C;
ghost use Rattle.codegen.proofs.Shape.{weight};
ghost use Rattle.emit.specs.Grown.{Empty, Lent, Room, Replies};
ghost use Rattle.reader.specs.Reader.{tree_of, end_of};
ghost use Rattle.reader.proofs.Here.{TwoParts, OnePart};
ghost use Rattle.compile.specs.Walks as W;

use ast::{LinkType, Node};
use bpf::Insn;
use codegen::Side;
use emit::{Emitter, Patch};
use error::Refusal;
use guards::Note;

// A tree file, and the notes of its records, which joins read.
#[derive(Clone, Copy)]
struct Noted<'a> {
    tree: &'a [u8],
    notes: &'a [Note],
}

// ---- joins

impl<'a> Noted<'a> {
    // The tree at record i.
    // The walk is a clause of five: its record is another at each call.
    #[cycle(emission)]
    fn emit_expr(self, i: usize, e: &mut Emitter<'_>) -> Result<(), Refusal>
        requires walk { W.Walk self.tree.now self.notes.now i }
        requires room { Room (weight (tree_of self.tree.now i)) e.old }
        ensures { Replies (E.emit e.old.link (tree_of self.entry.tree.now i) e.old.facts) e.old e.new result }
    {
        match reader::node(self.tree, i) {
            Node::AndNode => self.emit_and(i, e),
            Node::OrNode => self.emit_or(i, e),
            Node::NotNode => self.emit_not(i, e),
            Node::LeafNode(p) => primitives::emit_primitive(e, p),
        }
    }

    // Left falls through to right on success.
    // A function for each join, as `emit_expr` has an arm for each: what they do between their sides differs.
    #[cycle(emission)]
    fn emit_and(self, i: usize, e: &mut Emitter<'_>) -> Result<(), Refusal>
        requires walk { W.Walk self.tree.now self.notes.now i }
        requires parts { TwoParts And self.tree.now i }
        requires room { Room (weight (tree_of self.tree.now i)) e.old }
        ensures { Replies (E.emit e.old.link (tree_of self.entry.tree.now i) e.old.facts) e.old e.new result }
    {
        let mark = e.successes;
        self.emit_expr(i + 1, e)?;
        e.settle(Side::Success, mark, 0)?;
        let right = self.notes[i + 1].end;
        self.emit_expr(right, e)
    }

    // The guards of both sides, and then the two sides.
    #[cycle(emission)]
    fn emit_or(self, i: usize, e: &mut Emitter<'_>) -> Result<(), Refusal>
        requires walk { W.Walk self.tree.now self.notes.now i }
        requires parts { TwoParts Or self.tree.now i }
        requires room { Room (weight (tree_of self.tree.now i)) e.old }
        ensures { Replies (E.emit e.old.link (tree_of self.entry.tree.now i) e.old.facts) e.old e.new result }
    {
        let required = self.notes[i].guards;
        ports::emit_or_hoist(e, required)?;
        self.emit_arms(i, e)
    }

    // Left's failures go to right; left's success jumps past right. After both, their facts meet.
    #[cycle(emission)]
    fn emit_arms(self, i: usize, e: &mut Emitter<'_>) -> Result<(), Refusal>
        requires walk { W.Walk self.tree.now self.notes.now i }
        requires parts { TwoParts Or self.tree.now i }
        requires room { Room (weight (tree_of self.tree.now (i + 1)) + 1 + weight (tree_of self.tree.now (end_of self.tree.now (i + 1)))) e.old }
        ensures { Replies (W.arms e.old.link (tree_of self.entry.tree.now (i + 1)) (tree_of self.entry.tree.now (end_of self.entry.tree.now (i + 1))) e.old.facts) e.old e.new result }
    {
        let facts = e.facts;
        let x_writes = e.x_writes;
        let mark = e.failures;
        self.emit_expr(i + 1, e)?;
        let left = e.facts;
        let wrote_x = e.x_writes != x_writes;
        e.otherwise(mark)?;
        e.facts = facts.restored(wrote_x);
        let right = self.notes[i + 1].end;
        self.emit_expr(right, e)?;
        e.facts = left.meet(e.facts);
        Ok(())
    }

    // The inner failures are the successes here, so the two stacks change places. They change back on a refusal too: each keeps its row.
    #[cycle(emission)]
    fn emit_not(self, i: usize, e: &mut Emitter<'_>) -> Result<(), Refusal>
        requires walk { W.Walk self.tree.now self.notes.now i }
        requires part { OnePart self.tree.now i }
        requires room { Room (weight (tree_of self.tree.now i)) e.old }
        ensures { Replies (E.emit e.old.link (tree_of self.entry.tree.now i) e.old.facts) e.old e.new result }
    {
        let facts = e.facts;
        let x_writes = e.x_writes;
        e.turn();
        let mark = e.failures;
        if let Err(refusal) = self.emit_expr(i + 1, e) {
            e.turn();
            return Err(refusal);
        }
        let wrote_x = e.x_writes != x_writes;
        let settled = e.otherwise(mark);
        e.turn();
        settled?;
        e.facts = facts.restored(wrote_x);
        Ok(())
    }
}

// ---- the program

// The two returns.
const ACCEPT: Insn = Insn {
    code: 0x06,
    jt: 0,
    jf: 0,
    k: 0xffff_ffff,
};

const DROP: Insn = Insn {
    code: 0x06,
    jt: 0,
    jf: 0,
    k: 0,
};

// The lengths of a file's header and of a record, and that of a file of two records, in which no tree has a join.
const HEADER: usize = 8;

const RECORD: usize = 24;

const JOINLESS: usize = 56;

// The open exits go to the two returns: success to the first, failure to the second.
fn finish(e: &mut Emitter<'_>) -> Result<(), Refusal>
    requires { W.Ended e.old }
    ensures { W.Finishes e.old e.new result }
{
    e.settle(Side::Success, 0, 0)?;
    e.settle(Side::Failure, 0, 1)?;
    e.put(ACCEPT);
    e.put(DROP);
    Ok(())
}

// The notes that joins read.
fn note_joins(tree: &[u8], notes: &mut [Note])
    requires { W.Noting tree.now notes.old }
    ensures { W.Joined tree.now notes.new }
{
    if JOINLESS < tree.len() {
        guards::required_guards(tree, notes, (tree.len() - HEADER) / RECORD);
    }
}

// Nothing is added yet, and what the link type tells holds.
fn begin(e: &mut Emitter<'_>)
    ensures empty { Empty e.new }
    ensures lent { Lent e.old.link e.old.insns e.old.success e.old.failure e.new }
    ensures facts { e.new.facts ≡ C.entry_facts e.new.link }
{
    e.count = 0;
    e.successes = 0;
    e.failures = 0;
    e.x_writes = 0;
    e.facts = facts::entry_facts(e.link);
}

// The program of the file's tree, over whatever the emitter held.
pub fn compile(tree: &[u8], notes: &mut [Note], e: &mut Emitter<'_>) -> Result<(), Refusal>
    requires { W.Ready tree.now notes.old e.old.success.now e.old.failure.now }
    ensures { W.Compiles (C.compile e.old.link (tree_of tree.now 0)) e.old e.new result }
{
    note_joins(tree, notes);
    let file = Noted { tree, notes };
    begin(e);
    file.emit_expr(0, e)?;
    finish(e)
}

// The same for a link and over lent rows: the program's count, and the program at the start of `insns` where that reaches to its end.
// Six parameters: what `compile` takes, and what its emitter is made of.
pub fn compile_in(
    tree: &[u8],
    link: LinkType,
    notes: &mut [Note],
    insns: &mut [Insn],
    success: &mut [Patch],
    failure: &mut [Patch],
) -> Result<usize, Refusal>
    requires { W.Ready tree.now notes.old success.old failure.old }
    ensures { W.Programs (C.compile link (tree_of tree.now 0)) insns.new result }
{
    let mut e = Emitter::new(link, insns, success, failure);
    compile(tree, notes, &mut e)?;
    let count = e.count;
    // Taken out of the emitter: with that alone let go, nothing would be known of the lender's row.
    let _row = e.insns;
    Ok(count)
}

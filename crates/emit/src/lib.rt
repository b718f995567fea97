// Blocks in lent slices: codegen.rs `push`, `resolve`, `check_byte` and their like.
#![tactic(auto)]

ghost use Rattle.std.specs.Prelude.{◌≡◌, false, [], ◌∷◌, ◌+◌, ◌-◌, ◌≤◌, ◌<◌, ◌++◌, length, set, take, drop};
ghost use Rattle.codegen.specs.declared.Side.TheVariants.{Success, Failure};
ghost use Rattle.codegen.specs.declared.Exit.TheVariants.{Leave};
ghost use Rattle.codegen.specs.declared.Line.TheVariants.{Jump};
ghost use Rattle.codegen.specs.Facts.{no_facts};
ghost use Rattle.codegen.specs.Block.{far_line};
ghost use Rattle.codegen.specs.Emit as E;
ghost use Rattle.emit.specs.Lines.{assembled, exit_of, patch_of, place_of, resolved, resolve, Below, waiting};
ghost use Rattle.emit.specs.Grown.{Empty, Lent, Turned, Fits, Space, Spared, Apart, Put, Free, Waits, Grows, Settles, Open, Settled, Otherwise};

use ast::LinkType;
use bpf::Insn;
use codegen::{Exit, Facts, Line, Op, Side, Slot, Test, Width};
use error::Refusal;

// Writes an instruction at its place, if the lent row reaches so far. `store` of lines does so with an item: one function for both would
// need a crate below both for a test.
pub fn put_insn(insns: &mut [Insn], place: usize, insn: Insn)
    ensures { insns.new ≡ set insns.old place insn }
{
    if place < insns.len() {
        insns[place] = insn;
    }
}

// ---- pending jumps

// The field of an instruction that waits for a distance, by the instruction's place: codegen.rs `Patch`.
#[derive(Clone, Copy, Debug, PartialEq, Eq)]
pub enum Patch {
    Jt(u16),
    Jf(u16),
    Ja(u16),
}

impl Patch {
    fn place(self) -> usize
        ensures { result ≡ place_of self }
    {
        match self {
            Patch::Jt(i) | Patch::Jf(i) | Patch::Ja(i) => usize::from(i),
        }
    }
}

// Its jump, which is near.
fn exit_of(line: Line) -> Exit
    ensures exit { result ≡ exit_of line }
    ensures near { far_line line ≡ false }
{
    match line {
        Line::Plain(_) => Exit::Skip(0),
        Line::Branch(_, _, _, exit) | Line::Jump(exit) => exit,
    }
}

// The field of a line at a place that its distance goes to.
fn patch_of(line: Line, place: u16) -> Patch
    ensures { result ≡ patch_of line place }
{
    match line {
        Line::Branch(_, _, Slot::Jt, _) => Patch::Jt(place),
        Line::Branch(_, _, Slot::Jf, _) => Patch::Jf(place),
        Line::Plain(_) | Line::Jump(_) => Patch::Ja(place),
    }
}

// Writes the field that a patch names, jt, jf or k of one instruction, if the lent row reaches so far. All others stay.
fn resolve(insns: &mut [Insn], patch: Patch, distance: u8)
    ensures { insns.new ≡ resolved patch distance insns.old }
{
    let i = patch.place();
    if i < insns.len() {
        match patch {
            Patch::Jt(_) => insns[i].jt = distance,
            Patch::Jf(_) => insns[i].jf = distance,
            Patch::Ja(_) => insns[i].k = u32::from(distance),
        }
    }
}

// Gives pending jumps their distance to a target, or refuses where one exceeds 255.
pub fn resolve_all(insns: &mut [Insn], patches: &[Patch], target: usize) -> Result<(), Refusal>
    requires { Below target patches.now }
    ensures { Settles (resolve patches.now target insns.old) insns.new result }
{
    for patch in patches {
        let distance = target - patch.place() - 1;
        let Ok(near) = u8::try_from(distance) else {
            return Err(Refusal::FarJump);
        };
        resolve(insns, *patch, near);
    }
    Ok(())
}

// Puts a pending jump behind the `len` that a row holds.
fn push(row: &mut [Patch], len: &mut usize, patch: Patch)
    requires { len.old < length row.old }
    ensures len { len.new ≡ len.old + 1 }
    ensures row { row.new ≡ set row.old len.old patch }
{
    row[*len] = patch;
    *len += 1;
}

// Gives the pending jumps that a row holds, since it held `mark`, their distance to a target.
// The row stays. It is lent as the emitter holds it: a shared loan of a field beside one that is written is not proved yet.
fn settle_row(
    insns: &mut [Insn],
    row: &mut [Patch],
    mark: usize,
    len: usize,
    target: usize,
) -> Result<(), Refusal>
    requires mark { mark ≤ len }
    requires room { len ≤ length row.old }
    requires below { Below target (drop mark (waiting len row.old)) }
    ensures insns { Settles (resolve (drop mark (waiting len row.old)) target insns.old) insns.new result }
    ensures row { row.new ≡ row.old }
{
    resolve_all(insns, &row[mark..len], target)
}

// ---- a program that is being written

// The lines so far, as far as the lent row reaches: who asks for the count alone lends none; the jumps that are still open, by each side the
// first of a lent row; how often X was written; and the facts on the path that code falls through.
// A row and its length are a stack. They are fields of the emitter itself: of a row in a struct within it a caller that lent it would know
// nothing once the emitter is gone.
#[derive(Drop)]
pub struct Emitter<'a> {
    pub link: LinkType,
    pub insns: &'a mut [Insn],
    pub count: usize,
    pub success: &'a mut [Patch],
    pub successes: usize,
    pub failure: &'a mut [Patch],
    pub failures: usize,
    pub x_writes: usize,
    pub facts: Facts,
}

impl<'a> Emitter<'a> {
    // Nothing is written, and nothing is known.
    pub fn new(
        link: LinkType,
        insns: &'a mut [Insn],
        success: &'a mut [Patch],
        failure: &'a mut [Patch],
    ) -> Emitter<'a>
        ensures empty { Empty result }
        ensures lent { Lent link insns.entry success.entry failure.entry result }
        ensures facts { result.facts ≡ no_facts }
    {
        Emitter {
            link,
            insns,
            count: 0,
            success,
            successes: 0,
            failure,
            failures: 0,
            x_writes: 0,
            facts: Facts::none(),
        }
    }

    // Success and failure are exchanged.
    pub fn turn(&mut self)
        ensures { Turned self.old self.new }
    {
        std::mem::swap(&mut self.success, &mut self.failure);
        std::mem::swap(&mut self.successes, &mut self.failures);
    }

    // Writes an instruction at the end, if the lent row reaches so far.
    pub fn put(&mut self, insn: Insn)
        requires { self.old.count + 1 ≤ 65536 }
        ensures { Put insn self.old self.new }
    {
        put_insn(self.insns, self.count, insn);
        self.count += 1;
    }

    // A jump that is still open, in the row of its side.
    fn wait(&mut self, exit: Exit, patch: Patch)
        requires { Free exit self.old }
        ensures { Waits exit patch self.old self.new }
    {
        match exit {
            Exit::Skip(_) => {}
            Exit::Leave(Side::Success) => push(self.success, &mut self.successes, patch),
            Exit::Leave(Side::Failure) => push(self.failure, &mut self.failures, patch),
        }
    }

    // A line at the end.
    // Inlined, as what it calls: nearly every line is written out where it is added, and is put together when the code is compiled.
    #[inline(always)]
    pub fn add(&mut self, line: Line)
        requires { Fits line self.old }
        ensures lines { Grows (line ∷ []) self.old self.new }
        ensures apart { Apart (exit_of line) self.old self.new }
    {
        let place = self.count as u16;
        self.put(line.assemble());
        self.x_writes += usize::from(line.sets_x());
        self.wait(exit_of(line), patch_of(line, place));
    }

    // The exits by a side, since its stack was `mark` long, go to so many lines past the end.
    // Two arms: a method that lends one of the rows would hold the whole emitter, whose lines are written meanwhile.
    pub fn settle(&mut self, side: Side, mark: usize, over: usize) -> Result<(), Refusal>
        requires { Open side mark over self.old }
        ensures { Settled side mark over self.old self.new result }
    {
        let target = self.count + over;
        match side {
            Side::Success => {
                let len = self.successes;
                settle_row(self.insns, self.success, mark, len, target)?;
                self.successes = mark;
            }
            Side::Failure => {
                let len = self.failures;
                settle_row(self.insns, self.failure, mark, len, target)?;
                self.failures = mark;
            }
        }
        Ok(())
    }

    // The failures since their stack was `mark` long go to what follows, and success jumps out.
    pub fn otherwise(&mut self, mark: usize) -> Result<(), Refusal>
        requires room { Fits (Jump (Leave Success)) self.old }
        requires open { Open Failure mark 0 self.old }
        ensures { Otherwise mark self.old self.new result }
    {
        self.add(Line::Jump(Exit::Leave(Side::Success)));
        self.settle(Side::Failure, mark, 0)
    }

    // ---- tests

    // `jeq_k` whose jf fails.
    #[inline(always)]
    pub fn need(&mut self, k: u32)
        requires { Space 1 self.old }
        ensures lines { Grows (E.need k ∷ []) self.old self.new }
        ensures spared { Spared Success self.old self.new }
    {
        self.add(Line::Branch(Test::Jeq, k, Slot::Jf, Exit::Leave(Side::Failure)));
    }

    // `check_byte`, `check_halfword`, `check_word`.
    pub fn check(&mut self, width: Width, off: u32, expected: u32)
        requires { Space 2 self.old }
        ensures lines { Grows (E.check width off expected) self.old self.new }
        ensures spared { Spared Success self.old self.new }
    {
        self.add(Line::Plain(Op::LdAbs(width, off)));
        self.need(expected);
    }
}

// ---- a caller's own rows

// `need` over rows that a caller goes on with, and what stands in them once the emitter is gone.
// The emitter is written out here: of what is lent through `new` no more than `insns` is known then.
pub fn need_in(k: u32, insns: &mut [Insn], count: usize, failure: &mut [Patch], failures: usize)
    requires place { count + 1 ≤ 65536 }
    requires free { failures < length failure.old }
    ensures line { count < length insns.old → take (count + 1) insns.new ≡ take count insns.old ++ assembled (E.need k ∷ []) }
    ensures waits { waiting (failures + 1) failure.new ≡ waiting failures failure.old ++ (patch_of (E.need k) count ∷ []) }
{
    // How often X was written before tells nothing here.
    let x_writes = 0;
    let mut e = Emitter {
        link: LinkType::Ethernet,
        insns,
        count,
        success: &mut [],
        successes: 0,
        failure,
        failures,
        x_writes,
        facts: Facts::none(),
    };
    e.need(k);
    let _insns = e.insns;
    let _failure = e.failure;
}

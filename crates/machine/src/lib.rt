// The classic BPF machine: vm.rs, over the bytes of a program and of a frame.
#![tactic(auto)]

ghost use Rattle.std.specs.Prelude.{◌≡◌, ℕ, List, ◌+◌, ◌*◌, ◌/◌, ◌%◌, ◌^◌, ◌<◌, ◌≤◌, not, ◌||◌, length, replicate, if◌then◌else◌, ◌==◌, nat_eq, nat_lt, slice_index};
ghost use Rattle.bpf.specs.Bytes.{be, le_at};
ghost use Rattle.bpf.specs.Program.{insn};
ghost use Rattle.vm.specs.Machine as M;
ghost use Rattle.machine.specs.Runs.{loaded, settled, from, zeros, At, Next, Follows, Settles, Turns};
ghost use Rattle.machine.specs.declared.Way.TheVariants.{Taken, Missed};
ghost use Rattle.vm.specs.declared.Verdict.TheVariants.{Accepted, Dropped};
ghost use Rattle.vm.specs.declared.Effect.TheVariants.{SetA, SetX, Skip, Stop};

use bpf::{Insn, le_u16, le_u32};
use error::Refusal;
use vm::{Effect, Outcome, Verdict};

// The longest program and the longest frame, in bytes.
const LONGEST_PROGRAM: usize = 32768;

const LONGEST_FRAME: usize = 65535;

// The fields of a code, with the numbers of Linux's filter header. They are numbers and no enums: the machine's definition is tables over
// them, and any number may come. The class is its lowest three bits. All of them lie in its low byte.
const LD: u16 = 0;

const LDX: u16 = 1;

const ST: u16 = 2;

const STX: u16 = 3;

const ALU: u16 = 4;

const JMP: u16 = 5;

const RET: u16 = 6;

// The modes of a load.
const IMM: u16 = 0;

const ABS: u16 = 1;

const IND: u16 = 2;

const MEM: u16 = 3;

const LEN: u16 = 4;

const MSH: u16 = 5;

// The sizes of a packet load.
const W: u16 = 0;

const H: u16 = 1;

const B: u16 = 2;

// The operations of ALU.
const ADD: u16 = 0;

const SUB: u16 = 1;

const MUL: u16 = 2;

const DIV: u16 = 3;

const OR: u16 = 4;

const AND: u16 = 5;

const LSH: u16 = 6;

const RSH: u16 = 7;

const NEG: u16 = 8;

const XOR: u16 = 10;

// The operations of JMP.
const JA: u16 = 0;

const JEQ: u16 = 1;

const JGT: u16 = 2;

const JGE: u16 = 3;

const JSET: u16 = 4;

// The code of the test that may follow a load.
const JEQ_K: u16 = 0x15;

// The registers A and X. The first loop writes them in place: in an answer they would be packed into one word and taken apart again.
#[derive(Clone, Copy)]
pub struct Registers {
    pub a: u32,
    pub x: u32,
}

// How a run goes on: with the instruction that follows, by k, jt or jf, by the jt or jf of a test that follows a load; it ends;
// or the code is one that the first loop does not know, and nothing is done yet. It carries no value, not even a verdict, so that the
// compiler keeps a branch for each side of a test.
#[derive(Clone, Copy)]
pub enum Way {
    On,
    Jump,
    Taken,
    Missed,
    NextTaken,
    NextMissed,
    Accepted,
    Dropped,
    Short,
    Other,
}

// A program and a frame that are not refused.
#[derive(Clone, Copy)]
struct Job<'a> {
    program: &'a [u8],
    frame: &'a [u8],
    ghost program_limit: { length program.now ≤ 32768 },
    ghost program_whole: { length program.now % 8 ≡ 0 },
    ghost frame_limit: { length frame.now ≤ 65535 },
}

// What an instruction reads: the frame, the scratch words, A and X.
#[derive(Clone, Copy)]
struct State<'a> {
    frame: &'a [u8],
    scratch: &'a [u32; 16],
    registers: Registers,
    ghost frame_limit: { length frame.now ≤ 65535 },
}

// The big-endian number of at most four bytes: one for every width of a load, where a conversion of the library is for one.
#[tactic(auto, unfolding(bpf::specs::Bytes::be))]
fn number(bytes: &[u8]) -> u32
    requires { length bytes.now ≤ 4 }
    ensures { result ≡ be (length bytes.now) 0 bytes.now }
{
    let mut n = 0;
    for &byte in bytes {
        n = n * 256 + u32::from(byte);
    }
    n
}

// A packet load of any width.
#[tactic(auto, using(crate::proofs::Loads::part_be))]
fn load<const N: usize>(frame: &[u8], at: u32) -> Result<u32, Verdict>
    requires { N ≤ 4 }
    ensures { result ≡ loaded N at frame.now }
{
    let place = at as usize;
    if place + N <= frame.len() {
        Ok(number(&frame[place..place + N]))
    } else {
        Err(Verdict::Short)
    }
}

// 4 times the low half of a byte.
#[tactic(auto, unfolding(vm::specs::Machine::load))]
fn header_length(frame: &[u8], at: u32) -> Result<u32, Verdict>
    ensures { settled SetX result ≡ M.load 1 at frame.now (λ v. SetX (4 * (v % 16))) }
{
    let byte = load::<1>(frame, at)?;
    Ok(4 * (byte % 16))
}

// "X operand is bit 0x08".
fn operand(code: u16, k: u32, x: u32) -> u32
    ensures { result ≡ (if nat_eq (code / 8 % 2) 0 then k else x) }
{
    if code / 8 % 2 == 0 { k } else { x }
}

// The value that an operation gives A.
#[tactic(auto, unfolding(vm::specs::Machine::alu))]
fn alu(op: u16, a: u32, v: u32) -> Result<u32, Verdict>
    ensures { settled SetA result ≡ M.alu op a v }
{
    match op {
        ADD => Ok(a.wrapping_add(v)),
        SUB => Ok(a.wrapping_sub(v)),
        MUL => Ok(a.wrapping_mul(v)),
        DIV if v == 0 => Err(Verdict::Broken),
        DIV => Ok(a / v),
        OR => Ok(a | v),
        AND => Ok(a & v),
        LSH => Ok(a << (v % 32)),
        RSH => Ok(a >> (v % 32)),
        NEG => Ok(a.wrapping_neg()),
        XOR => Ok(a ^ v),
        _ => Err(Verdict::Broken),
    }
}

// A test skips by jt where it is taken, and by jf where it is not.
fn branch(insn: Insn, taken: bool) -> Effect
    ensures { result ≡ Skip (if taken then insn.jt else insn.jf) }
{
    Effect::Skip(u32::from(if taken { insn.jt } else { insn.jf }))
}

#[tactic(auto, unfolding(vm::specs::Machine::jmp))]
fn jmp(op: u16, insn: Insn, a: u32, v: u32) -> Effect
    ensures { result ≡ M.jmp op insn a v }
{
    match op {
        JA => Effect::Skip(insn.k),
        JEQ => branch(insn, a == v),
        JGT => branch(insn, v < a),
        JGE => branch(insn, v <= a),
        JSET => branch(insn, a & v != 0),
        _ => Effect::Stop(Verdict::Broken),
    }
}

// A value other than 0 accepts.
fn ret(v: u32) -> Verdict
    ensures { Stop result ≡ M.ret v }
{
    if v == 0 {
        Verdict::Dropped
    } else {
        Verdict::Accepted
    }
}

// What a run that ends answers.
fn ended(verdict: Verdict, steps: u32) -> Outcome
    ensures { result ≡ M.ended verdict steps }
{
    Outcome { verdict, steps }
}

// ---- any code

impl<'a> State<'a> {
    // A packet load by its size.
    #[tactic(auto, unfolding(vm::specs::Machine::sized_load, vm::specs::Machine::load))]
    fn sized_load(&self, at: u32, size: u16) -> Result<u32, Verdict>
        ensures { settled SetA result ≡ M.sized_load size at self.now.frame.now }
    {
        match size {
            W => load::<4>(self.frame, at),
            H => load::<2>(self.frame, at),
            B => load::<1>(self.frame, at),
            _ => Err(Verdict::Broken),
        }
    }

    // A scratch word.
    #[tactic(auto, unfolding(vm::specs::Machine::scratch))]
    fn word(&self, k: u32) -> Result<u32, Verdict>
        ensures { (to : ℕ → Effect) → settled to result ≡ M.scratch k self.now.scratch.now to }
    {
        let scratch = self.scratch;
        scratch.get(k as usize).copied().ok_or(Verdict::Broken)
    }

    // The value that LD gives A.
    #[tactic(auto, unfolding(vm::specs::Machine::ld))]
    fn ld(&self, mode: u16, size: u16, k: u32) -> Result<u32, Verdict>
        ensures { settled SetA result ≡ M.ld self.now.frame.now self.now.scratch.now mode size k self.now.registers.x }
    {
        match mode {
            IMM => Ok(k),
            ABS => self.sized_load(k, size),
            IND => self.sized_load(self.registers.x.wrapping_add(k), size),
            MEM => self.word(k),
            LEN => Ok(self.frame.len() as u32),
            _ => Err(Verdict::Broken),
        }
    }

    // The value that LDX gives X.
    #[tactic(auto, unfolding(vm::specs::Machine::ldx))]
    fn ldx(&self, mode: u16, size: u16, k: u32) -> Result<u32, Verdict>
        ensures { settled SetX result ≡ M.ldx self.now.frame.now self.now.scratch.now mode size k }
    {
        match mode {
            IMM => Ok(k),
            MEM => self.word(k),
            LEN => Ok(self.frame.len() as u32),
            MSH if size == B => header_length(self.frame, k),
            _ => Err(Verdict::Broken),
        }
    }

    // What an instruction does, by its class.
    #[tactic(auto, unfolding(vm::specs::Machine::effect))]
    fn by_class(&self, insn: Insn) -> Effect
        ensures { result ≡ M.effect self.now.frame.now self.now.scratch.now insn self.now.registers.a self.now.registers.x }
    {
        let Registers { a, x } = self.registers;
        let Insn { code, k, .. } = insn;
        let v = operand(code, k, x);
        match code % 8 {
            LD => self
                .ld(code / 32 % 8, code / 8 % 4, k)
                .map_or_else(Effect::Stop, Effect::SetA),
            LDX => self
                .ldx(code / 32 % 8, code / 8 % 4, k)
                .map_or_else(Effect::Stop, Effect::SetX),
            ST => Effect::Store(k, a),
            STX => Effect::Store(k, x),
            ALU => alu(code / 16 % 16, a, v).map_or_else(Effect::Stop, Effect::SetA),
            JMP => jmp(code / 16 % 16, insn, a, v),
            RET => Effect::Stop(ret(if code / 16 % 2 == 0 { k } else { a })),
            _ if code / 128 % 2 == 0 => Effect::SetX(a),
            _ => Effect::SetA(x),
        }
    }

    // The codes that the second loop meets most, in one table of their low bytes; all others by their class, which jumps twice. The low byte
    // alone goes on, so that no register holds the whole code.
    #[tactic(auto, unfolding(vm::specs::Machine::effect, vm::specs::Machine::ld, vm::specs::Machine::ldx))]
    fn effect(&self, insn: Insn) -> Effect
        ensures { result ≡ M.effect self.now.frame.now self.now.scratch.now insn self.now.registers.a self.now.registers.x }
    {
        let low = Insn {
            code: insn.code % 256,
            ..insn
        };
        match low.code {
            0x02 => Effect::Store(insn.k, self.registers.a),
            0x03 => Effect::Store(insn.k, self.registers.x),
            0x07 => Effect::SetX(self.registers.a),
            0x60 => self.word(insn.k).map_or_else(Effect::Stop, Effect::SetA),
            0x61 => self.word(insn.k).map_or_else(Effect::Stop, Effect::SetX),
            0x87 => Effect::SetA(self.registers.x),
            _ => self.by_class(low),
        }
    }
}

// ---- the codes that the generator emits

// A test, of which the instruction's jt and jf are not read yet.
fn test(taken: bool) -> Way
    ensures { result ≡ (if taken then Taken else Missed) }
{
    if taken { Way::Taken } else { Way::Missed }
}

impl Registers {
    // An effect on A or X, or a verdict. A store, a skip and what is broken are left for the general loop.
    #[tactic(auto, unfolding(crate::specs::Runs::Settles, crate::specs::Runs::Turns))]
    fn make(&mut self, effect: Effect) -> Way
        ensures { Settles effect self.old result self.new }
    {
        match effect {
            Effect::SetA(a) => {
                self.a = a;
                Way::On
            }
            Effect::SetX(x) => {
                self.x = x;
                Way::On
            }
            Effect::Stop(Verdict::Accepted) => Way::Accepted,
            Effect::Stop(Verdict::Dropped) => Way::Dropped,
            Effect::Stop(Verdict::Short) => Way::Short,
            _ => Way::Other,
        }
    }

    // Arithmetic; what it breaks at is left for the general loop.
    fn alu(&mut self, op: u16, v: u32) -> Way
        ensures { Settles (M.alu op self.old.a v) self.old result self.new }
    {
        self.make(alu(op, self.a, v).map_or_else(Effect::Stop, Effect::SetA))
    }

    // Other codes that use no scratch word. A code is a row, whose jump goes straight to its operation: one rule over a code's fields
    // jumps twice, and makes arithmetic 1.3 to 1.7 times as slow, which is slower than vm.rs.
    #[tactic(auto, using(crate::proofs::Ways::left), unfolding(vm::specs::Machine::effect))]
    fn rest(&mut self, code: u16, k: u32) -> Way
        ensures { (f : List ℕ) (jt jf : ℕ) → Settles (M.effect f zeros (insn code jt jf k) self.old.a self.old.x) self.old result self.new }
    {
        match code {
            0x04 => self.alu(ADD, k),
            0x0c => self.alu(ADD, self.x),
            0x14 => self.alu(SUB, k),
            0x1c => self.alu(SUB, self.x),
            0x24 => self.alu(MUL, k),
            0x2c => self.alu(MUL, self.x),
            0x34 => self.alu(DIV, k),
            0x3c => self.alu(DIV, self.x),
            0x44 => self.alu(OR, k),
            0x4c => self.alu(OR, self.x),
            0x5c => self.alu(AND, self.x),
            0x64 => self.alu(LSH, k),
            0x6c => self.alu(LSH, self.x),
            0x74 => self.alu(RSH, k),
            0x7c => self.alu(RSH, self.x),
            0x84 => self.alu(NEG, k),
            0x8c => self.alu(NEG, self.x),
            0xa4 => self.alu(XOR, k),
            0xac => self.alu(XOR, self.x),
            0x07 => self.make(Effect::SetX(self.a)),
            0x87 => self.make(Effect::SetA(self.x)),
            0x16 => self.make(Effect::Stop(ret(self.a))),
            _ => Way::Other,
        }
    }
}

impl<'a> Job<'a> {
    // After a load: a test of A that follows is made at once.
    // The place is a clause: it is another at each turn.
    #[tactic(auto, using(crate::proofs::Ways::next_on, crate::proofs::Ways::next_test))]
    fn next(&self, at: usize, a: u32) -> Way
        requires { At self.now.program.now at }
        ensures { Next self.now.program.now at a result }
    {
        if self.program.len() <= at + 8 {
            return Way::On;
        }
        if le_u16(self.program, at + 8) % 256 != JEQ_K {
            return Way::On;
        }
        if a == le_u32(self.program, at + 12) {
            Way::NextTaken
        } else {
            Way::NextMissed
        }
    }

    // A packet load into A, of any width.
    #[tactic(auto, using(crate::proofs::Ways::loaded_then, crate::proofs::Ways::loaded_out))]
    fn load_then<const N: usize>(&self, at: usize, place: u32, registers: &mut Registers) -> Way
        requires { At self.now.program.now at × (N ≤ 4) }
        ensures { Follows self.now.program.now self.now.frame.now at registers.old (M.load N place self.now.frame.now SetA) result registers.new }
    {
        match load::<N>(self.frame, place) {
            Ok(a) => {
                registers.a = a;
                self.next(at, a)
            }
            Err(_) => Way::Short,
        }
    }

    // The instruction whose bytes start at a place, by its code.
    // A code is any 16-bit number, and none is refused, so the codes are rows and no enum. They are rows of its low byte: its high byte
    // changes nothing, and costs nothing.
    #[tactic(auto, using(crate::proofs::Ways::turned, crate::proofs::Ways::placed, crate::proofs::Ways::jumped), unfolding(vm::specs::Machine::effect, vm::specs::Machine::ld, vm::specs::Machine::ldx, vm::specs::Machine::sized_load, vm::specs::Machine::jmp))]
    fn turn(&self, at: usize, registers: &mut Registers) -> Way
        requires { At self.now.program.now at }
        ensures { Turns self.now.program.now self.now.frame.now at registers.old result registers.new }
    {
        let code = le_u16(self.program, at) % 256;
        let k = le_u32(self.program, at + 4);
        match code {
            0x20 => self.load_then::<4>(at, k, registers),
            0x28 => self.load_then::<2>(at, k, registers),
            0x30 => self.load_then::<1>(at, k, registers),
            0x48 => self.load_then::<2>(at, registers.x.wrapping_add(k), registers),
            0xb1 => registers.make(header_length(self.frame, k).map_or_else(
                Effect::Stop,
                Effect::SetX,
            )),
            0x80 => registers.make(Effect::SetA(self.frame.len() as u32)),
            0x01 => registers.make(Effect::SetX(k)),
            0x54 => registers.alu(AND, k),
            0x05 => Way::Jump,
            JEQ_K => test(registers.a == k),
            0x25 => test(k < registers.a),
            0x35 => test(k <= registers.a),
            0x45 => test(registers.a & k != 0),
            0x06 => registers.make(Effect::Stop(ret(k))),
            _ => registers.rest(code, k),
        }
    }

    // The bytes that a jump field skips.
    fn skipped(&self, at: usize) -> usize
        requires { at < length self.now.program.now }
        ensures { (result ≡ 8 * slice_index self.now.program.now at) × (result < 2048) }
    {
        8 * usize::from(self.program[at])
    }

    // The run from a counter on, with any code; the scratch words are still zero.
    #[tactic(auto, using(crate::proofs::Onward::run_on, crate::proofs::Onward::run_past, std::proofs::lemmas::Bool::Decides::nat_tests))]
    fn general(&self, start: usize, registers: Registers, made: u32) -> Outcome
        requires { (made ≤ start) × (start ≤ 4096) }
        ensures { result ≡ from self.now.program.now self.now.frame.now start made registers.a registers.x zeros }
    {
        let count = self.program.len() / 8;
        let mut registers = registers;
        let mut scratch = [0u32; 16];
        let mut pc = start;
        let mut steps = made;
        // The counter jumps, so that no iterator gives its values.
        while pc < count {
            let state = State {
                frame: self.frame,
                scratch: &scratch,
                registers,
            };
            let effect = state.effect(bpf::insn_at(self.program, 8 * pc));
            steps += 1;
            pc += 1;
            match effect {
                Effect::SetA(v) => registers.a = v,
                Effect::SetX(v) => registers.x = v,
                Effect::Store(k, v) => {
                    let slot = k as usize;
                    if 16 <= slot {
                        return ended(Verdict::Broken, steps);
                    }
                    scratch[slot] = v;
                }
                Effect::Skip(n) => pc += n as usize,
                Effect::Stop(verdict) => return ended(verdict, steps),
            }
        }
        ended(Verdict::Broken, steps)
    }

    // A whole run; the scratch words stay zero until a code comes that this loop does not know.
    #[tactic(auto, using(crate::proofs::Onward::run_past), unfolding(crate::specs::Runs::Turns))]
    fn quick(&self) -> Outcome
        ensures { result ≡ from self.now.program.now self.now.frame.now 0 0 0 0 zeros }
    {
        let mut registers = Registers { a: 0, x: 0 };
        let mut at = 0;
        let mut steps = 0u32;
        // The place jumps as the counter does.
        while at < self.program.len() {
            match self.turn(at, &mut registers) {
                Way::On => {
                    steps += 1;
                    at += 8;
                }
                Way::Jump => {
                    steps += 1;
                    at += 8 + 8 * (le_u32(self.program, at + 4) as usize);
                }
                Way::Taken => {
                    steps += 1;
                    at += 8 + self.skipped(at + 2);
                }
                Way::Missed => {
                    steps += 1;
                    at += 8 + self.skipped(at + 3);
                }
                Way::NextTaken => {
                    steps += 2;
                    at += 16 + self.skipped(at + 10);
                }
                Way::NextMissed => {
                    steps += 2;
                    at += 16 + self.skipped(at + 11);
                }
                Way::Accepted => return ended(Verdict::Accepted, steps + 1),
                Way::Dropped => return ended(Verdict::Dropped, steps + 1),
                Way::Short => return ended(Verdict::Short, steps + 1),
                Way::Other => return self.general(at / 8, registers, steps),
            }
        }
        ended(Verdict::Broken, steps)
    }
}

// A program's length that is refused: 0, over 32,768, or not a multiple of 8.
fn odd_program(size: usize) -> bool
    ensures { result ≡ (size == 0 || (nat_lt 32768 size || not (size % 8 == 0))) }
{
    size == 0 || LONGEST_PROGRAM < size || size % 8 != 0
}

// A run tests the program's length, then the frame's.
#[tactic(auto, unfolding(vm::specs::Machine::run, vm::specs::Machine::inner))]
pub fn run(program: &[u8], frame: &[u8]) -> Result<Outcome, Refusal>
    ensures { result ≡ M.run program.now frame.now }
{
    if odd_program(program.len()) {
        Err(Refusal::OddProgram)
    } else if LONGEST_FRAME < frame.len() {
        Err(Refusal::LongFrame)
    } else {
        Ok(Job { program, frame }.quick())
    }
}

// The code generator's types: codegen.rs.
#![tactic(auto)]

ghost use Rattle.std.specs.Prelude.{◌≡◌};
ghost use Rattle.codegen.specs.Block as B;
ghost use Rattle.codegen.specs.Facts as F;

use bpf::Insn;

// The ethertypes of IPv4 and IPv6.
pub const IPV4: u32 = 0x0800;

pub const IPV6: u32 = 0x86dd;

// The numbers of the protocols that have ports.
pub const TCP: u32 = 6;

pub const UDP: u32 = 17;

pub const SCTP: u32 = 132;

// The set of L4 protocol numbers that a port prologue admits: one, or TCP and UDP.
#[derive(Clone, Copy, Debug, PartialEq, Eq)]
pub enum L4Set {
    One(u32),
    TcpOrUdp,
}

impl L4Set {
    pub fn contains(self, p: u32) -> bool
        ensures { result ≡ F.contains self p }
    {
        match self {
            L4Set::One(x) => p == x,
            L4Set::TcpOrUdp => p == TCP || p == UDP,
        }
    }

    fn subset_of(self, other: L4Set) -> bool
        ensures { result ≡ F.subset_of self other }
    {
        match self {
            L4Set::One(x) => other.contains(x),
            L4Set::TcpOrUdp => other == L4Set::TcpOrUdp,
        }
    }

    // The smallest set with both, if there is one.
    fn join(self, other: L4Set) -> Option<L4Set>
        ensures { result ≡ F.join self other }
    {
        if self == other {
            return Some(self);
        }
        if self.subset_of(L4Set::TcpOrUdp) && other.subset_of(L4Set::TcpOrUdp) {
            return Some(L4Set::TcpOrUdp);
        }
        None
    }
}

// An earlier prologue, at least as strict, has passed.
pub fn ready_for(ports: Option<L4Set>, want: L4Set) -> bool
    ensures { result ≡ F.ready_for ports want }
{
    ports.is_some_and(|have| have.subset_of(want))
}

// What both know, where it is the same.
fn both<T: Copy + PartialEq>(x: Option<T>, y: Option<T>) -> Option<T>
    ensures { result ≡ F.same T.eq x y }
{
    if x == y { x } else { None }
}

// What is proven on the path that code falls through.
#[derive(Clone, Copy, Debug, PartialEq, Eq)]
pub struct Facts {
    pub ethertype: Option<u32>,
    pub ip4_proto: Option<u32>,
    pub ip6_nh: Option<u32>,
    pub ports_ready: Option<L4Set>,
}

impl Facts {
    // Nothing is known.
    pub fn none() -> Facts
        ensures { result ≡ F.no_facts }
    {
        Facts {
            ethertype: None,
            ip4_proto: None,
            ip6_nh: None,
            ports_ready: None,
        }
    }

    // A fact is only filled where empty.
    // Three functions, since a field cannot be a parameter.
    pub fn learn_ethertype(self, v: u32) -> Facts
        ensures { result ≡ F.learn_ethertype self v }
    {
        Facts {
            ethertype: self.ethertype.or(Some(v)),
            ..self
        }
    }

    pub fn learn_ip4(self, v: u32) -> Facts
        ensures { result ≡ F.learn_ip4 self v }
    {
        Facts {
            ip4_proto: self.ip4_proto.or(Some(v)),
            ..self
        }
    }

    pub fn learn_ip6(self, v: u32) -> Facts
        ensures { result ≡ F.learn_ip6 self v }
    {
        Facts {
            ip6_nh: self.ip6_nh.or(Some(v)),
            ..self
        }
    }

    // "Ports ready" is replaced.
    pub fn with_ports(self, ports: Option<L4Set>) -> Facts
        ensures { result ≡ F.with_ports self ports }
    {
        Facts {
            ports_ready: ports,
            ..self
        }
    }

    // Entry facts restored after code that may have written X.
    pub fn restored(self, wrote_x: bool) -> Facts
        ensures { result ≡ F.restored wrote_x self }
    {
        if wrote_x { self.with_ports(None) } else { self }
    }

    // What is known where two paths join.
    pub fn meet(self, other: Facts) -> Facts
        ensures { result ≡ F.meet self other }
    {
        Facts {
            ethertype: both(self.ethertype, other.ethertype),
            ip4_proto: both(self.ip4_proto, other.ip4_proto),
            ip6_nh: both(self.ip6_nh, other.ip6_nh),
            ports_ready: join_ports(self.ports_ready, other.ports_ready),
        }
    }
}

fn join_ports(x: Option<L4Set>, y: Option<L4Set>) -> Option<L4Set>
    ensures { result ≡ F.join_ports x y }
{
    x?.join(y?)
}

// What an expression requires on every accepting path.
#[derive(Clone, Copy, Debug, PartialEq, Eq)]
pub struct GuardSet {
    pub ethertype: Option<u32>,
    pub ip4_proto: Option<u32>,
    pub ip6_nh: Option<u32>,
    pub port_prereqs: Option<L4Set>,
}

impl GuardSet {
    // Nothing is required.
    pub fn none() -> GuardSet
        ensures { result ≡ F.no_guards }
    {
        GuardSet {
            ethertype: None,
            ip4_proto: None,
            ip6_nh: None,
            port_prereqs: None,
        }
    }

    // Of a conjunction: anything that either side requires.
    pub fn union(self, other: GuardSet) -> GuardSet
        ensures { result ≡ F.union self other }
    {
        GuardSet {
            ethertype: self.ethertype.or(other.ethertype),
            ip4_proto: self.ip4_proto.or(other.ip4_proto),
            ip6_nh: self.ip6_nh.or(other.ip6_nh),
            port_prereqs: self.port_prereqs.or(other.port_prereqs),
        }
    }

    // Of a disjunction: only what both sides require.
    // Apart from `meet`: ports that differ meet in the smallest set with both, and here they have to be the same.
    pub fn intersect(self, other: GuardSet) -> GuardSet
        ensures { result ≡ F.intersect self other }
    {
        GuardSet {
            ethertype: both(self.ethertype, other.ethertype),
            ip4_proto: both(self.ip4_proto, other.ip4_proto),
            ip6_nh: both(self.ip6_nh, other.ip6_nh),
            port_prereqs: both(self.port_prereqs, other.port_prereqs),
        }
    }
}

// A protocol number in the protocol table: absent, fixed, or the record's small number.
// Three cases, so that it is no Option.
#[derive(Clone, Copy, Debug, PartialEq, Eq)]
pub enum RowNumber {
    Absent,
    Fixed(u32),
    Small,
}

// A row of the protocol table.
#[derive(Clone, Copy, Debug, PartialEq, Eq)]
pub struct Row {
    pub ethertype: u32,
    pub ip4_proto: RowNumber,
    pub ip6_nh: RowNumber,
}

// ---- blocks: instructions in a row whose jumps may still be open

// The bytes of a load.
#[derive(Clone, Copy, Debug, PartialEq, Eq)]
pub enum Width {
    Byte,
    Half,
    Word,
}

#[derive(Clone, Copy, Debug, PartialEq, Eq)]
pub enum Op {
    // A from a place.
    LdAbs(Width, u32),
    // A, 16 bits, from X + k.
    LdhInd(u32),
    // X, 4 × (byte mod 16).
    LdxMsh(u32),
    // X from a number.
    LdxImm(u32),
    // A and a number.
    AndK(u32),
}

impl Op {
    #[inline(always)]
    fn insn(self) -> Insn
        ensures { result ≡ B.op_insn self }
    {
        let (code, k) = match self {
            Op::LdAbs(Width::Word, k) => (0x20, k),
            Op::LdAbs(Width::Half, k) => (0x28, k),
            Op::LdAbs(Width::Byte, k) => (0x30, k),
            Op::LdhInd(k) => (0x48, k),
            Op::LdxMsh(k) => (0xb1, k),
            Op::LdxImm(k) => (0x01, k),
            Op::AndK(k) => (0x54, k),
        };
        Insn {
            code,
            jt: 0,
            jf: 0,
            k,
        }
    }
}

#[derive(Clone, Copy, Debug, PartialEq, Eq)]
pub enum Test {
    Jeq,
    Jgt,
    Jge,
    Jset,
}

impl Test {
    fn code(self) -> u16
        ensures { result ≡ B.test_code self }
    {
        match self {
            Test::Jeq => 0x15,
            Test::Jgt => 0x25,
            Test::Jge => 0x35,
            Test::Jset => 0x45,
        }
    }
}

// The two ways out of a block that are still open: `Patches`.
#[derive(Clone, Copy, Debug, PartialEq, Eq)]
pub enum Side {
    Success,
    Failure,
}

// Where a jump goes: over so many lines, or out.
#[derive(Clone, Copy, Debug, PartialEq, Eq)]
pub enum Exit {
    Skip(u8),
    Leave(Side),
}

impl Exit {
    // A jump that is still open has none.
    fn distance(self) -> u8
        ensures { result ≡ B.distance self }
    {
        match self {
            Exit::Skip(distance) => distance,
            Exit::Leave(_) => 0,
        }
    }
}

// The field of a test that its distance goes to: `Patch::Jt`, `Patch::Jf`. The other field is 0.
#[derive(Clone, Copy, Debug, PartialEq, Eq)]
pub enum Slot {
    Jt,
    Jf,
}

// A line of a block: an operation, a test of A with a number, or a ja.
#[derive(Clone, Copy, Debug, PartialEq, Eq)]
pub enum Line {
    Plain(Op),
    Branch(Test, u32, Slot, Exit),
    Jump(Exit),
}

const JA: u16 = 0x05;

impl Line {
    // Inlined, since a line that is written out is an instruction that is known when the code is compiled.
    #[inline(always)]
    #[tactic(auto, unfolding(crate::specs::Block::assemble))]
    pub fn assemble(self) -> Insn
        ensures { result ≡ B.assemble self }
    {
        match self {
            Line::Plain(op) => op.insn(),
            Line::Branch(test, k, Slot::Jt, exit) => Insn {
                code: test.code(),
                jt: exit.distance(),
                jf: 0,
                k,
            },
            Line::Branch(test, k, Slot::Jf, exit) => Insn {
                code: test.code(),
                jt: 0,
                jf: exit.distance(),
                k,
            },
            Line::Jump(exit) => Insn {
                code: JA,
                jt: 0,
                jf: 0,
                k: u32::from(exit.distance()),
            },
        }
    }

    // Whether it writes X.
    pub fn sets_x(self) -> bool
        ensures { result ≡ B.sets_x self }
    {
        matches!(self, Line::Plain(Op::LdxMsh(_) | Op::LdxImm(_)))
    }
}

// The tree file: its records, what each stands for, and checks 1 to 4.
#![tactic(auto)]

ghost use Rattle.std.specs.Prelude.{◌≡◌, ◌+◌, ◌*◌, ◌≤◌, ◌<◌, length, take, eqb, not, IsOk, ◌&&◌};
ghost use Rattle.bpf.specs.Bytes.{be, AreBytes, segments_at, bytes_at};
ghost use Rattle.ast.specs.Record.{dir_of, proto_of, port_proto_of, good, node_at};
ghost use Rattle.ast.specs.Record as R;
ghost use Rattle.ast.specs.File as F;
ghost use Rattle.reader.specs.Reader.{place, Here, checked};
ghost use Rattle.reader.specs.Checking as C;

use ast::Node::LeafNode;
use ast::{Dir, LinkType, Node, Primitive, Proto};
use error::Refusal;
use std::array::from_fn;

// The bytes of a file's header and of a record.
const HEADER: usize = 8;

const RECORD: usize = 24;

// The most records of a file.
const MOST: usize = 128;

// Where the numbers of a record stand: "byte 0 kind; byte 1 direction (..); byte 2 protocol; byte 3 small number; bytes 4-5 A; 6-7 B;
// 8-23 address."
const KIND: usize = 0;

const DIRECTION: usize = 1;

const PROTOCOL: usize = 2;

const SMALL: usize = 3;

const A: usize = 4;

const B: usize = 6;

const ADDRESS: usize = 8;

// ---- kinds

// "Kinds, decimal: .."
#[derive(Clone, Copy, Debug, PartialEq, Eq)]
enum Kind {
    And = 1,
    Or = 2,
    Not = 3,
    Protocol = 10,
    Host4 = 11,
    Host6 = 12,
    Net = 13,
    Net6 = 14,
    Port = 15,
    PortRange = 16,
    EtherHost = 17,
    EtherProto = 18,
    EtherMulticast = 19,
    IpBroadcast = 20,
    IpMulticast = 21,
    Ip6Multicast = 22,
    IpProtoChain = 23,
    Ip6ProtoChain = 24,
}

// By a kind byte; number 3, "unknown kind".
impl TryFrom<u8> for Kind {
    type Error = Refusal;

    ghost try_from_gives = { λ byte kind. kind ≡ C.kind_of byte };

    fn try_from(byte: u8) -> Result<Kind, Refusal> {
        match byte {
            1 => Ok(Kind::And),
            2 => Ok(Kind::Or),
            3 => Ok(Kind::Not),
            10 => Ok(Kind::Protocol),
            11 => Ok(Kind::Host4),
            12 => Ok(Kind::Host6),
            13 => Ok(Kind::Net),
            14 => Ok(Kind::Net6),
            15 => Ok(Kind::Port),
            16 => Ok(Kind::PortRange),
            17 => Ok(Kind::EtherHost),
            18 => Ok(Kind::EtherProto),
            19 => Ok(Kind::EtherMulticast),
            20 => Ok(Kind::IpBroadcast),
            21 => Ok(Kind::IpMulticast),
            22 => Ok(Kind::Ip6Multicast),
            23 => Ok(Kind::IpProtoChain),
            24 => Ok(Kind::Ip6ProtoChain),
            _ => Err(Refusal::BadRecord),
        }
    }
}

// What a record of some kind may hold: the most for each field, 0 where the kind does not use it; and how many bytes of the address it
// uses.
#[derive(Clone, Copy)]
struct Most {
    direction: u8,
    protocol: u8,
    small: u8,
    a: u16,
    b: u16,
    address: usize,
}

const NOTHING: Most = Most {
    direction: 0,
    protocol: 0,
    small: 0,
    a: 0,
    b: 0,
    address: 0,
};

// A direction, and so many bytes of the address.
fn addressed(address: usize) -> Most
    ensures { result ≡ C.addressed address }
{
    Most {
        direction: 3,
        address,
        ..NOTHING
    }
}

impl Kind {
    fn most(self) -> Most
        ensures { result ≡ C.most_for (C.row self) }
    {
        match self {
            Kind::Protocol => Most {
                protocol: 12,
                ..NOTHING
            },
            Kind::Host4 => addressed(4),
            Kind::Host6 => addressed(16),
            Kind::Net => addressed(8),
            Kind::Net6 => Most {
                small: 255,
                ..addressed(16)
            },
            Kind::Port => Most {
                protocol: 12,
                a: 65535,
                ..addressed(0)
            },
            Kind::PortRange => Most {
                protocol: 12,
                a: 65535,
                b: 65535,
                ..addressed(0)
            },
            Kind::EtherHost => addressed(6),
            Kind::EtherProto => Most {
                a: 65535,
                ..NOTHING
            },
            Kind::IpProtoChain | Kind::Ip6ProtoChain => Most {
                small: 255,
                ..NOTHING
            },
            _ => NOTHING,
        }
    }

    // How many parts a record asks for.
    fn parts(self) -> usize
        ensures { (r : R.Record) → result ≡ C.asks ((C.row self).node r) }
    {
        match self {
            Kind::And | Kind::Or => 2,
            Kind::Not => 1,
            _ => 0,
        }
    }
}

// ---- records

// A tree file's bytes, lent, and the index of a record.
// Document 01's form: the bytes and the index.
#[derive(Clone, Copy)]
pub struct RecordReader<'a> {
    pub tree: &'a [u8],
    pub index: usize,
}

// Whatever is read of a record is read by the first two. The index is a clause of each: its caller may hold any.
impl<'a> RecordReader<'a> {
    // The numbers that start at byte o of the record.
    #[tactic(auto, using(bpf::proofs::Bytes::be_first))]
    pub fn byte(self, o: usize) -> u8
        requires { (self.index < 128) × (o < 24) × (place self.index + o < length self.tree.now) }
        ensures { result ≡ be 1 (place self.entry.index + o) self.entry.tree.now }
    {
        self.tree[HEADER + RECORD * self.index + o]
    }

    pub fn half(self, o: usize) -> u16
        requires { (self.index < 128) × (o < 24) × (place self.index + o + 1 < length self.tree.now) }
        ensures { result ≡ be 2 (place self.entry.index + o) self.entry.tree.now }
    {
        bpf::be_u16(self.tree, HEADER + RECORD * self.index + o)
    }

    #[tactic(auto, using(crate::proofs::Zeros::be_halves))]
    pub fn word(self, o: usize) -> u32
        requires { (self.index < 128) × (o < 22) × (place self.index + o + 3 < length self.tree.now) }
        ensures { result ≡ be 4 (place self.entry.index + o) self.entry.tree.now }
    {
        u32::from(self.half(o)) * 65536 + u32::from(self.half(o + 2))
    }

    // The eight segments of the record's address.
    pub fn segments(self) -> [u16; 8]
        requires { (self.index < 128) × (place self.index + 23 < length self.tree.now) }
        ensures { result ≡ segments_at 8 (place self.entry.index + 8) self.entry.tree.now }
    {
        from_fn(|i| self.half(ADDRESS + 2 * i))
    }

    // The record's direction.
    pub fn direction(self) -> Dir
        requires { (self.index < 128) × (place self.index + 1 < length self.tree.now) }
        ensures { result ≡ dir_of (be 1 (place self.entry.index + 1) self.entry.tree.now) }
    {
        Dir::from(self.byte(DIRECTION))
    }
}

// A record that lies whole within its file.
#[derive(Clone, Copy)]
struct WholeRecord<'a> {
    reader: RecordReader<'a>,
    ghost within: { (reader.index < 128) × (place reader.index + 24 ≤ length reader.tree.now) },
    ghost bytes: { AreBytes reader.tree.now },
}

impl<'a> WholeRecord<'a> {
    // The address as an IPv4 address.
    #[tactic(auto, using(crate::proofs::Fields::address_word))]
    fn host(self) -> u32
        ensures { result ≡ be 4 0 (C.fields self.entry.reader).address }
    {
        self.reader.word(ADDRESS)
    }

    // The mask behind that address.
    #[tactic(auto, using(crate::proofs::Fields::address_word))]
    fn mask(self) -> u32
        ensures { result ≡ be 4 4 (C.fields self.entry.reader).address }
    {
        self.reader.word(ADDRESS + 4)
    }

    // The address as an IPv6 address.
    #[tactic(auto, using(crate::proofs::Fields::address_segments))]
    fn segments(self) -> [u16; 8]
        ensures { result ≡ segments_at 8 0 (C.fields self.entry.reader).address }
    {
        self.reader.segments()
    }

    // The six bytes of an ether address.
    fn station(self) -> [u8; 6]
        ensures { result ≡ take 6 (C.fields self.entry.reader).address }
    {
        from_fn(|i| self.reader.byte(ADDRESS + i))
    }

    #[tactic(auto, unfolding(ast::specs::Record::record_at))]
    fn direction(self) -> Dir
        ensures { result ≡ dir_of (C.fields self.entry.reader).direction }
    {
        self.reader.direction()
    }

    #[tactic(auto, unfolding(ast::specs::Record::record_at))]
    fn protocol(self) -> Proto
        ensures { result ≡ proto_of (C.fields self.entry.reader).protocol (C.fields self.entry.reader).small }
    {
        Proto::of_bytes(self.reader.byte(PROTOCOL), self.reader.byte(SMALL))
    }

    #[tactic(auto, unfolding(ast::specs::Record::record_at))]
    fn small(self) -> u8
        ensures { result ≡ (C.fields self.entry.reader).small }
    {
        self.reader.byte(SMALL)
    }

    #[tactic(auto, unfolding(ast::specs::Record::record_at))]
    fn a(self) -> u16
        ensures { result ≡ (C.fields self.entry.reader).a }
    {
        self.reader.half(A)
    }

    #[tactic(auto, unfolding(ast::specs::Record::record_at))]
    fn b(self) -> u16
        ensures { result ≡ (C.fields self.entry.reader).b }
    {
        self.reader.half(B)
    }

    // "Kinds 15 and 16 also take 0, none."
    #[tactic(auto, unfolding(ast::specs::Record::record_at))]
    fn port_protocol(self) -> Option<Proto>
        ensures { result ≡ port_proto_of (C.fields self.entry.reader).protocol (C.fields self.entry.reader).small }
    {
        match self.reader.byte(PROTOCOL) {
            0 => None,
            _ => Some(self.protocol()),
        }
    }

    // Its kind, where it is good.
    #[inline(always)]
    #[tactic(auto, using(crate::proofs::Found::kind_known, crate::proofs::Found::node_of_kind))]
    fn kind(self) -> Kind
        requires { IsOk (node_at (place self.reader.index) self.reader.tree.now) }
        ensures { node_at (place self.entry.reader.index) self.entry.reader.tree.now ≡ Ok ((C.row result).node (C.fields self.entry.reader)) }
    {
        Kind::try_from(self.reader.byte(KIND)).unwrap()
    }

    // The node of a record of this kind.
    #[inline(always)]
    fn node(self, kind: Kind) -> Node
        ensures { result ≡ (C.row kind).node (C.fields self.entry.reader) }
    {
        match kind {
            Kind::And => Node::AndNode,
            Kind::Or => Node::OrNode,
            Kind::Not => Node::NotNode,
            Kind::Protocol => LeafNode(Primitive::Protocol(self.protocol())),
            Kind::Host4 => LeafNode(Primitive::Host4(self.direction(), self.host())),
            Kind::Host6 => LeafNode(Primitive::Host6(self.direction(), self.segments())),
            Kind::Net => LeafNode(Primitive::Net(self.direction(), self.host(), self.mask())),
            Kind::Net6 => LeafNode(Primitive::Net6(
                self.direction(),
                self.small(),
                self.segments(),
            )),
            Kind::Port => LeafNode(Primitive::Port(
                self.direction(),
                self.port_protocol(),
                self.a(),
            )),
            Kind::PortRange => LeafNode(Primitive::PortRange(
                self.direction(),
                self.port_protocol(),
                self.a(),
                self.b(),
            )),
            Kind::EtherHost => LeafNode(Primitive::EtherHost(self.direction(), self.station())),
            Kind::EtherProto => LeafNode(Primitive::EtherProto(self.a())),
            Kind::EtherMulticast => LeafNode(Primitive::EtherMulticast),
            Kind::IpBroadcast => LeafNode(Primitive::IpBroadcast),
            Kind::IpMulticast => LeafNode(Primitive::IpMulticast),
            Kind::Ip6Multicast => LeafNode(Primitive::Ip6Multicast),
            Kind::IpProtoChain => LeafNode(Primitive::IpProtoChain(self.small())),
            Kind::Ip6ProtoChain => LeafNode(Primitive::Ip6ProtoChain(self.small())),
        }
    }

    // The last eight bytes are zero.
    fn end_zero(self) -> bool
        ensures { result ≡ eqb (be 8 (place self.entry.reader.index + 16) self.entry.reader.tree.now) 0 }
    {
        self.reader.word(16) == 0 && self.reader.word(20) == 0
    }

    // The last twelve bytes are zero.
    fn middle_zero(self) -> bool
        ensures { result ≡ eqb (be 12 (place self.entry.reader.index + 12) self.entry.reader.tree.now) 0 }
    {
        self.reader.word(12) == 0 && self.end_zero()
    }

    // The bytes of its address from the n-th on are zero: word by word, since a chain over the bytes takes up to sixteen steps.
    #[tactic(auto, unfolding(crate::specs::Checking::unused, bpf::specs::Bytes::be))]
    fn unused_zero(self, n: usize) -> bool
        ensures { result ≡ C.unused n (C.fields self.entry.reader).address }
    {
        match n {
            0 => self.reader.word(8) == 0 && self.middle_zero(),
            4 => self.middle_zero(),
            6 => self.reader.half(14) == 0 && self.end_zero(),
            8 => self.end_zero(),
            16 => true,
            _ => false,
        }
    }

    // It holds no more than the most; "11 and 12 use byte 3".
    #[tactic(auto, using(std::proofs::lemmas::Bool::Decides::nat_tests), unfolding(crate::specs::Checking::fits, ast::specs::Record::record_at))]
    fn fits(self, most: Most) -> bool
        ensures { result ≡ C.fits most (C.fields self.entry.reader) }
    {
        let protocol = self.reader.byte(PROTOCOL);
        self.reader.byte(DIRECTION) <= most.direction
            && protocol <= most.protocol
            && self.a() <= most.a
            && self.b() <= most.b
            && (matches!(protocol, 11 | 12) || self.small() <= most.small)
            && self.unused_zero(most.address)
    }

    // "Kinds 15 and 16 also take 0, none.", and kind 10 does not.
    #[tactic(auto, unfolding(ast::specs::Record::record_at))]
    fn lacks_protocol(self, kind: Kind) -> bool
        ensures { result ≡ (eqb (C.row kind).number 10 && eqb (C.fields self.entry.reader).protocol 0) }
    {
        matches!(kind, Kind::Protocol) && self.reader.byte(PROTOCOL) == 0
    }

    // It is good as a record of this kind.
    #[tactic(auto, using(crate::proofs::Rows::good_fits))]
    fn good(self, kind: Kind) -> bool
        ensures { result ≡ good (C.row kind) (C.fields self.entry.reader) }
    {
        self.fits(kind.most()) && !self.lacks_protocol(kind)
    }

    // Number 3.
    fn check(self) -> Result<(), Refusal>
        ensures { result ≡ C.passed (node_at (place self.entry.reader.index) self.entry.reader.tree.now) }
    {
        let kind = Kind::try_from(self.reader.byte(KIND))?;
        if self.good(kind) {
            Ok(())
        } else {
            Err(Refusal::BadRecord)
        }
    }
}

// The node of the record at which a tree stands.
// Inlined: a caller's arm then reads what it needs, and no node is put together first.
#[inline(always)]
#[tactic(auto, using(crate::proofs::Here::here_node))]
pub fn node(tree: &[u8], i: usize) -> Node
    requires { Here tree.now i }
    ensures { node_at (place i) tree.now ≡ Ok result }
{
    let reader = RecordReader { tree, index: i };
    let record = WholeRecord { reader };
    record.node(record.kind())
}

// ---- the whole file

// The letters PFT and the version 1.
#[tactic(auto, using(crate::proofs::Marks::starts_pft))]
fn marked(tree: &[u8]) -> bool
    requires { 8 ≤ length tree.now }
    ensures { result ≡ not (F.strange tree.now) }
{
    tree.starts_with(b"PFT") && bpf::be_u16(tree, 3) == 1
}

// Number 1, or the link.
#[tactic(auto, using(bpf::proofs::Bytes::be_first, std::proofs::lemmas::Bool::Decides::nat_tests), unfolding(ast::specs::File::header))]
pub fn header(tree: &[u8]) -> Result<LinkType, Refusal>
    ensures { result ≡ F.header tree.now }
{
    if tree.len() < HEADER || !marked(tree) {
        return Err(Refusal::StrangeFile);
    }
    LinkType::try_from(tree[5])
}

// Number 2, or the count.
#[tactic(auto, using(std::proofs::lemmas::Bool::Decides::nat_tests), unfolding(ast::specs::File::count))]
fn count(tree: &[u8]) -> Result<usize, Refusal>
    requires { 8 ≤ length tree.now }
    ensures { result ≡ F.count tree.now }
{
    let n = usize::from(bpf::be_u16(tree, 6));
    if n == 0 || MOST < n || tree.len() != HEADER + RECORD * n {
        return Err(Refusal::WrongCount);
    }
    Ok(n)
}

// Number 3 over the n records. Here and below n is the number that check 2 found, and not the slice's length.
fn good_records(tree: &[u8], n: usize) -> Result<(), Refusal>
    requires { (n ≤ 128) × (place n ≤ length tree.now) }
    ensures { result ≡ C.passed (F.nodes_at n 8 tree.now) }
{
    for i in 0..n {
        let reader = RecordReader { tree, index: i };
        WholeRecord { reader }.check()?;
    }
    Ok(())
}

// Number 4. From the last record back, the trees that stand so far: a record takes its parts from them and is one more.
#[tactic(auto, using(crate::proofs::Forests::one_start, crate::proofs::Forests::good_at, crate::proofs::Forests::one_turn, crate::proofs::Forests::one_end, crate::proofs::Forests::other_end))]
fn one_tree(tree: &[u8], n: usize) -> Result<(), Refusal>
    requires { C.Good tree.now n }
    ensures { result ≡ C.passed (C.whole_tree tree.now) }
{
    let mut trees: usize = 0;
    for i in (0..n).rev() {
        let reader = RecordReader { tree, index: i };
        let asked = WholeRecord { reader }.kind().parts();
        if trees < asked {
            return Err(Refusal::NotOneTree);
        }
        trees = trees + 1 - asked;
    }
    if trees == 1 {
        Ok(())
    } else {
        Err(Refusal::NotOneTree)
    }
}

// The link of a file that passes checks 1, 2, 3 and 4, or the first refusal.
#[tactic(auto, using(crate::proofs::Checks::header_refused, crate::proofs::Checks::header_long, crate::proofs::Checks::count_refused, crate::proofs::Checks::few_records, crate::proofs::Checks::good_file, crate::proofs::Checks::tree_passed))]
pub fn check(tree: &[u8]) -> Result<LinkType, Refusal>
    ensures { result ≡ checked (F.parse tree.now) }
{
    let link = header(tree)?;
    let n = count(tree)?;
    good_records(tree, n)?;
    one_tree(tree, n)?;
    Ok(link)
}

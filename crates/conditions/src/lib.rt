// The conditions but ports and ether addresses: codegen.rs `emit_ethertype` to `emit_ip6_multicast`.
#![tactic(auto)]

ghost use Rattle.std.specs.Prelude.{◌≡◌, ℕ, [], ◌∷◌, ◌++◌, ◌+◌, ◌≤◌, ◌<◌, length};
ghost use Rattle.ast.specs.declared.Primitive.TheVariants.{IpBroadcast, IpMulticast, Ip6Multicast};
ghost use Rattle.codegen.specs.declared.Width.TheVariants.{Word};
ghost use Rattle.codegen.specs.declared.Side.TheVariants.{Success, Failure};
ghost use Rattle.codegen.specs.declared.Op.TheVariants.{LdAbs};
ghost use Rattle.codegen.specs.Block.{Block};
ghost use Rattle.codegen.specs.Emit as E;
ghost use Rattle.codegen.specs.Nets6 as N;
ghost use Rattle.std.proofs.Common.{rules};
ghost use Rattle.emit.specs.Grown.{Place, Space, Room, Spared, Grows, Replies};
ghost use Rattle.conditions.specs.Added.{Adds};
ghost use Rattle.conditions.specs.Loads as L;

use ast::{Dir, LinkType};
use codegen::{Exit, Facts, IPV4, IPV6, Line, Op, Side, Slot, Test, Width};
use emit::Emitter;
use error::Refusal;
use nets::{FULL, Net6, net6_of};

#[derive(Clone, Copy, Debug, PartialEq, Eq)]
pub enum Version {
    V4,
    V6,
}

// ---- by link and by version

pub fn net_offset(link: LinkType) -> u32
    ensures offset { result ≡ E.net_offset link }
    ensures small { result ≤ 16 }
{
    match link {
        LinkType::Ethernet => 14,
        LinkType::RawIp => 0,
        LinkType::LinuxSll => 16,
    }
}

pub fn ether_proto_offset(link: LinkType) -> Option<u32>
    ensures { result ≡ E.ether_proto_offset link }
{
    match link {
        LinkType::Ethernet => Some(12),
        LinkType::RawIp => None,
        LinkType::LinuxSll => Some(14),
    }
}

impl Version {
    fn ethertype(self) -> u32
        ensures { result ≡ L.ether_of self }
    {
        match self {
            Version::V4 => IPV4,
            Version::V6 => IPV6,
        }
    }

    // Where the protocol stands after the network header's start.
    pub fn proto_place(self) -> u32
        ensures place { result ≡ L.proto_place self }
        ensures small { result ≤ 9 }
    {
        match self {
            Version::V4 => 9,
            Version::V6 => 6,
        }
    }

    pub fn proto_fact(self, facts: Facts) -> Option<u32>
        ensures { result ≡ L.proto_fact self facts }
    {
        match self {
            Version::V4 => facts.ip4_proto,
            Version::V6 => facts.ip6_nh,
        }
    }

    pub fn learn_proto(self, facts: Facts, n: u32) -> Facts
        ensures { result ≡ L.learn_proto self facts n }
    {
        match self {
            Version::V4 => facts.learn_ip4(n),
            Version::V6 => facts.learn_ip6(n),
        }
    }
}

// ---- ethertype and protocol

#[tactic(auto, using(emit::proofs::Outcome::unchanged), unfolding(codegen::specs::Emit::emit_ethertype))]
pub fn emit_ethertype(e: &mut Emitter<'_>, et: u32) -> Result<(), Refusal>
    requires { Space 2 e.old }
    ensures answer { Replies (E.emit_ethertype e.old.link et e.old.facts) e.old e.new result }
    ensures spared { Spared Success e.old e.new }
{
    let Some(off) = ether_proto_offset(e.link) else {
        return if et == IPV4 {
            Ok(())
        } else {
            Err(Refusal::KindOnRaw)
        };
    };
    if e.facts.ethertype != Some(et) {
        e.check(Width::Half, off, et);
        e.facts = e.facts.learn_ethertype(et);
    }
    Ok(())
}

// The ethertype of a version and then its protocol: `emit_ip4_l4`, `emit_ip6_l4`.
#[tactic(auto, using(crate::proofs::Starts::ethertype_size, crate::proofs::Starts::l4_refused, crate::proofs::Starts::l4_known, crate::proofs::Starts::l4_tested))]
pub fn emit_l4(e: &mut Emitter<'_>, version: Version, n: u32) -> Result<(), Refusal>
    requires { Space 4 e.old }
    ensures answer { Replies (L.emit_version e.old.link version n e.old.facts) e.old e.new result }
    ensures spared { Spared Success e.old e.new }
{
    emit_ethertype(e, version.ethertype())?;
    if version.proto_fact(e.facts) != Some(n) {
        let off = net_offset(e.link) + version.proto_place();
        e.check(Width::Byte, off, n);
        e.facts = version.learn_proto(e.facts, n);
    }
    Ok(())
}

// ---- one load, by direction

fn push_load(e: &mut Emitter<'_>, op: Op, mask: Option<u32>)
    requires { Place 2 e.old }
    ensures lines { Grows (L.load op mask) e.old e.new }
    ensures spared { Spared Success e.old e.new }
    ensures lost_spared { Spared Failure e.old e.new }
{
    e.add(Line::Plain(op));
    if let Some(m) = mask {
        e.add(Line::Plain(Op::AndK(m)));
    }
}

fn check_load(e: &mut Emitter<'_>, op: Op, mask: Option<u32>, k: u32)
    requires { Space 3 e.old }
    ensures lines { Grows (L.load op mask ++ (E.need k ∷ [])) e.old e.new }
    ensures spared { Spared Success e.old e.new }
{
    push_load(e, op, mask);
    e.need(k);
}

// `check_addr4`: two loads, each compared with k, by direction. With either, the source test's jt is a success.
// Six parameters: the source's has the value, two places and the direction; nets and ports call this one too, so that it is given the loads
// and the mask.
#[tactic(auto, unfolding(codegen::specs::Emit::check_loads))]
pub fn check_addr4(e: &mut Emitter<'_>, dir: Dir, src: Op, dst: Op, mask: Option<u32>, k: u32)
    requires { Room 6 e.old }
    ensures { Grows (E.check_loads dir k (L.load src mask) (L.load dst mask)) e.old e.new }
{
    match dir {
        Dir::Src => check_load(e, src, mask, k),
        Dir::Dst => check_load(e, dst, mask, k),
        Dir::SrcAndDst => {
            check_load(e, src, mask, k);
            check_load(e, dst, mask, k);
        }
        Dir::SrcOrDst => {
            push_load(e, src, mask);
            e.add(Line::Branch(Test::Jeq, k, Slot::Jt, Exit::Leave(Side::Success)));
            check_load(e, dst, mask, k);
        }
    }
}

// ---- several loads, by direction

// A test of some loads at a place. Of the rows that the emitter was lent it tells what is added to them, and that they stay as long.
pub trait Check {
    ghost block: { Self → ℕ → Block };

    ghost most: { ℕ };

    fn check(&self, e: &mut Emitter<'_>, off: u32)
        requires room { Space most e.old }
        requires place { off < 65536 }
        ensures lines { Adds (block self.now off) e.old e.new }
        ensures short { length (block self.now off) ≤ most };

    // Its lines are far fewer than a jump goes over.
    ghost few: { most ≤ 17 };
}

// One that goes on with the same rows, and leaves that of the successes whole. Each of the generator's tests does.
pub trait SparingCheck {
    ghost block: { Self → ℕ → Block };

    ghost most: { ℕ };

    fn check_sparing(&self, e: &mut Emitter<'_>, off: u32)
        requires room { Space most e.old }
        requires place { off < 65536 }
        ensures lines { Grows (block self.now off) e.old e.new }
        ensures spared { Spared Success e.old e.new }
        ensures short { length (block self.now off) ≤ most };

    // Its lines are far fewer than a jump goes over.
    ghost few: { most ≤ 17 };
}

impl<C: SparingCheck> Check for C {
    ghost block = { C.block };

    ghost most = { C.most };

    ghost few = { C.few };

    #[tactic(auto, using(crate::proofs::Adding::adds))]
    fn check(&self, e: &mut Emitter<'_>, off: u32) {
        self.check_sparing(e, off);
    }
}

// A segment under a mask that is not full, the last one tested; nothing under a mask of 0.
#[tactic(auto, using(emit::proofs::Grow::none))]
fn check_last(e: &mut Emitter<'_>, mask: u32, expected: u32, off: u32)
    requires { Space 3 e.old }
    ensures lines { Grows (N.last_test mask expected off) e.old e.new }
    ensures spared { Spared Success e.old e.new }
{
    if mask != 0 {
        check_load(e, Op::LdAbs(Width::Half, off), Some(mask), expected);
    }
}

// `check_net6`: the segments of an address as far as the masks reach. All of them where each is full: `check_ip6_addr`.
impl SparingCheck for Net6 {
    ghost block = { λ net off. N.tests net.masks net.expected off };

    ghost most = { 17 };

    ghost few = { Prim.search rules };

    #[tactic(auto, using(crate::proofs::Nets::tests_short))]
    fn check_sparing(&self, e: &mut Emitter<'_>, off: u32) {
        // By number: a segment's place in the frame is told by it.
        for i in 0..8 {
            let at = off + 2 * i as u32;
            let expected = u32::from(self.expected[i]);
            let mask = self.masks[i];
            if mask != FULL {
                return check_last(e, u32::from(mask), expected, at);
            }
            e.check(Width::Half, at, expected);
        }
    }
}

// `check_range`: low ≤ A ≤ high.
#[derive(Clone, Copy, Debug, PartialEq, Eq)]
pub struct Range {
    pub low: u32,
    pub high: u32,
}

impl SparingCheck for Range {
    ghost block = { λ range off. E.check_range range.low range.high off };

    ghost most = { 3 };

    ghost few = { Prim.search rules };

    #[tactic(auto, unfolding(codegen::specs::Emit::check_range))]
    fn check_sparing(&self, e: &mut Emitter<'_>, off: u32) {
        e.add(Line::Plain(Op::LdhInd(off)));
        e.add(Line::Branch(Test::Jge, self.low, Slot::Jf, Exit::Leave(Side::Failure)));
        e.add(Line::Branch(Test::Jgt, self.high, Slot::Jt, Exit::Leave(Side::Failure)));
    }
}

// `check_mac`: four bytes and then two.
#[derive(Clone, Copy, Debug, PartialEq, Eq)]
pub struct Mac {
    pub four: u32,
    pub two: u32,
}

impl SparingCheck for Mac {
    ghost block = { λ mac off. L.mac_block mac.four mac.two off };

    ghost most = { 4 };

    ghost few = { Prim.search rules };

    fn check_sparing(&self, e: &mut Emitter<'_>, off: u32) {
        e.check(Width::Word, off, self.four);
        e.check(Width::Half, off + 4, self.two);
    }
}

// Two tests by direction. With either, the second is tried where the first fails.
// Five parameters: the test, and the two places where it is made, which each caller reckons from another start.
#[tactic(auto, unfolding(codegen::specs::Emit::check_blocks))]
pub fn sparing_sides<C: SparingCheck>(e: &mut Emitter<'_>, dir: Dir, test: &C, src: u32, dst: u32)
    requires room { Room (C.most + 1 + C.most) e.old }
    requires src { src < 65536 }
    requires dst { dst < 65536 }
    ensures { Grows (E.check_blocks dir (C.block test.now src) (C.block test.now dst)) e.old e.new }
{
    match dir {
        Dir::Src => test.check_sparing(e, src),
        Dir::Dst => test.check_sparing(e, dst),
        Dir::SrcAndDst => {
            test.check_sparing(e, src);
            test.check_sparing(e, dst);
        }
        Dir::SrcOrDst => {
            let mark = e.failures;
            test.check_sparing(e, src);
            e.otherwise(mark).unwrap();
            test.check_sparing(e, dst);
        }
    }
}

// The same of any two tests, and as much as these tell.
// A function of its own: what a sparing test tells besides would be lost in one for both.
#[tactic(auto, unfolding(codegen::specs::Emit::check_blocks))]
pub fn check_sides<C: Check>(e: &mut Emitter<'_>, dir: Dir, test: &C, src: u32, dst: u32)
    requires room { Room (C.most + 1 + C.most) e.old }
    requires src { src < 65536 }
    requires dst { dst < 65536 }
    ensures { Adds (E.check_blocks dir (C.block test.now src) (C.block test.now dst)) e.old e.new }
{
    match dir {
        Dir::Src => test.check(e, src),
        Dir::Dst => test.check(e, dst),
        Dir::SrcAndDst => {
            test.check(e, src);
            test.check(e, dst);
        }
        Dir::SrcOrDst => {
            let mark = e.failures;
            test.check(e, src);
            e.otherwise(mark).unwrap();
            test.check(e, dst);
        }
    }
}

// ---- conditions

// `emit_host4`, `emit_net`: a value under a mask, whole for a host.
#[tactic(auto, using(crate::proofs::Starts::guarding))]
pub fn emit_net(e: &mut Emitter<'_>, dir: Dir, mask: Option<u32>, k: u32) -> Result<(), Refusal>
    requires { Room 8 e.old }
    ensures { Replies (E.guarded e.old.link 0x0800 (E.check_loads dir k (L.load (LdAbs Word (E.net_offset e.old.link + 12)) mask) (L.load (LdAbs Word (E.net_offset e.old.link + 16)) mask)) e.old.facts) e.old e.new result }
{
    emit_ethertype(e, IPV4)?;
    let n = net_offset(e.link);
    let src = Op::LdAbs(Width::Word, n + 12);
    let dst = Op::LdAbs(Width::Word, n + 16);
    check_addr4(e, dir, src, dst, mask, k);
    Ok(())
}

// `emit_host6`, `emit_net6`: the segments of an address as far as a prefix, 128 for a host.
#[tactic(auto, using(crate::proofs::Starts::guarding))]
pub fn emit_net6(
    e: &mut Emitter<'_>,
    dir: Dir,
    prefix: u8,
    segments: [u16; 8],
) -> Result<(), Refusal>
    requires { Room 37 e.old }
    ensures { Replies (E.guarded e.old.link 0x86dd (E.check_blocks dir (E.check_net6 prefix (E.net_offset e.old.link + 8) segments) (E.check_net6 prefix (E.net_offset e.old.link + 24) segments)) e.old.facts) e.old e.new result }
{
    emit_ethertype(e, IPV6)?;
    let n = net_offset(e.link);
    sparing_sides(e, dir, &net6_of(prefix, segments), n + 8, n + 24);
    Ok(())
}

// Three calls with numbers of its own: one function for it and `emit_ip6_multicast` would take them all.
#[tactic(auto, using(crate::proofs::Starts::guarding), unfolding(codegen::specs::Emit::emit_primitive))]
pub fn emit_ip_broadcast(e: &mut Emitter<'_>) -> Result<(), Refusal>
    requires { Space 4 e.old }
    ensures answer { Replies (E.emit_primitive e.old.link IpBroadcast e.old.facts) e.old e.new result }
    ensures spared { Spared Success e.old e.new }
{
    emit_ethertype(e, IPV4)?;
    let n = net_offset(e.link);
    e.check(Width::Word, n + 16, 0xffff_ffff);
    Ok(())
}

#[tactic(auto, using(crate::proofs::Starts::guarding), unfolding(codegen::specs::Emit::emit_primitive))]
pub fn emit_ip_multicast(e: &mut Emitter<'_>) -> Result<(), Refusal>
    requires { Space 5 e.old }
    ensures answer { Replies (E.emit_primitive e.old.link IpMulticast e.old.facts) e.old e.new result }
    ensures spared { Spared Success e.old e.new }
{
    emit_ethertype(e, IPV4)?;
    let n = net_offset(e.link);
    check_load(
        e,
        Op::LdAbs(Width::Word, n + 16),
        Some(0xf000_0000),
        0xe000_0000,
    );
    Ok(())
}

#[tactic(auto, using(crate::proofs::Starts::guarding), unfolding(codegen::specs::Emit::emit_primitive))]
pub fn emit_ip6_multicast(e: &mut Emitter<'_>) -> Result<(), Refusal>
    requires { Space 4 e.old }
    ensures answer { Replies (E.emit_primitive e.old.link Ip6Multicast e.old.facts) e.old e.new result }
    ensures spared { Spared Success e.old e.new }
{
    emit_ethertype(e, IPV6)?;
    let n = net_offset(e.link);
    e.check(Width::Byte, n + 24, 0xff);
    Ok(())
}

#[cfg(test)]
mod tests;

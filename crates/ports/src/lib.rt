// The port prologue, ports and port ranges, and the guards hoisted in front of an or: codegen.rs `emit_port_prereqs_set`, `emit_port`,
// `emit_portrange`, `emit_or_hoist`.
#![tactic(auto)]

ghost use Rattle.std.specs.Prelude.{◌≡◌, [], ◌∷◌, None, Some, Ok, ◌+◌, ◌≤◌, length};
ghost use Rattle.codegen.specs.Facts as F;
ghost use Rattle.codegen.specs.declared.Side.TheVariants.{Success, Failure};
ghost use Rattle.codegen.specs.declared.Width.TheVariants.{Half};
ghost use Rattle.codegen.specs.declared.Op.TheVariants.{LdAbs, LdhInd};
ghost use Rattle.codegen.specs.declared.Test.TheVariants.{Jeq};
ghost use Rattle.codegen.specs.declared.Exit.TheVariants.{Skip};
ghost use Rattle.codegen.specs.declared.Slot.TheVariants.{Jt};
ghost use Rattle.codegen.specs.declared.Line.TheVariants.{Plain, Branch};
ghost use Rattle.codegen.specs.Emit as E;
ghost use Rattle.emit.specs.Grown.{Room, Space, Place, Spared, Grew, Grows, Replies};
ghost use Rattle.conditions.specs.Loads as L;
ghost use Rattle.ports.specs.Hoist as Q;
ghost use Rattle.ports.specs.Hoist.{Follows};

use ast::{Dir, LinkType};
use codegen::{
    Exit, Facts, GuardSet, IPV4, IPV6, L4Set, Line, Op, Side, Slot, TCP, Test, UDP, Width,
    ready_for,
};
use conditions::{
    Range, Version, check_addr4, emit_ethertype, emit_l4, ether_proto_offset, net_offset,
    sparing_sides,
};
use emit::Emitter;
use error::Refusal;

// The bits of a fragment's place in an IPv4 header.
const FRAGMENT: u32 = 0x1fff;

// The bytes of an IPv6 header.
const HEADER6: u32 = 40;

// ---- the prologue

// The lines that test for a set.
#[tactic(auto, unfolding(codegen::specs::Emit::l4_set_check))]
fn l4_len(want: L4Set) -> u8
    ensures length { result ≡ length (E.l4_set_check want) }
    ensures small { result ≤ 2 }
{
    match want {
        L4Set::One(_) => 1,
        L4Set::TcpOrUdp => 2,
    }
}

// A is a protocol of the set.
#[tactic(auto, unfolding(codegen::specs::Emit::l4_set_check))]
fn emit_l4_set_check(e: &mut Emitter<'_>, want: L4Set)
    requires { Space 2 e.old }
    ensures lines { Grows (E.l4_set_check want) e.old e.new }
    ensures spared { Spared Success e.old e.new }
{
    match want {
        L4Set::One(n) => e.need(n),
        L4Set::TcpOrUdp => {
            e.add(Line::Branch(Test::Jeq, TCP, Slot::Jt, Exit::Skip(1)));
            e.need(UDP);
        }
    }
}

// The protocol byte is of the set.
fn l4_check(e: &mut Emitter<'_>, version: Version, want: L4Set)
    requires { Space 3 e.old }
    ensures lines { Grows (E.l4_check (E.net_offset e.old.link + L.proto_place version) want) e.old e.new }
    ensures spared { Spared Success e.old e.new }
{
    let off = net_offset(e.link) + version.proto_place();
    e.add(Line::Plain(Op::LdAbs(Width::Byte, off)));
    emit_l4_set_check(e, want);
}

// No later fragment, and X the header's length.
fn header4(e: &mut Emitter<'_>)
    requires { Space 3 e.old }
    ensures lines { Grows (E.header4 (E.net_offset e.old.link)) e.old e.new }
    ensures spared { Spared Success e.old e.new }
{
    let n = net_offset(e.link);
    e.add(Line::Plain(Op::LdAbs(Width::Half, n + 6)));
    e.add(Line::Branch(Test::Jset, FRAGMENT, Slot::Jt, Exit::Leave(Side::Failure)));
    e.add(Line::Plain(Op::LdxMsh(n)));
}

// X is the header's length.
#[tactic(auto, unfolding(codegen::specs::Emit::header6))]
fn header6(e: &mut Emitter<'_>)
    requires { Place 1 e.old }
    ensures lines { Grows E.header6 e.old e.new }
    ensures spared { Spared Success e.old e.new }
    ensures lost_spared { Spared Failure e.old e.new }
{
    e.add(Line::Plain(Op::LdxImm(HEADER6)));
}

// What X needs.
fn header(e: &mut Emitter<'_>, version: Version)
    requires { Space 3 e.old }
    ensures lines { Grows (L.header version (E.net_offset e.old.link)) e.old e.new }
    ensures spared { Spared Success e.old e.new }
{
    match version {
        Version::V4 => header4(e),
        Version::V6 => header6(e),
    }
}

// The protocol and then the header.
fn path(e: &mut Emitter<'_>, version: Version, want: L4Set)
    requires { Space 6 e.old }
    ensures lines { Grows (L.path version (E.net_offset e.old.link) want) e.old e.new }
    ensures spared { Spared Success e.old e.new }
{
    l4_check(e, version, want);
    header(e, version);
}

// The ethertype: IPv6 goes d lines ahead, IPv4 falls through.
fn fork(e: &mut Emitter<'_>, off: u32, d: u8)
    requires { Space 3 e.old }
    ensures lines { Grows (Plain (LdAbs Half off) ∷ Branch Jeq 0x86dd Jt (Skip d) ∷ E.need 0x0800 ∷ []) e.old e.new }
    ensures spared { Spared Success e.old e.new }
{
    e.add(Line::Plain(Op::LdAbs(Width::Half, off)));
    e.add(Line::Branch(Test::Jeq, IPV6, Slot::Jt, Exit::Skip(d)));
    e.need(IPV4);
}

// The ethertype is not known: both versions.
fn dual_path(e: &mut Emitter<'_>, off: u32, want: L4Set)
    requires { Space 14 e.old }
    ensures lines { Grows (E.dual_path off (E.net_offset e.old.link) want) e.old e.new }
    ensures spared { Spared Success e.old e.new }
{
    let len = l4_len(want);
    fork(e, off, len + 6);
    path(e, Version::V4, want);
    e.add(Line::Jump(Exit::Skip(len + 2)));
    l4_check(e, Version::V6, want);
    header6(e);
}

// An established set of one protocol is a fact of that protocol.
fn established(facts: Facts, version: Version, set: L4Set) -> Facts
    ensures { result ≡ F.with_ports (E.learn_set (L.learn_proto version) facts set) (Some set) }
{
    let learnt = match set {
        L4Set::One(n) => version.learn_proto(facts, n),
        L4Set::TcpOrUdp => facts,
    };
    learnt.with_ports(Some(set))
}

// One version: where ports are ready for another set only the protocol is narrowed, and where the protocol is known to be one of the set
// it is not tested again.
fn one_version(e: &mut Emitter<'_>, version: Version, want: L4Set)
    requires { Space 6 e.old }
    ensures lines { Grew (Q.version_for e.old.link version want e.old.facts) e.old e.new }
    ensures spared { Spared Success e.old e.new }
{
    let set = match (e.facts.ports_ready, version.proto_fact(e.facts)) {
        (Some(_), _) => {
            l4_check(e, version, want);
            want
        }
        (None, Some(proto)) if want.contains(proto) => {
            header(e, version);
            L4Set::One(proto)
        }
        (None, _) => {
            path(e, version, want);
            want
        }
    };
    e.facts = established(e.facts, version, set);
}

// Neither version is known.
#[tactic(auto, using(emit::proofs::Grow::none))]
fn dual(e: &mut Emitter<'_>, want: L4Set)
    requires { Space 14 e.old }
    ensures lines { Grew (E.dual (E.ether_proto_offset e.old.link) (E.net_offset e.old.link) want e.old.facts) e.old e.new }
    ensures spared { Spared Success e.old e.new }
{
    if let Some(off) = ether_proto_offset(e.link) {
        dual_path(e, off, want);
        e.facts = e.facts.with_ports(Some(want));
    }
}

// What the test of a port needs: a protocol of the set, and X the header's length.
#[tactic(auto, using(emit::proofs::Grow::none), unfolding(codegen::specs::Emit::port_prereqs))]
pub fn emit_port_prereqs_set(e: &mut Emitter<'_>, want: L4Set)
    requires { Space 14 e.old }
    ensures lines { Grew (E.port_prereqs e.old.link want e.old.facts) e.old e.new }
    ensures spared { Spared Success e.old e.new }
{
    if ready_for(e.facts.ports_ready, want) {
        return;
    }
    match e.facts.ethertype {
        Some(IPV4) => one_version(e, Version::V4, want),
        Some(IPV6) => one_version(e, Version::V6, want),
        _ => dual(e, want),
    }
}

// ---- conditions

// A port, by direction.
#[tactic(auto, using(crate::proofs::Hoisting::prereqs_size))]
pub fn emit_port(e: &mut Emitter<'_>, dir: Dir, want: L4Set, port: u32)
    requires { Room 20 e.old }
    ensures { Grew (Q.ported_by e.old.link want (E.check_loads dir port (L.load (LdhInd (E.net_offset e.old.link)) None) (L.load (LdhInd (E.net_offset e.old.link + 2)) None)) e.old.facts) e.old e.new }
{
    emit_port_prereqs_set(e, want);
    let n = net_offset(e.link);
    check_addr4(e, dir, Op::LdhInd(n), Op::LdhInd(n + 2), None, port);
}

// A range of ports, by direction.
// Apart from `emit_port`: with either, the two tests of a port are loads whose first succeeds, and those of a range are blocks.
#[tactic(auto, using(crate::proofs::Hoisting::prereqs_size))]
pub fn emit_portrange(e: &mut Emitter<'_>, dir: Dir, want: L4Set, range: &Range)
    requires { Room 21 e.old }
    ensures { Grew (Q.ported_by e.old.link want (E.check_blocks dir (E.check_range range.now.low range.now.high (E.net_offset e.old.link)) (E.check_range range.now.low range.now.high (E.net_offset e.old.link + 2))) e.old.facts) e.old e.new }
{
    emit_port_prereqs_set(e, want);
    let n = net_offset(e.link);
    sparing_sides(e, dir, range, n, n + 2);
}

// ---- hoisting

// An ethertype, but none on a raw link.
fn hoist_ethertype(e: &mut Emitter<'_>, ethertype: Option<u32>) -> Result<(), Refusal>
    requires { Space 2 e.old }
    ensures step { Follows (Q.hoist_ethertype ethertype e.old.link) e.old e.new result }
    ensures spared { Spared Success e.old e.new }
{
    match ethertype {
        Some(et) if e.link != LinkType::RawIp => emit_ethertype(e, et),
        _ => Ok(()),
    }
}

// A protocol.
fn hoist_l4(e: &mut Emitter<'_>, version: Version, proto: Option<u32>) -> Result<(), Refusal>
    requires { Space 4 e.old }
    ensures step { Follows (Q.hoist_l4 version proto e.old.link) e.old e.new result }
    ensures spared { Spared Success e.old e.new }
{
    match proto {
        Some(n) => emit_l4(e, version, n),
        None => Ok(()),
    }
}

// What the ports need.
#[tactic(auto, using(crate::proofs::Hoisting::ports_follow))]
fn hoist_ports(e: &mut Emitter<'_>, ports: Option<L4Set>)
    requires { Space 14 e.old }
    ensures step { Follows (E.hoist_ports e.old.link ports) e.old e.new (Ok tt) }
    ensures spared { Spared Success e.old e.new }
{
    if let Some(want) = ports {
        emit_port_prereqs_set(e, want);
    }
}

// The guards that both sides of an or require, emitted once in front of it.
pub fn emit_or_hoist(e: &mut Emitter<'_>, guards: GuardSet) -> Result<(), Refusal>
    requires { Space 24 e.old }
    ensures answer { Replies (E.or_hoist e.old.link guards e.old.facts) e.old e.new result }
    ensures spared { Spared Success e.old e.new }
{
    hoist_ethertype(e, guards.ethertype)?;
    hoist_l4(e, Version::V4, guards.ip4_proto)?;
    hoist_l4(e, Version::V6, guards.ip6_nh)?;
    hoist_ports(e, guards.port_prereqs);
    Ok(())
}

// The guards that a tree requires: codegen.rs `required_guards`, `primitive_guards`, over the records of a tree file.
#![tactic(auto)]

ghost use Rattle.std.specs.Prelude.{◌≡◌, ◌≤◌, length};
ghost use Rattle.ast.specs.File.{count_of};
ghost use Rattle.codegen.specs.Guards as G;
ghost use Rattle.reader.specs.Reader.{Here};
ghost use Rattle.guards.specs.Notes as N;

use ast::{Node, Primitive, Proto};
use codegen::{GuardSet, IPV4, IPV6};

// What the tree at a record requires, and the record after it.
// By record number: no memory is asked for, so that a tree is no Box.
#[derive(Clone, Copy, Debug, PartialEq, Eq)]
pub struct Note {
    pub guards: GuardSet,
    pub end: usize,
}

// ---- a condition

fn ethertype_guard(v: u32) -> GuardSet
    ensures { result ≡ G.guards v None None }
{
    GuardSet {
        ethertype: Some(v),
        ..GuardSet::none()
    }
}

fn port_guards(protocol: Option<Proto>) -> GuardSet
    ensures { result ≡ G.port_guards protocol }
{
    GuardSet {
        port_prereqs: facts::l4set_for(protocol).ok(),
        ..GuardSet::none()
    }
}

#[tactic(auto, unfolding(codegen::specs::Guards::primitive_guards))]
fn primitive_guards(p: Primitive) -> GuardSet
    ensures { result ≡ G.primitive_guards p }
{
    match p {
        Primitive::Protocol(protocol) => facts::protocol_guards(protocol),
        Primitive::Host4(..)
        | Primitive::Net(..)
        | Primitive::IpBroadcast
        | Primitive::IpMulticast => ethertype_guard(IPV4),
        Primitive::Host6(..) | Primitive::Net6(..) | Primitive::Ip6Multicast => ethertype_guard(
            IPV6,
        ),
        Primitive::Port(_, protocol, _) | Primitive::PortRange(_, protocol, _, _) => port_guards(
            protocol,
        ),
        Primitive::EtherHost(..) | Primitive::EtherMulticast => GuardSet::none(),
        Primitive::EtherProto(v) => ethertype_guard(u32::from(v)),
        Primitive::IpProtoChain(n) => GuardSet {
            ip4_proto: Some(u32::from(n)),
            ..ethertype_guard(IPV4)
        },
        Primitive::Ip6ProtoChain(n) => GuardSet {
            ip6_nh: Some(u32::from(n)),
            ..ethertype_guard(IPV6)
        },
    }
}

// ---- a tree

// The note of record i, where those after it are noted. "A negated check proves nothing about what its parent requires".
#[tactic(auto, using(reader::proofs::Here::here_not, crate::proofs::Noting::not_note))]
fn note_at(tree: &[u8], notes: &[Note], i: usize) -> Note
    requires { N.Next tree.now notes.now i }
    ensures { result ≡ N.note_of tree.now i }
{
    match reader::node(tree, i) {
        join @ (Node::AndNode | Node::OrNode) => {
            let left = notes[i + 1];
            let right = notes[left.end];
            let guards = match join {
                Node::AndNode => left.guards.union(right.guards),
                _ => left.guards.intersect(right.guards),
            };
            Note {
                guards,
                end: right.end,
            }
        }
        Node::NotNode => Note {
            guards: GuardSet::none(),
            end: notes[i + 1].end,
        },
        Node::LeafNode(p) => Note {
            guards: primitive_guards(p),
            end: i + 1,
        },
    }
}

// The guards of each tree in a file of n records, noted from the last record back. There may be more notes than records.
pub fn required_guards(tree: &[u8], notes: &mut [Note], n: usize)
    requires { Here tree.now 0 × (n ≡ count_of tree.now) × (n ≤ length notes.old) }
    ensures { N.Noted tree.now notes.new 0 n }
{
    for i in (0..n).rev() {
        let made = note_at(tree, notes, i);
        notes[i] = made;
    }
}

// Ether addresses: codegen.rs `emit_ether_host` and `emit_ether_multicast`, and those of cooked captures.
#![tactic(auto)]

ghost use Rattle.std.specs.Prelude.{◌≡◌};
ghost use Rattle.ast.specs.declared.Primitive.TheVariants.{EtherMulticast};
ghost use Rattle.codegen.specs.declared.Side.TheVariants.{Success};
ghost use Rattle.codegen.specs.Emit as E;
ghost use Rattle.emit.specs.Grown.{Room, Space, Spared, Replies};
ghost use Rattle.conditions.specs.Loads as L;

use ast::{Dir, LinkType};
use codegen::{Exit, Line, Op, Side, Slot, Test, Width};
use conditions::{Mac, SparingCheck, sparing_sides};
use emit::Emitter;
use error::Refusal;

// Where the addresses stand.
const DESTINATION: u32 = 0;

const SOURCE: u32 = 6;

// In a cooked capture, where the length of the sender's address stands, and what it has to be.
const LENGTH: u32 = 4;

const MAC_LENGTH: u32 = 6;

// Source and destination exchanged.
fn turned(dir: Dir) -> Dir
    ensures { result ≡ E.turned dir }
{
    match dir {
        Dir::Src => Dir::Dst,
        Dir::Dst => Dir::Src,
        Dir::SrcAndDst | Dir::SrcOrDst => dir,
    }
}

// A cooked capture has a sender's address and no other. Its length is tested first.
fn emit_sender(e: &mut Emitter<'_>, dir: Dir, mac: &Mac) -> Result<(), Refusal>
    requires { Space 6 e.old }
    ensures answer { Replies (E.unlearned (E.sender dir (L.mac_block mac.now.four mac.now.two 6)) e.old.facts) e.old e.new result }
    ensures spared { Spared Success e.old e.new }
{
    match dir {
        Dir::Src => {
            e.check(Width::Half, LENGTH, MAC_LENGTH);
            mac.check_sparing(e, SOURCE);
            Ok(())
        }
        Dir::Dst | Dir::SrcAndDst | Dir::SrcOrDst => Err(Refusal::CookedAddress),
    }
}

// The destination is tested first.
#[tactic(auto, unfolding(codegen::specs::Emit::ether))]
pub fn emit_ether_host(e: &mut Emitter<'_>, dir: Dir, mac: &Mac) -> Result<(), Refusal>
    requires { Room 9 e.old }
    ensures { Replies (E.ether e.old.link (E.check_blocks (E.turned dir) (L.mac_block mac.now.four mac.now.two 0) (L.mac_block mac.now.four mac.now.two 6)) (E.sender dir (L.mac_block mac.now.four mac.now.two 6)) e.old.facts) e.old e.new result }
{
    match e.link {
        LinkType::Ethernet => {
            sparing_sides(e, turned(dir), mac, DESTINATION, SOURCE);
            Ok(())
        }
        LinkType::RawIp => Err(Refusal::EtherOnRaw),
        LinkType::LinuxSll => emit_sender(e, dir, mac),
    }
}

#[tactic(auto, unfolding(codegen::specs::Emit::ether, codegen::specs::Emit::emit_primitive))]
pub fn emit_ether_multicast(e: &mut Emitter<'_>) -> Result<(), Refusal>
    requires { Space 2 e.old }
    ensures answer { Replies (E.emit_primitive e.old.link EtherMulticast e.old.facts) e.old e.new result }
    ensures spared { Spared Success e.old e.new }
{
    match e.link {
        LinkType::Ethernet => {
            e.add(Line::Plain(Op::LdAbs(Width::Byte, DESTINATION)));
            e.add(Line::Branch(Test::Jset, 1, Slot::Jf, Exit::Leave(Side::Failure)));
            Ok(())
        }
        LinkType::RawIp => Err(Refusal::EtherOnRaw),
        LinkType::LinuxSll => Err(Refusal::CookedAddress),
    }
}

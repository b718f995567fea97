// The lines of a condition: codegen.rs `emit_primitive`.
#![tactic(auto)]

ghost use Rattle.std.specs.Prelude.{◌≡◌};
ghost use Rattle.ast.specs.declared.Primitive.TheVariants.{Protocol};
ghost use Rattle.codegen.specs.Emit as E;
ghost use Rattle.emit.specs.Grown.{Room, Space, Replies};

use ast::{Primitive, Proto};
use bpf::{be_u16, be_u32};
use conditions::{
    Mac, Range, Version, emit_ethertype, emit_ip_broadcast, emit_ip_multicast, emit_ip6_multicast,
    emit_l4, emit_net, emit_net6,
};
use emit::Emitter;
use error::Refusal;
use ether::{emit_ether_host, emit_ether_multicast};
use facts::{l4set_for, protocol_guards};
use ports::{emit_port, emit_portrange};

// A host is tested as a net with this prefix.
const HOST_PREFIX: u8 = 128;

// `emit_proto`, by the protocol's row.
#[tactic(auto, unfolding(codegen::specs::Emit::emit_primitive, codegen::specs::Guards::primitive_guards))]
fn emit_proto(e: &mut Emitter<'_>, protocol: Proto) -> Result<(), Refusal>
    requires { Space 4 e.old }
    ensures { Replies (E.emit_primitive e.old.link (Protocol protocol) e.old.facts) e.old e.new result }
{
    let row = protocol_guards(protocol);
    match (row.ip4_proto, row.ip6_nh, row.ethertype) {
        (Some(n), _, _) => emit_l4(e, Version::V4, n),
        (None, Some(n), _) => emit_l4(e, Version::V6, n),
        (None, None, Some(ethertype)) => emit_ethertype(e, ethertype),
        // No row is without an ethertype.
        (None, None, None) => Ok(()),
    }
}

#[tactic(auto, unfolding(codegen::specs::Emit::emit_primitive, codegen::specs::Emit::check_mac, codegen::specs::Emit::ported))]
pub fn emit_primitive(e: &mut Emitter<'_>, p: Primitive) -> Result<(), Refusal>
    requires { Room 37 e.old }
    ensures { Replies (E.emit_primitive e.old.link p e.old.facts) e.old e.new result }
{
    match p {
        Primitive::Protocol(protocol) => emit_proto(e, protocol),
        Primitive::Host4(dir, address) => emit_net(e, dir, None, address),
        Primitive::Host6(dir, address) => emit_net6(e, dir, HOST_PREFIX, address),
        Primitive::Net(dir, address, mask) => emit_net(e, dir, Some(mask), address & mask),
        Primitive::Net6(dir, prefix, address) => emit_net6(e, dir, prefix, address),
        Primitive::Port(dir, protocol, port) => {
            let want = l4set_for(protocol)?;
            emit_port(e, dir, want, u32::from(port));
            Ok(())
        }
        Primitive::PortRange(dir, protocol, low, high) => {
            let want = l4set_for(protocol)?;
            let range = Range {
                low: u32::from(low),
                high: u32::from(high),
            };
            emit_portrange(e, dir, want, &range);
            Ok(())
        }
        Primitive::EtherHost(dir, address) => {
            let mac = Mac {
                four: be_u32(&address, 0),
                two: u32::from(be_u16(&address, 4)),
            };
            emit_ether_host(e, dir, &mac)
        }
        Primitive::EtherProto(ethertype) => emit_ethertype(e, u32::from(ethertype)),
        Primitive::EtherMulticast => emit_ether_multicast(e),
        Primitive::IpBroadcast => emit_ip_broadcast(e),
        Primitive::IpMulticast => emit_ip_multicast(e),
        Primitive::Ip6Multicast => emit_ip6_multicast(e),
        Primitive::IpProtoChain(n) => emit_l4(e, Version::V4, u32::from(n)),
        Primitive::Ip6ProtoChain(n) => emit_l4(e, Version::V6, u32::from(n)),
    }
}

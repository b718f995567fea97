// Protocols by their rows: codegen.rs `l4set_for`, the table of the twelve protocols, and the facts at a program's entry.
#![tactic(auto)]

ghost use Rattle.std.specs.Prelude.{◌≡◌, ◌<◌};
ghost use Rattle.ast.specs.declared.Primitive.TheVariants.{Protocol};
ghost use Rattle.codegen.specs.Protocols as P;
ghost use Rattle.codegen.specs.Guards.{primitive_guards};
ghost use Rattle.codegen.specs.Compile.{entry_facts};

use ast::{LinkType, Proto};
use codegen::{Facts, GuardSet, IPV4, IPV6, L4Set, Row, RowNumber, SCTP, TCP, UDP};
use error::Refusal;

// The set of a port condition by its protocol.
pub fn l4set_for(protocol: Option<Proto>) -> Result<L4Set, Refusal>
    ensures { result ≡ P.l4set_for protocol }
{
    match protocol {
        None => Ok(L4Set::TcpOrUdp),
        Some(Proto::Tcp) => Ok(L4Set::One(TCP)),
        Some(Proto::Udp) => Ok(L4Set::One(UDP)),
        Some(Proto::Sctp) => Ok(L4Set::One(SCTP)),
        Some(_) => Err(Refusal::PortProtocol),
    }
}

pub fn entry_facts(link: LinkType) -> Facts
    ensures { result ≡ entry_facts link }
{
    match link {
        LinkType::RawIp => Facts::none().learn_ethertype(IPV4),
        LinkType::Ethernet | LinkType::LinuxSll => Facts::none(),
    }
}

// ---- the twelve protocols

// Document 01 has the twelve protocols as rows of one table.
const PROTOCOLS: [Row; 12] = [
    Row {
        ethertype: IPV4,
        ip4_proto: RowNumber::Absent,
        ip6_nh: RowNumber::Absent,
    },
    Row {
        ethertype: IPV6,
        ip4_proto: RowNumber::Absent,
        ip6_nh: RowNumber::Absent,
    },
    Row {
        ethertype: 0x0806,
        ip4_proto: RowNumber::Absent,
        ip6_nh: RowNumber::Absent,
    },
    Row {
        ethertype: 0x8035,
        ip4_proto: RowNumber::Absent,
        ip6_nh: RowNumber::Absent,
    },
    Row {
        ethertype: IPV4,
        ip4_proto: RowNumber::Fixed(TCP),
        ip6_nh: RowNumber::Absent,
    },
    Row {
        ethertype: IPV4,
        ip4_proto: RowNumber::Fixed(UDP),
        ip6_nh: RowNumber::Absent,
    },
    Row {
        ethertype: IPV4,
        ip4_proto: RowNumber::Fixed(1),
        ip6_nh: RowNumber::Absent,
    },
    Row {
        ethertype: IPV6,
        ip4_proto: RowNumber::Absent,
        ip6_nh: RowNumber::Fixed(58),
    },
    Row {
        ethertype: IPV4,
        ip4_proto: RowNumber::Fixed(2),
        ip6_nh: RowNumber::Absent,
    },
    Row {
        ethertype: IPV4,
        ip4_proto: RowNumber::Fixed(SCTP),
        ip6_nh: RowNumber::Absent,
    },
    Row {
        ethertype: IPV4,
        ip4_proto: RowNumber::Small,
        ip6_nh: RowNumber::Absent,
    },
    Row {
        ethertype: IPV6,
        ip4_proto: RowNumber::Absent,
        ip6_nh: RowNumber::Small,
    },
];

// A protocol's place in the table.
fn index_of(protocol: Proto) -> usize
    ensures place { result ≡ P.index_of protocol }
    ensures within { result < 12 }
{
    match protocol {
        Proto::Ip => 0,
        Proto::Ip6 => 1,
        Proto::Arp => 2,
        Proto::Rarp => 3,
        Proto::Tcp => 4,
        Proto::Udp => 5,
        Proto::Icmp => 6,
        Proto::Icmp6 => 7,
        Proto::Igmp => 8,
        Proto::Sctp => 9,
        Proto::Num(_) => 10,
        Proto::Ip6Proto(_) => 11,
    }
}

// Its small number.
fn small_of(protocol: Proto) -> u32
    ensures { result ≡ P.small_of protocol }
{
    match protocol {
        Proto::Num(n) | Proto::Ip6Proto(n) => u32::from(n),
        _ => 0,
    }
}

fn row_of(protocol: Proto) -> Row
    ensures { result ≡ P.row_of protocol }
{
    PROTOCOLS[index_of(protocol)]
}

fn known(number: RowNumber, small: u32) -> Option<u32>
    ensures { result ≡ P.known number small }
{
    match number {
        RowNumber::Absent => None,
        RowNumber::Fixed(p) => Some(p),
        RowNumber::Small => Some(small),
    }
}

// The guards of a protocol condition, by the protocol's row.
#[tactic(auto, unfolding(codegen::specs::Guards::primitive_guards))]
pub fn protocol_guards(protocol: Proto) -> GuardSet
    ensures { result ≡ primitive_guards (Protocol protocol) }
{
    let row = row_of(protocol);
    let small = small_of(protocol);
    GuardSet {
        ethertype: Some(row.ethertype),
        ip4_proto: known(row.ip4_proto, small),
        ip6_nh: known(row.ip6_nh, small),
        port_prereqs: None,
    }
}

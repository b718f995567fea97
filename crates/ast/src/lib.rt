// The words of a filter: ast.rs, and the link types of codegen.rs.
#![tactic(auto)]

ghost use Rattle.std.specs.Prelude.{◌≡◌};
ghost use Rattle.ast.specs.File.{link_of};
ghost use Rattle.ast.specs.Record.{dir_of, proto_of};

use error::Refusal;

// Which link-layer framing wraps the packets.
#[derive(Clone, Copy, Debug, PartialEq, Eq)]
pub enum LinkType {
    Ethernet = 1,
    RawIp = 2,
    LinuxSll = 3,
}

// By a link byte.
impl TryFrom<u8> for LinkType {
    type Error = Refusal;

    ghost try_from_gives = { λ byte link. link ≡ link_of byte };

    fn try_from(byte: u8) -> Result<LinkType, Refusal> {
        match byte {
            1 => Ok(LinkType::Ethernet),
            2 => Ok(LinkType::RawIp),
            3 => Ok(LinkType::LinuxSll),
            _ => Err(Refusal::StrangeFile),
        }
    }
}

// Direction qualifier of a host, net, port or ether test.
#[derive(Clone, Copy, Debug, PartialEq, Eq)]
pub enum Dir {
    SrcOrDst = 0,
    Src = 1,
    Dst = 2,
    SrcAndDst = 3,
}

// By a direction byte.
impl From<u8> for Dir {
    ghost from_gives = { λ byte dir. dir ≡ dir_of byte };

    fn from(byte: u8) -> Dir {
        match byte {
            1 => Dir::Src,
            2 => Dir::Dst,
            3 => Dir::SrcAndDst,
            _ => Dir::SrcOrDst,
        }
    }
}

// "Protocol bytes: 1 Ip, 2 Ip6, 3 Arp, 4 Rarp, 5 Tcp, 6 Udp, 7 Icmp, 8 Icmp6, 9 Igmp, 10 Sctp, 11 Num, 12 Ip6Proto; 11 and 12 use byte 3"
#[derive(Clone, Copy, Debug, PartialEq, Eq)]
pub enum Proto {
    Ip,
    Ip6,
    Arp,
    Rarp,
    Tcp,
    Udp,
    Icmp,
    Icmp6,
    Igmp,
    Sctp,
    Num(u8),
    Ip6Proto(u8),
}

impl Proto {
    // By a protocol byte and a small number.
    pub fn of_bytes(byte: u8, small: u8) -> Proto
        ensures { result ≡ proto_of byte small }
    {
        match byte {
            2 => Proto::Ip6,
            3 => Proto::Arp,
            4 => Proto::Rarp,
            5 => Proto::Tcp,
            6 => Proto::Udp,
            7 => Proto::Icmp,
            8 => Proto::Icmp6,
            9 => Proto::Igmp,
            10 => Proto::Sctp,
            11 => Proto::Num(small),
            12 => Proto::Ip6Proto(small),
            _ => Proto::Ip,
        }
    }
}

// A condition of the kinds 10 to 24. An IPv6 address is eight segments, an ether address six bytes.
#[derive(Clone, Copy, Debug, PartialEq, Eq)]
pub enum Primitive {
    // 10.
    Protocol(Proto),
    // 11.
    Host4(Dir, u32),
    // 12.
    Host6(Dir, [u16; 8]),
    // 13: address, mask.
    Net(Dir, u32, u32),
    // 14: prefix, address.
    Net6(Dir, u8, [u16; 8]),
    // 15.
    Port(Dir, Option<Proto>, u16),
    // 16: low, high.
    PortRange(Dir, Option<Proto>, u16, u16),
    // 17.
    EtherHost(Dir, [u8; 6]),
    // 18.
    EtherProto(u16),
    // 19.
    EtherMulticast,
    // 20.
    IpBroadcast,
    // 21.
    IpMulticast,
    // 22.
    Ip6Multicast,
    // 23.
    IpProtoChain(u8),
    // 24.
    Ip6ProtoChain(u8),
}

// What a record stands for: a join, or a condition.
#[derive(Clone, Copy, Debug, PartialEq, Eq)]
pub enum Node {
    AndNode,
    OrNode,
    NotNode,
    LeafNode(Primitive),
}

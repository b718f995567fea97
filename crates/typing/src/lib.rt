// The words of a typed line, its terms, and why a line has no tree file.
#![tactic(auto)]

use error::Refusal;

// "Accept ip, ip6, arp, rarp, tcp, udp, sctp, icmp": "tcp, udp or sctp" may stand before a port, and the others not. Each with its protocol's
// byte in a record.
#[derive(Clone, Copy, Debug, PartialEq, Eq)]
pub enum Transport {
    Tcp = 5,
    Udp = 6,
    Sctp = 10,
}

#[derive(Clone, Copy, Debug, PartialEq, Eq)]
pub enum Name {
    Ip = 1,
    Ip6 = 2,
    Arp = 3,
    Rarp = 4,
    Icmp = 7,
}

// With the direction's byte in a record.
#[derive(Clone, Copy, Debug, PartialEq, Eq)]
pub enum Side {
    Src = 1,
    Dst = 2,
}

// With the kind of its record.
#[derive(Clone, Copy, Debug, PartialEq, Eq)]
pub enum Join {
    And = 1,
    Or = 2,
}

#[derive(Clone, Copy, Debug, PartialEq, Eq)]
pub enum Word {
    Name(Name),
    Over(Transport),
    Side(Side),
    Host,
    Port,
    Opening,
    Closing,
    Negate,
    Join(Join),
    Address(u32),
    // A port.
    Number(u16),
}

// A condition. "Accept ip, ip6, arp, rarp, tcp, udp, sctp, icmp, `host` with a dotted address, `port` with a number, src or dst before host or
// port, tcp, udp or sctp before port or before its direction"
#[derive(Clone, Copy, Debug, PartialEq, Eq)]
pub enum Term {
    Named(Name),
    Bare(Transport),
    Hosts(Option<Side>, u32),
    Ports(Option<Transport>, Option<Side>, u16),
}

// A refusal, and the byte of the line where it is met.
#[derive(Clone, Copy, Debug, PartialEq, Eq)]
pub struct Fault {
    pub refusal: Refusal,
    pub place: usize,
}

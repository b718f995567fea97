// The direct reading of a tree file on a frame. Every place, number and mask here is this file's own.
#![tactic(auto)]

ghost use Rattle.std.specs.Prelude.{◌≡◌, ◌+◌, ◌≤◌, ◌<◌, ◌&&◌, eqb};
ghost use Rattle.ast.specs.declared.Primitive.TheVariants.{Net, Net6, EtherHost, EtherMulticast, IpBroadcast, IpMulticast, Ip6Multicast};
ghost use Rattle.ast.specs.declared.Node.TheVariants.{AndNode, OrNode, NotNode};
ghost use Rattle.ast.specs.Record.{node_at};
ghost use Rattle.bpf.specs.Bytes.{AreBytes};
ghost use Rattle.direct.specs.Reading as R;
ghost use Rattle.direct.specs.Direct.{direct};
ghost use Rattle.reader.specs.Reader.{place, Here};
ghost use Rattle.evaluate.specs.Promise.{ranged, over_ipv4, over_ipv6, Says};

use ast::{Dir, LinkType, Node, Primitive, Proto};
use error::Refusal;

// The ethertypes of IPv4 and IPv6.
const IPV4: u16 = 0x0800;

const IPV6: u16 = 0x86dd;

// Of a test of the source and one of the destination.
fn sides(d: Dir, source: bool, destination: bool) -> bool
    ensures { result ≡ R.sides d source destination }
{
    match d {
        Dir::SrcOrDst => source || destination,
        Dir::Src => source,
        Dir::Dst => destination,
        Dir::SrcAndDst => source && destination,
    }
}

// The frame's protocol q is in the set that a port condition names.
fn in_set(protocol: Option<Proto>, q: u8) -> bool
    ensures { result ≡ R.port_set protocol q }
{
    match protocol {
        None => q == 6 || q == 17,
        Some(Proto::Tcp) => q == 6,
        Some(Proto::Udp) => q == 17,
        Some(Proto::Sctp) => q == 132,
        Some(_) => false,
    }
}

// A condition on ports: "Range: low ≤ port ≤ high."
#[derive(Clone, Copy)]
struct Ports {
    dir: Dir,
    protocol: Option<Proto>,
    low: u16,
    high: u16,
}

impl Ports {
    fn within(self, v: u16) -> bool
        ensures { result ≡ ranged self.low self.high v }
    {
        self.low <= v && v <= self.high
    }
}

// What the tree at a record says of the frame, and the record after the tree.
#[derive(Clone, Copy)]
struct Read {
    value: bool,
    next: usize,
}

// A frame and the link whose framing it has.
#[derive(Clone, Copy)]
struct Packet<'a> {
    link: LinkType,
    frame: &'a [u8],
    ghost bytes: { AreBytes frame.now },
}

impl<'a> Packet<'a> {
    // ---- the frame's numbers; bytes past the end zero

    #[tactic(auto, using(bpf::proofs::Bytes::be_first))]
    fn byte(self, at: usize) -> u8
        ensures { result ≡ R.b self.entry.frame.now at }
    {
        self.frame.get(at).copied().unwrap_or(0)
    }

    #[tactic(auto, using(bpf::proofs::Bytes::be_half, bpf::proofs::Bytes::be_first))]
    fn half(self, at: usize) -> u16
        requires { at < 65536 }
        ensures { result ≡ R.h self.entry.frame.now at }
    {
        u16::from_be_bytes([self.byte(at), self.byte(at + 1)])
    }

    #[tactic(auto, using(bpf::proofs::Bytes::be_word, bpf::proofs::Bytes::be_first))]
    fn word(self, at: usize) -> u32
        requires { at < 65536 }
        ensures { result ≡ R.w self.entry.frame.now at }
    {
        u32::from_be_bytes([
            self.byte(at),
            self.byte(at + 1),
            self.byte(at + 2),
            self.byte(at + 3),
        ])
    }

    // Where the network header starts.
    fn network_start(self) -> usize
        ensures start { result ≡ R.network_start self.entry.link }
        ensures small { result ≤ 16 }
    {
        match self.link {
            LinkType::Ethernet => 14,
            LinkType::RawIp => 0,
            LinkType::LinuxSll => 16,
        }
    }

    // ---- kinds and protocols

    // The ethertype is v. RawIp has none: there it is IPv4.
    #[tactic(auto, unfolding(direct::specs::Reading::kind))]
    fn kind(self, v: u16) -> bool
        ensures { result ≡ R.kind self.entry.link self.entry.frame.now v }
    {
        match self.link {
            LinkType::Ethernet => self.half(12) == v,
            LinkType::RawIp => v == IPV4,
            LinkType::LinuxSll => self.half(14) == v,
        }
    }

    // The ethertype is this, and the byte at a place behind the network header's start is p. Here and below places are under 60,000, so that
    // sums of them fit: each function has its own.
    fn carries(self, ethertype: u16, at: usize, p: u8) -> bool
        requires { at < 60000 }
        ensures { result ≡ (R.kind self.entry.link self.entry.frame.now ethertype && eqb (R.b self.entry.frame.now (R.network_start self.entry.link + at)) p) }
    {
        self.kind(ethertype) && self.byte(self.network_start() + at) == p
    }

    #[tactic(auto, unfolding(direct::specs::Reading::ipv4))]
    fn ipv4(self, p: u8) -> bool
        ensures { result ≡ R.ipv4 self.entry.link self.entry.frame.now p }
    {
        self.carries(IPV4, 9, p)
    }

    #[tactic(auto, unfolding(direct::specs::Reading::ipv6))]
    fn ipv6(self, p: u8) -> bool
        ensures { result ≡ R.ipv6 self.entry.link self.entry.frame.now p }
    {
        self.carries(IPV6, 6, p)
    }

    #[tactic(auto, unfolding(direct::specs::Reading::reads_proto))]
    fn protocol(self, protocol: Proto) -> bool
        ensures { result ≡ R.reads_proto self.entry.link self.entry.frame.now protocol }
    {
        match protocol {
            Proto::Ip => self.kind(IPV4),
            Proto::Ip6 => self.kind(IPV6),
            Proto::Arp => self.kind(0x0806),
            Proto::Rarp => self.kind(0x8035),
            Proto::Tcp => self.ipv4(6),
            Proto::Udp => self.ipv4(17),
            Proto::Icmp => self.ipv4(1),
            Proto::Icmp6 => self.ipv6(58),
            Proto::Igmp => self.ipv4(2),
            Proto::Sctp => self.ipv4(132),
            Proto::Num(p) => self.ipv4(p),
            Proto::Ip6Proto(p) => self.ipv6(p),
        }
    }

    // ---- hosts and nets

    // An IPv4 net: source and destination under its mask. A host is one under the whole mask.
    // Inlined, so that a host is compared without its mask.
    #[inline(always)]
    #[tactic(auto, unfolding(direct::specs::Reading::reads_primitive))]
    fn net4(self, d: Dir, a: u32, mask: u32) -> bool
        ensures { result ≡ R.reads_primitive self.entry.link self.entry.frame.now (Net d a mask) }
    {
        if !self.kind(IPV4) {
            return false;
        }
        let n = self.network_start();
        let source = self.word(n + 12) & mask == a & mask;
        let destination = self.word(n + 16) & mask == a & mask;
        sides(d, source, destination)
    }

    // The frame's segments from `at` on agree with these in the first `prefix` bits.
    #[tactic(auto, using(crate::proofs::Segments::segments_start, crate::proofs::Segments::segments_on, crate::proofs::Segments::segments_end))]
    fn segments_agree(self, prefix: usize, at: usize, segs: [u16; 8]) -> bool
        requires { at < 60000 }
        ensures { result ≡ R.segments_agree self.entry.frame.now prefix at segs }
    {
        for (i, segment) in segs.iter().enumerate() {
            // How many low bits of this segment the prefix leaves free.
            let free = 16usize.saturating_sub(prefix.saturating_sub(16 * i));
            if u32::from(self.half(at + 2 * i)) >> free != u32::from(*segment) >> free {
                return false;
            }
        }
        true
    }

    // An IPv6 net; a host is one with the prefix 128.
    #[tactic(auto, unfolding(direct::specs::Reading::reads_primitive))]
    fn net6(self, d: Dir, prefix: usize, segs: [u16; 8]) -> bool
        ensures { result ≡ R.reads_primitive self.entry.link self.entry.frame.now (Net6 d prefix segs) }
    {
        if !self.kind(IPV6) {
            return false;
        }
        let n = self.network_start();
        let source = self.segments_agree(prefix, n + 8, segs);
        let destination = self.segments_agree(prefix, n + 24, segs);
        sides(d, source, destination)
    }

    // ---- ports

    // The source port at a place, and the destination port behind it.
    fn ports(self, at: usize, p: Ports) -> bool
        requires { at < 60000 }
        ensures { result ≡ R.sides p.dir (ranged p.low p.high (R.h self.entry.frame.now at)) (ranged p.low p.high (R.h self.entry.frame.now (at + 2))) }
    {
        sides(p.dir, p.within(self.half(at)), p.within(self.half(at + 2)))
    }

    // Over IPv4: not in a later fragment, and behind a header of 4 times its length field.
    #[tactic(auto, using(std::proofs::lemmas::Bool::Decides::nat_tests), unfolding(crate::specs::Promise::over_ipv4))]
    fn port4(self, p: Ports) -> bool
        ensures { result ≡ over_ipv4 self.entry.link self.entry.frame.now p }
    {
        let n = self.network_start();
        if !self.kind(IPV4)
            || !in_set(p.protocol, self.byte(n + 9))
            || self.half(n + 6) % 8192 != 0
        {
            return false;
        }
        self.ports(n + 4 * (usize::from(self.byte(n)) % 16), p)
    }

    // Over IPv6, behind its 40 bytes. Fragments are not looked at, so it is apart from `port4`.
    #[tactic(auto, using(std::proofs::lemmas::Bool::Decides::nat_tests), unfolding(crate::specs::Promise::over_ipv6))]
    fn port6(self, p: Ports) -> bool
        ensures { result ≡ over_ipv6 self.entry.link self.entry.frame.now p }
    {
        let n = self.network_start();
        if !self.kind(IPV6) || !in_set(p.protocol, self.byte(n + 6)) {
            return false;
        }
        self.ports(n + 40, p)
    }

    #[tactic(auto, unfolding(direct::specs::Reading::transport, crate::specs::Promise::over_ipv4, crate::specs::Promise::over_ipv6))]
    fn port_range(self, p: Ports) -> bool
        ensures { result ≡ R.transport self.entry.link self.entry.frame.now (R.port_set p.protocol) (R.port_test self.entry.link self.entry.frame.now p.dir (ranged p.low p.high)) }
    {
        self.port4(p) || self.port6(p)
    }

    // ---- the link's addresses

    #[tactic(auto, using(crate::proofs::Segments::bytes_on, crate::proofs::Segments::bytes_end))]
    fn bytes_are(self, at: usize, address: [u8; 6]) -> bool
        requires { at < 60000 }
        ensures { result ≡ R.bytes_are self.entry.frame.now at address }
    {
        for (i, b) in address.iter().enumerate() {
            if self.byte(at + i) != *b {
                return false;
            }
        }
        true
    }

    // The source's address, or the sender's in a cooked capture, whose length has to be 6.
    fn from_station(self, address: [u8; 6]) -> bool
        ensures { result ≡ R.from_station self.entry.link self.entry.frame.now address }
    {
        match self.link {
            LinkType::Ethernet | LinkType::RawIp => self.bytes_are(6, address),
            LinkType::LinuxSll => self.half(4) == 6 && self.bytes_are(6, address),
        }
    }

    // A cooked capture has no destination address.
    fn to_station(self, address: [u8; 6]) -> bool
        ensures { result ≡ R.to_station self.entry.link self.entry.frame.now address }
    {
        match self.link {
            LinkType::Ethernet | LinkType::RawIp => self.bytes_are(0, address),
            LinkType::LinuxSll => false,
        }
    }

    #[tactic(auto, unfolding(direct::specs::Reading::reads_primitive))]
    fn ether_host(self, d: Dir, address: [u8; 6]) -> bool
        ensures { result ≡ R.reads_primitive self.entry.link self.entry.frame.now (EtherHost d address) }
    {
        sides(d, self.from_station(address), self.to_station(address))
    }

    // The first byte is odd. A cooked capture has no destination address.
    #[tactic(auto, unfolding(direct::specs::Reading::reads_primitive))]
    fn ether_multicast(self) -> bool
        ensures { result ≡ R.reads_primitive self.entry.link self.entry.frame.now EtherMulticast }
    {
        match self.link {
            LinkType::Ethernet | LinkType::RawIp => self.byte(0) % 2 == 1,
            LinkType::LinuxSll => false,
        }
    }

    // ---- destinations of many

    #[tactic(auto, unfolding(direct::specs::Reading::reads_primitive))]
    fn ip_broadcast(self) -> bool
        ensures { result ≡ R.reads_primitive self.entry.link self.entry.frame.now IpBroadcast }
    {
        self.kind(IPV4) && self.word(self.network_start() + 16) == 0xffff_ffff
    }

    // The top bits are 1110.
    #[tactic(auto, unfolding(direct::specs::Reading::reads_primitive))]
    fn ip_multicast(self) -> bool
        ensures { result ≡ R.reads_primitive self.entry.link self.entry.frame.now IpMulticast }
    {
        self.kind(IPV4) && self.word(self.network_start() + 16) >> 28 == 0b1110
    }

    #[tactic(auto, unfolding(direct::specs::Reading::reads_primitive))]
    fn ip6_multicast(self) -> bool
        ensures { result ≡ R.reads_primitive self.entry.link self.entry.frame.now Ip6Multicast }
    {
        self.carries(IPV6, 24, 0xff)
    }

    // ---- the tree

    #[tactic(auto, using(crate::proofs::Conditions::port_reads, crate::proofs::Conditions::host_reads), unfolding(direct::specs::Reading::reads_primitive))]
    fn eval_primitive(self, p: Primitive) -> bool
        ensures { result ≡ R.reads_primitive self.entry.link self.entry.frame.now p }
    {
        match p {
            Primitive::Protocol(protocol) => self.protocol(protocol),
            Primitive::Host4(d, a) => self.net4(d, a, u32::MAX),
            Primitive::Host6(d, segs) => self.net6(d, 128, segs),
            Primitive::Net(d, a, mask) => self.net4(d, a, mask),
            Primitive::Net6(d, prefix, segs) => self.net6(d, usize::from(prefix), segs),
            Primitive::Port(dir, protocol, k) => self.port_range(Ports {
                dir,
                protocol,
                low: k,
                high: k,
            }),
            Primitive::PortRange(dir, protocol, low, high) => self.port_range(Ports {
                dir,
                protocol,
                low,
                high,
            }),
            Primitive::EtherHost(d, address) => self.ether_host(d, address),
            Primitive::EtherProto(v) => self.kind(v),
            Primitive::EtherMulticast => self.ether_multicast(),
            Primitive::IpBroadcast => self.ip_broadcast(),
            Primitive::IpMulticast => self.ip_multicast(),
            Primitive::Ip6Multicast => self.ip6_multicast(),
            Primitive::IpProtoChain(p) => self.ipv4(p),
            Primitive::Ip6ProtoChain(p) => self.ipv6(p),
        }
    }

    // Each join reads its parts by `eval_node`, which reads each join by its function, at fewer records left.
    // Document 01 has a function for each join. The record is a clause of four: it is another at each call.
    #[cycle(nodes)]
    #[tactic(auto, using(reader::proofs::Here::here_and), unfolding(direct::specs::Reading::reads))]
    fn eval_and(self, tree: &[u8], i: usize) -> Read
        requires { Here tree.now i × (node_at (place i) tree.now ≡ Ok AndNode) }
        ensures { Says self.entry.link self.entry.frame.now tree.now i result }
    {
        let left = self.eval_node(tree, i + 1);
        let right = self.eval_node(tree, left.next);
        Read {
            value: left.value && right.value,
            next: right.next,
        }
    }

    #[cycle(nodes)]
    #[tactic(auto, using(reader::proofs::Here::here_or), unfolding(direct::specs::Reading::reads))]
    fn eval_or(self, tree: &[u8], i: usize) -> Read
        requires { Here tree.now i × (node_at (place i) tree.now ≡ Ok OrNode) }
        ensures { Says self.entry.link self.entry.frame.now tree.now i result }
    {
        let left = self.eval_node(tree, i + 1);
        let right = self.eval_node(tree, left.next);
        Read {
            value: left.value || right.value,
            next: right.next,
        }
    }

    #[cycle(nodes)]
    #[tactic(auto, using(reader::proofs::Here::here_not), unfolding(direct::specs::Reading::reads))]
    fn eval_not(self, tree: &[u8], i: usize) -> Read
        requires { Here tree.now i × (node_at (place i) tree.now ≡ Ok NotNode) }
        ensures { Says self.entry.link self.entry.frame.now tree.now i result }
    {
        let part = self.eval_node(tree, i + 1);
        Read {
            value: !part.value,
            next: part.next,
        }
    }

    // The tree at record i.
    #[cycle(nodes)]
    #[tactic(auto, using(reader::proofs::Here::here_leaf), unfolding(direct::specs::Reading::reads))]
    fn eval_node(self, tree: &[u8], i: usize) -> Read
        requires { Here tree.now i }
        ensures { Says self.entry.link self.entry.frame.now tree.now i result }
    {
        match reader::node(tree, i) {
            Node::AndNode => self.eval_and(tree, i),
            Node::OrNode => self.eval_or(tree, i),
            Node::NotNode => self.eval_not(tree, i),
            Node::LeafNode(p) => Read {
                value: self.eval_primitive(p),
                next: i + 1,
            },
        }
    }
}

// Refusals 1 to 4 of the file, then 10 of the frame, or what the whole tree says of the frame.
#[tactic(auto, using(reader::proofs::Checks::check_link, reader::proofs::Checks::check_refused), unfolding(direct::specs::Direct::direct))]
pub fn direct_reading(tree: &[u8], frame: &[u8]) -> Result<bool, Refusal>
    ensures { result ≡ direct tree.now frame.now }
{
    let link = reader::check(tree)?;
    if 65535 < frame.len() {
        return Err(Refusal::LongFrame);
    }
    let packet = Packet { link, frame };
    Ok(packet.eval_node(tree, 0).value)
}

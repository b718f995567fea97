// The commissioning sheet, executed: each of its sentences with `ok`, or with what differs.
#![tactic(auto)]

ghost use Rattle.std.specs.Prelude.{◌≡◌, ◌+◌, ◌≤◌, length};

use std::alloc::Global;
use std::io;
use std::io::{BufWriter, Write};

// ---- tree files

// The sheet stands on `pft` alone, as a C program does, so the numbers of a file are its own.
#[derive(Clone, Copy)]
enum Link {
    Ethernet = 1,
    RawIp = 2,
}

#[derive(Clone, Copy)]
enum Kind {
    And = 1,
    Or = 2,
    Protocol = 10,
    Host6 = 12,
    Net6 = 14,
    Port = 15,
    EtherMulticast = 19,
}

#[derive(Clone, Copy)]
enum Direction {
    Either = 0,
    Source = 1,
    Destination = 2,
    Both = 3,
}

#[derive(Clone, Copy)]
enum Protocol {
    None = 0,
    Ip = 1,
    Ip6 = 2,
    Tcp = 5,
    Udp = 6,
    Icmp = 7,
    Icmp6 = 8,
}

// What the sheet's records hold; low is A's low byte. All else is zero.
#[derive(Clone, Copy)]
struct Record {
    kind: Kind,
    direction: Direction,
    protocol: Protocol,
    low: u8,
}

fn plain(kind: Kind) -> Record {
    Record {
        kind,
        direction: Direction::Either,
        protocol: Protocol::None,
        low: 0,
    }
}

fn of_protocol(protocol: Protocol) -> Record {
    Record {
        protocol,
        ..plain(Kind::Protocol)
    }
}

fn port(direction: Direction, protocol: Protocol, low: u8) -> Record {
    Record {
        kind: Kind::Port,
        direction,
        protocol,
        low,
    }
}

fn host6(direction: Direction) -> Record {
    Record {
        direction,
        ..plain(Kind::Host6)
    }
}

// The bound is for the count's byte: the functions that call this hand it on, with the link and the records that a line of the sheet has.
fn tree_file(alloc: Global, link: Link, records: &[Record]) -> io::Result<Vec<u8>>
    requires { length records.now ≤ 128 }
{
    let head = [b'P', b'F', b'T', 0, 1, link as u8, 0, records.len() as u8];
    let mut file = Vec::from_slice(alloc, &head)?;
    for r in records {
        let mut record = [0u8; 24];
        record[0] = r.kind as u8;
        record[1] = r.direction as u8;
        record[2] = r.protocol as u8;
        record[5] = r.low;
        file.extend_from_slice(&record)?;
    }
    Ok(file)
}

// Seven ether multicasts, an IPv6 source host, six IPv6 hosts in both and a last one, joined by and from the left: 14 joins, 15 conditions.
fn far(last: Direction) -> [Record; 29] {
    let mut records = [plain(Kind::And); 29];
    records[14..21].fill(plain(Kind::EtherMulticast));
    records[21] = host6(Direction::Source);
    records[22..28].fill(host6(Direction::Both));
    records[28] = host6(last);
    records
}

// ---- answers

#[derive(Clone, Copy)]
enum Verdict {
    Accepted = 1,
    Short = 3,
}

#[derive(Clone, Copy)]
enum Refusal {
    KindOnRaw = 5,
    PortProtocol = 6,
    EtherOnRaw = 7,
    FarJump = 8,
}

// The numbers of an instruction, as wide as those that they are compared with.
#[derive(Clone, Copy)]
struct Insn {
    code: u32,
    jt: u32,
    jf: u32,
    k: u32,
}

// What a build answers and leaves. The answer is the count, or the refusal's number times 65,536.
#[derive(Drop)]
struct Built {
    answer: u32,
    program: Vec<u8>,
}

impl Built {
    // An instruction, or zeros behind the program.
    fn insn(&self, i: usize) -> Insn {
        match self.program.chunks_exact(8).nth(i) {
            Some(&[c0, c1, jt, jf, k0, k1, k2, k3]) => Insn {
                code: u32::from(u16::from_le_bytes([c0, c1])),
                jt: u32::from(jt),
                jf: u32::from(jf),
                k: u32::from_le_bytes([k0, k1, k2, k3]),
            },
            _ => Insn {
                code: 0,
                jt: 0,
                jf: 0,
                k: 0,
            },
        }
    }

    // The answer of the run of so many instructions: the verdict's number times 65,536, and the steps.
    fn ran(&self, count: u16, frame: &[u8]) -> u32 {
        let end = 8 * usize::from(count);
        pft::pft_run(self.program.get(..end).unwrap_or(&[]), frame)
    }
}

// ---- the sheet

// How many of its lines were executed, how many differ, and whether the present one is as it is wanted so far.
#[derive(Drop)]
struct Sheet<W> {
    alloc: Global,
    out: W,
    lines: u32,
    differing: u32,
    is_good: bool,
}

impl<W: Write> Sheet<W> {
    // Begins a line, with what a tree's build gives.
    fn line(&mut self, sentence: &str, link: Link, records: &[Record]) -> io::Result<Built>
        requires { length records.now ≤ 128 }
        ensures lines { self.new.lines ≡ self.old.lines }
        ensures differing { self.new.differing ≡ self.old.differing }
    {
        write!(self.out, "{sentence}: ")?;
        self.is_good = true;
        let file = tree_file(self.alloc, link, records)?;
        let mut program = vec![in self.alloc; 0; 32768]?;
        let answer = pft::pft_build(&file, &mut program);
        Ok(Built { answer, program })
    }

    // Ends a line, which differs at most once.
    fn end(&mut self) -> io::Result<()>
        ensures lines { self.new.lines ≤ self.old.lines + 1 }
        ensures differing { self.new.differing ≤ self.old.differing + 1 }
    {
        self.lines = self.lines.saturating_add(1);
        if self.is_good {
            return write!(self.out, "ok\n");
        }
        self.differing = self.differing.saturating_add(1);
        write!(self.out, "DIFFERS\n")
    }

    // Where a number is not the one that is wanted, it is named.
    fn same(&mut self, what: &str, here: u32, wanted: u32) -> io::Result<()>
        ensures lines { self.new.lines ≡ self.old.lines }
        ensures differing { self.new.differing ≡ self.old.differing }
    {
        if here == wanted {
            return Ok(());
        }
        self.is_good = false;
        write!(self.out, "{what} is {here}, not {wanted}; ")
    }

    // The same for the answer of a build: a count, or a refusal.
    fn count_is(&mut self, built: &Built, count: u32) -> io::Result<()>
        ensures lines { self.new.lines ≡ self.old.lines }
        ensures differing { self.new.differing ≡ self.old.differing }
    {
        self.same("the refusal", built.answer / 65536, 0)?;
        self.same("the count", built.answer % 65536, count)
    }

    // And of a run: the verdict's number and the steps.
    fn run_is(&mut self, ran: u32, verdict: Verdict, steps: u32) -> io::Result<()>
        ensures lines { self.new.lines ≡ self.old.lines }
        ensures differing { self.new.differing ≡ self.old.differing }
    {
        self.same("the verdict", ran / 65536, verdict as u32)?;
        self.same("the steps", ran % 65536, steps)
    }

    // And of an instruction: its code and k, jt, jf.
    fn insn_is(&mut self, built: &Built, i: usize, code: u32, k: u32) -> io::Result<()>
        ensures lines { self.new.lines ≡ self.old.lines }
        ensures differing { self.new.differing ≡ self.old.differing }
    {
        let insn = built.insn(i);
        self.same("a code", insn.code, code)?;
        self.same("a k", insn.k, k)
    }

    // A line whose tree is refused.
    fn refused(
        &mut self,
        sentence: &str,
        link: Link,
        records: &[Record],
        refusal: Refusal,
    ) -> io::Result<()>
        requires { length records.now ≤ 128 }
        ensures lines { self.new.lines ≤ self.old.lines + 1 }
        ensures differing { self.new.differing ≤ self.old.differing + 1 }
    {
        let built = self.line(sentence, link, records)?;
        self.same("the refusal", built.answer / 65536, refusal as u32)?;
        self.end()
    }

    // ---- its lines

    fn ip(&mut self) -> io::Result<()>
        ensures lines { self.new.lines ≤ self.old.lines + 2 }
        ensures differing { self.new.differing ≤ self.old.differing + 2 }
    {
        let ip = [of_protocol(Protocol::Ip)];
        let built = self.line("RawIp, Ip: two returns", Link::RawIp, &ip)?;
        self.count_is(&built, 2)?;
        self.insn_is(&built, 0, 6, 4294967295)?;
        self.insn_is(&built, 1, 6, 0)?;
        self.end()?;
        let sentence = "Ethernet, Ip: jf 1 at index 1, four instructions";
        let built = self.line(sentence, Link::Ethernet, &ip)?;
        self.count_is(&built, 4)?;
        self.same("a jf", built.insn(1).jf, 1)?;
        self.end()
    }

    // The same program over frames.
    fn ip_on(
        &mut self,
        sentence: &str,
        frame: &[u8],
        verdict: Verdict,
        steps: u32,
    ) -> io::Result<()>
        ensures lines { self.new.lines ≤ self.old.lines + 1 }
        ensures differing { self.new.differing ≤ self.old.differing + 1 }
    {
        let built = self.line(sentence, Link::Ethernet, &[of_protocol(Protocol::Ip)])?;
        self.count_is(&built, 4)?;
        self.run_is(built.ran(4, frame), verdict, steps)?;
        self.end()
    }

    fn ip_on_frames(&mut self) -> io::Result<()>
        ensures lines { self.new.lines ≤ self.old.lines + 2 }
        ensures differing { self.new.differing ≤ self.old.differing + 2 }
    {
        let sentence = "Ethernet, Ip, on 13 bytes: short after 1 step";
        self.ip_on(sentence, &[0; 13], Verdict::Short, 1)?;
        let sentence = "Ethernet, Ip, on 14 bytes ending 08 00: accepted after 3";
        let frame = [0, 0, 0, 0, 0, 0, 0, 0, 0, 0, 0, 0, 8, 0];
        self.ip_on(sentence, &frame, Verdict::Accepted, 3)
    }

    fn tcp_or_udp(&mut self) -> io::Result<()>
        ensures lines { self.new.lines ≤ self.old.lines + 1 }
        ensures differing { self.new.differing ≤ self.old.differing + 1 }
    {
        let sentence = "Tcp or Udp: nine; jf 6, 1, 1 at 1, 3, 6; ja 2 at 4";
        let records = [
            plain(Kind::Or),
            of_protocol(Protocol::Tcp),
            of_protocol(Protocol::Udp),
        ];
        let built = self.line(sentence, Link::Ethernet, &records)?;
        self.count_is(&built, 9)?;
        self.same("a jf", built.insn(1).jf, 6)?;
        self.same("a jf", built.insn(3).jf, 1)?;
        self.same("a jf", built.insn(6).jf, 1)?;
        self.insn_is(&built, 4, 5, 2)?;
        self.end()
    }

    fn web(&mut self) -> io::Result<()>
        ensures lines { self.new.lines ≤ self.old.lines + 1 }
        ensures differing { self.new.differing ≤ self.old.differing + 1 }
    {
        let sentence = "Tcp and Tcp destination port 80: eleven; jf 8, 6, 1 at 1, 3, 8; jt 4 at 5";
        let records = [
            plain(Kind::And),
            of_protocol(Protocol::Tcp),
            port(Direction::Destination, Protocol::Tcp, 80),
        ];
        let built = self.line(sentence, Link::Ethernet, &records)?;
        self.count_is(&built, 11)?;
        self.same("a jf", built.insn(1).jf, 8)?;
        self.same("a jf", built.insn(3).jf, 6)?;
        self.same("a jf", built.insn(8).jf, 1)?;
        self.same("a jt", built.insn(5).jt, 4)?;
        self.end()
    }

    fn port_53(&mut self) -> io::Result<()>
        ensures lines { self.new.lines ≤ self.old.lines + 1 }
        ensures differing { self.new.differing ≤ self.old.differing + 1 }
    {
        let records = [port(Direction::Either, Protocol::None, 53)];
        let sentence = "Port 53, none, either: twenty; jt 8 at 1";
        let built = self.line(sentence, Link::Ethernet, &records)?;
        self.count_is(&built, 20)?;
        self.same("a jt", built.insn(1).jt, 8)?;
        self.end()
    }

    fn prefix_0(&mut self) -> io::Result<()>
        ensures lines { self.new.lines ≤ self.old.lines + 1 }
        ensures differing { self.new.differing ≤ self.old.differing + 1 }
    {
        let sentence = "IPv6 net, prefix 0, either: five";
        let built = self.line(sentence, Link::Ethernet, &[plain(Kind::Net6)])?;
        self.count_is(&built, 5)?;
        self.end()
    }

    fn refusals(&mut self) -> io::Result<()>
        ensures lines { self.new.lines ≤ self.old.lines + 4 }
        ensures differing { self.new.differing ≤ self.old.differing + 4 }
    {
        let ip6 = [of_protocol(Protocol::Ip6)];
        let icmp_port = port(Direction::Either, Protocol::Icmp, 53);
        let clash = [
            plain(Kind::Or),
            plain(Kind::And),
            icmp_port,
            of_protocol(Protocol::Icmp6),
            of_protocol(Protocol::Icmp6),
        ];
        let multicast = [plain(Kind::EtherMulticast)];
        self.refused("RawIp, Ip6: 5", Link::RawIp, &ip6, Refusal::KindOnRaw)?;
        self.refused(
            "Port with Icmp: 6",
            Link::Ethernet,
            &[icmp_port],
            Refusal::PortProtocol,
        )?;
        let sentence = "RawIp, (port with Icmp and Icmp6) or Icmp6: 5, not 6";
        self.refused(sentence, Link::RawIp, &clash, Refusal::KindOnRaw)?;
        self.refused(
            "RawIp, ether multicast: 7",
            Link::RawIp,
            &multicast,
            Refusal::EtherOnRaw,
        )
    }

    // At distance 255 the first test jumps to the last return: 258 instructions.
    fn distances(&mut self) -> io::Result<()>
        ensures lines { self.new.lines ≤ self.old.lines + 2 }
        ensures differing { self.new.differing ≤ self.old.differing + 2 }
    {
        let sentence =
            "Seven ether multicasts, an IPv6 source host, seven IPv6 hosts in both, joined by and from the left: distance 255, accepted";
        let built = self.line(sentence, Link::Ethernet, &far(Direction::Both))?;
        self.count_is(&built, 258)?;
        self.same("a jf", built.insn(1).jf, 255)?;
        self.end()?;
        let sentence = "The last host with either: 256, number 8";
        self.refused(
            sentence,
            Link::Ethernet,
            &far(Direction::Either),
            Refusal::FarJump,
        )
    }

    fn all(&mut self) -> io::Result<()> {
        self.ip()?;
        self.ip_on_frames()?;
        self.tcp_or_udp()?;
        self.web()?;
        self.port_53()?;
        self.prefix_0()?;
        self.refusals()?;
        self.distances()?;
        let lines = self.lines;
        let differing = self.differing;
        write!(self.out, "{lines} lines, {differing} differ\n")?;
        self.out.flush()
    }
}

fn main(rt: HostRuntime) -> io::Result<()> {
    let alloc = rt.alloc();
    let mut sheet = Sheet {
        alloc,
        out: BufWriter::new(alloc, io::writer(&rt))?,
        lines: 0,
        differing: 0,
        is_good: true,
    };
    sheet.all()
}

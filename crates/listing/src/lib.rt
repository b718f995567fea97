// A program's listing: document 01's, those of `tcpdump -d` and `-dd`, and the line that tc and iptables take.
#![tactic(auto)]

ghost use Rattle.std.specs.Prelude.{◌+◌, ◌≤◌, ◌≡◌, length, OnOk};

use bpf::Insn;
use std::fmt::{Display, Formatter, Write};
use std::io::Print;
use std::{fmt, io};

// How a program is listed.
// Four forms of one listing, chosen by a word of the command: an enum shows all four at each step.
#[derive(Clone, Copy, Debug, PartialEq, Eq)]
pub enum Form {
    // The count, then code, jt, jf and k of each instruction, a line each.
    Numbers,
    // An instruction in words, as libpcap's bpf_image writes it.
    Words,
    // Rows of a C array.
    Rows,
    // The count and each instruction's four numbers on one line.
    Bytecode,
}

// The listing of a program's bytes, eight for each instruction.
#[derive(Clone, Copy)]
pub struct Listing<'a> {
    pub program: &'a [u8],
    pub form: Form,
}

// ---- an instruction's line

// What is left of some columns behind a number's hexadecimal digits, of which it has one at least. The formatter fills columns one by one.
fn behind(columns: &'static str, number: u32) -> &'static str {
    let digits = (35 - number.leading_zeros().min(31)) / 4;
    columns.get(digits as usize..).unwrap_or("")
}

// Code, jt, jf and k, in decimal.
#[derive(Clone, Copy)]
struct Numbers(Insn);

impl Display for Numbers {
    fn fmt<W: Write>(&self, f: &mut Formatter<W>) -> fmt::Result {
        let Insn { code, jt, jf, k } = self.0;
        write!(f, "{code} {jt} {jf} {k}")
    }
}

// A row of a C array.
#[derive(Clone, Copy)]
struct Row(Insn);

impl Display for Row {
    fn fmt<W: Write>(&self, f: &mut Formatter<W>) -> fmt::Result {
        let Insn { code, jt, jf, k } = self.0;
        let zeros = behind("00000000", k);
        write!(f, "{{ 0x{code:x}, {jt}, {jf}, 0x{zeros}{k:x} }},")
    }
}

// An instruction in words, behind its number.
#[derive(Clone, Copy)]
struct Words {
    index: u64,
    insn: Insn,
}

// The words of the codes that the generator emits, in nine columns.
// A code is any 16-bit number: one that has no word is listed too, so the codes are no enum.
fn word(code: u16) -> &'static str {
    match code {
        0x20 => "ld       ",
        0x28 | 0x48 => "ldh      ",
        0x30 => "ldb      ",
        0xb1 => "ldxb     ",
        0x01 => "ldx      ",
        0x54 => "and      ",
        0x15 => "jeq      ",
        0x25 => "jgt      ",
        0x35 => "jge      ",
        0x45 => "jset     ",
        0x05 => "ja       ",
        0x06 => "ret      ",
        _ => "unimp    ",
    }
}

impl Words {
    // Whether the instruction is a jump with a test.
    fn is_test(&self) -> bool {
        let code = self.insn.code;
        code % 8 == 5 && code / 16 % 16 != 0
    }

    // The number of an instruction that lies so many behind the next.
    fn target(&self, distance: u32) -> u64 {
        self.index
            .saturating_add(1)
            .saturating_add(u64::from(distance))
    }

    // The number k by the code; a code without a word shows itself. C prints k with %d where it is no mask and no jump.
    fn put_operand<W: Write>(&self, f: &mut Formatter<W>) -> fmt::Result {
        let Insn { code, k, .. } = self.insn;
        let signed = k.cast_signed();
        match code {
            0x20 | 0x28 | 0x30 => write!(f, "[{signed}]"),
            0x48 => write!(f, "[x + {signed}]"),
            0xb1 => write!(f, "4*([{signed}]&0xf)"),
            0x01 | 0x54 => write!(f, "#{k:#x}"),
            0x05 => write!(f, "{}", self.target(k)),
            0x06 => write!(f, "#{signed}"),
            _ => write!(f, "{code:#x}"),
        }
    }

    // The operand of a test in 16 columns or more, and where it leads.
    fn put_test<W: Write>(&self, f: &mut Formatter<W>) -> fmt::Result {
        let Insn { code, jt, jf, k } = self.insn;
        match code {
            0x15 | 0x25 | 0x35 | 0x45 => {
                let columns = behind("             ", k);
                write!(f, "#{k:#x}{columns}")?;
            }
            _ => write!(f, "{code:<#16x}")?,
        }
        let jt = self.target(u32::from(jt));
        let jf = self.target(u32::from(jf));
        write!(f, " jt {jt}\tjf {jf}")
    }
}

impl Display for Words {
    fn fmt<W: Write>(&self, f: &mut Formatter<W>) -> fmt::Result {
        let index = self.index;
        let word = word(self.insn.code);
        let zeros = match index {
            0..=9 => "00",
            10..=99 => "0",
            _ => "",
        };
        write!(f, "({zeros}{index}) {word}")?;
        if self.is_test() {
            self.put_test(f)
        } else {
            self.put_operand(f)
        }
    }
}

// ---- pages

// What is printed is gathered here and written when little room is left.
#[derive(Drop)]
struct Page {
    bytes: [u8; 4096],
    length: usize,
}

// Up to here the page has room for a line, which takes at most 128 bytes.
const ROOMY: usize = 3968;

impl Page {
    fn new() -> Page
        ensures { result.length ≡ 0 }
    {
        Page {
            bytes: [0; 4096],
            length: 0,
        }
    }

    fn flush<P: Print>(&mut self, to: &P) -> io::Result<()>
        ensures { OnOk result (self.new.length ≡ 0) }
    {
        let all = &self.bytes[..];
        to.write_all(all.get(..self.length).unwrap_or(all))?;
        self.length = 0;
        Ok(())
    }

    // Writes what is gathered where a line behind it may have no room.
    fn make_room<P: Print>(&mut self, to: &P) -> io::Result<()>
        ensures { OnOk result (self.new.length + 128 ≤ 4096) }
    {
        if self.length > ROOMY {
            return self.flush(to);
        }
        Ok(())
    }
}

impl Write for Page {
    fn write_str(&mut self, s: &str) -> fmt::Result {
        let text = s.as_bytes();
        let length = self.length;
        if length > 4096 || text.len() > 4096 - length {
            return Err(fmt::Error);
        }
        let end = length + text.len();
        self.bytes[length..end].copy_from_slice(text);
        self.length = end;
        Ok(())
    }
}

// ---- the lines

impl Listing<'_> {
    // What stands before the instructions.
    fn put_count<W: Write>(&self, f: &mut Formatter<W>) -> fmt::Result {
        let count = self.program.len() / 8;
        match self.form {
            Form::Numbers => write!(f, "{count}\n"),
            Form::Bytecode => write!(f, "{count}"),
            Form::Words | Form::Rows => Ok(()),
        }
    }

    fn put_insn<W: Write>(&self, f: &mut Formatter<W>, index: u64, insn: Insn) -> fmt::Result {
        match self.form {
            Form::Numbers => write!(f, "{}\n", Numbers(insn)),
            Form::Words => write!(f, "{}\n", Words { index, insn }),
            Form::Rows => write!(f, "{}\n", Row(insn)),
            Form::Bytecode => write!(f, ",{}", Numbers(insn)),
        }
    }

    // What stands behind them.
    fn put_end<W: Write>(&self, f: &mut Formatter<W>) -> fmt::Result {
        match self.form {
            Form::Bytecode => write!(f, "\n"),
            Form::Numbers | Form::Words | Form::Rows => Ok(()),
        }
    }

    // Gathers an instruction's line.
    fn gather(&self, page: &mut Page, index: u64, insn: Insn) -> fmt::Result
        requires { page.old.length + 128 ≤ 4096 }
    {
        self.put_insn(&mut Formatter::new(page), index, insn)
    }

    // Prints the listing in pages of whole lines: a short one is written at once, so that a reader has all of it or nothing.
    pub fn print_to<P: Print>(&self, to: &P) -> io::Result<()> {
        let mut page = Page::new();
        self.put_count(&mut Formatter::new(&mut page))?;
        let insns = self.program.chunks_exact(8);
        for (index, bytes) in insns.enumerate() {
            page.make_room(to)?;
            self.gather(&mut page, index as u64, bpf::insn_at(bytes, 0))?;
        }
        page.make_room(to)?;
        self.put_end(&mut Formatter::new(&mut page))?;
        page.flush(to)
    }
}

impl Display for Listing<'_> {
    fn fmt<W: Write>(&self, f: &mut Formatter<W>) -> fmt::Result {
        self.put_count(f)?;
        for (index, bytes) in self.program.chunks_exact(8).enumerate() {
            self.put_insn(f, index as u64, bpf::insn_at(bytes, 0))?;
        }
        self.put_end(f)
    }
}

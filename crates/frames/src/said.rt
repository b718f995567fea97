// What is said in words: names, refusals, verdicts, links and errors.
use ast::LinkType;
use error::Refusal;
use std::fmt::{Display, Formatter, Write};
use std::io::{Error, ErrorKind, Print};
use std::{fmt, io};
use vm::Verdict;

// What a line is said of.
#[derive(Clone, Copy)]
pub enum Name<'a> {
    // `-` is standard input.
    File(&'a [u8]),
    // A typed line, which goes by what is shown of it.
    Line(&'a [u8]),
    // An argument that no path can be.
    Argument(usize),
}

impl Name<'_> {
    fn put<P: Print>(&self, to: &P) -> io::Result<()> {
        match self {
            Name::File(path) => {
                if *path == b"-".as_slice() {
                    return print!(to; "standard input");
                }
                to.write_all(path)
            }
            Name::Line(line) => print!(to; "{}", hints::show(line, 0)),
            Name::Argument(number) => print!(to; "argument {number}"),
        }
    }

    // A line on what has the name.
    pub fn put_line<P: Print, D: Display + Drop>(&self, to: &P, said: D) -> io::Result<()> {
        self.put(to)?;
        print!(to; ": {said}\n")
    }
}

// ---- refusals

// The words of document 01's table and of the requests.
fn refusal_words(r: Refusal) -> &'static str {
    match r {
        Refusal::StrangeFile => "strange file",
        Refusal::WrongCount => "wrong count",
        Refusal::BadRecord => "bad record",
        Refusal::NotOneTree => "not one tree",
        Refusal::KindOnRaw => "kind on raw",
        Refusal::PortProtocol => "port protocol",
        Refusal::EtherOnRaw => "ether on raw",
        Refusal::FarJump => "far jump",
        Refusal::ShortBuffer => "short buffer",
        Refusal::LongFrame => "long frame",
        Refusal::OddProgram => "odd program",
        Refusal::NoCapture => "no capture",
        Refusal::OtherLink => "other link",
        Refusal::CutFrame => "cut frame",
        Refusal::CookedAddress => "cooked address",
        Refusal::UnknownWord => "unknown word",
        Refusal::Unfinished => "unfinished",
        Refusal::TooLarge => "too large",
        Refusal::CountMoved => "count moved",
    }
}

// A refusal by number and word. It stands in a type of its own, as verdicts, links and reasons do below: the crates that have these values
// have no words, since C's archive needs none.
#[derive(Clone, Copy)]
pub struct Refused(pub Refusal);

impl Display for Refused {
    fn fmt<W: Write>(&self, f: &mut Formatter<W>) -> fmt::Result {
        let number = u32::from(self.0);
        let words = refusal_words(self.0);
        write!(f, "refused {number}, {words}")
    }
}

// ---- verdicts and links

#[derive(Clone, Copy)]
pub struct VerdictWord(pub Verdict);

impl Display for VerdictWord {
    fn fmt<W: Write>(&self, f: &mut Formatter<W>) -> fmt::Result {
        f.write_str(match self.0 {
            Verdict::Accepted => "accepted",
            Verdict::Dropped => "dropped",
            Verdict::Short => "short",
            Verdict::Broken => "broken",
        })
    }
}

// A link with its number in captures.
#[derive(Clone, Copy)]
pub struct LinkName(pub LinkType);

impl Display for LinkName {
    fn fmt<W: Write>(&self, f: &mut Formatter<W>) -> fmt::Result {
        f.write_str(match self.0 {
            LinkType::Ethernet => "Ethernet (1)",
            LinkType::RawIp => "RawIp (101)",
            LinkType::LinuxSll => "LinuxSll (113)",
        })
    }
}

// ---- errors

// Linux's number of an error that has no kind: a descriptor is not open.
const EBADF: i32 = 9;

// Linux's number of a permission that a file's mode denies: its kind is also that of EPERM, which has no words here.
const EACCES: i32 = 13;

// Why a file cannot be read or written. An error with a number is the system's: a name is invalid to it that is too long.
fn error_words(error: &Error) -> &'static str {
    let number = error.raw_os_error();
    match error.kind() {
        ErrorKind::NotFound => "no such file",
        ErrorKind::PermissionDenied if number == Some(EACCES) => "permission denied",
        ErrorKind::IsADirectory => "it is a directory",
        ErrorKind::NotADirectory => "a part of its path is not a directory",
        ErrorKind::InvalidFilename if number.is_some() => "its name is too long",
        ErrorKind::InvalidFilename => "its name is not UTF-8",
        ErrorKind::FilesystemLoop => "too many links",
        ErrorKind::FileTooLarge => "it is too long",
        ErrorKind::StorageFull => "no space is left",
        ErrorKind::BrokenPipe => "nobody reads it",
        _ if number == Some(EBADF) => "it is not open",
        _ => "the system reports an error",
    }
}

#[derive(Drop)]
pub struct Reason(pub Error);

impl Display for Reason {
    fn fmt<W: Write>(&self, f: &mut Formatter<W>) -> fmt::Result {
        f.write_str(error_words(&self.0))
    }
}

#[derive(Drop)]
pub struct Unread(pub Error);

impl Display for Unread {
    fn fmt<W: Write>(&self, f: &mut Formatter<W>) -> fmt::Result {
        write!(f, "cannot be read, {}", Reason(self.0))
    }
}

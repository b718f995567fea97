// What could stand at a place of a typed line. The typing itself is asked, so that there is no second grammar: each candidate is typed
// behind the bytes before the place, and cannot follow where it is refused as unfinished at its own place.
use arrayvec::ArrayVec;
use error::Refusal;
use std::io::{Print, Result};
use typing::Fault;

// The typing takes an array of as many bytes as the largest tree file has.
const TYPED_BYTES: usize = 3080;

// Room for the longest argument that Linux passes, 131,071 bytes, and for a candidate behind it and a space.
const ROOM: usize = 131088;

// The words in the order in which they are told.
const WORDS: [&str; 17] = [
    "ip", "ip6", "arp", "rarp", "icmp", "tcp", "udp", "sctp", "host", "port", "src", "dst", "(",
    ")", "not", "and", "or",
];

// What is told after them in several words: an example of it, and the words.
const PHRASES: [(&str, &str); 2] = [("0.0.0.0", "an address"), ("0", "a port number")];

// ---- the typing is asked

// Why a line is no tree file. Its bytes are lent, as the typing takes them, and not kept.
fn fault_of(link: u8, line: &[u8]) -> Option<Fault> {
    let mut tree = [0u8; TYPED_BYTES];
    type_line::type_line(link, line, &mut tree).err()
}

// Whether a line takes its last word, which stands at a place: it is not unfinished there.
fn takes(link: u8, line: &[u8], place: usize) -> bool {
    fault_of(link, line).is_none_or(|fault| fault.refusal != Refusal::Unfinished
        || fault.place != place)
}

// Whether a line may end as it stands.
fn may_end(link: u8, line: &[u8]) -> bool {
    fault_of(link, line).is_none_or(|fault| fault.refusal == Refusal::TooLarge)
}

// The start of a line, behind which candidates are tried: in an array, since callers lend no memory. Of a longer one as much is tried as
// there is room for.
#[derive(Drop)]
struct Start {
    link: u8,
    line: ArrayVec<u8, ROOM>,
    length: usize,
}

impl Start {
    fn new(link: u8, start: &[u8]) -> Start {
        let line = ArrayVec::new();
        let mut typed = Start {
            link,
            line,
            length: 0,
        };
        typed.put(start);
        typed.put(b" ");
        typed.length = typed.line.len();
        typed
    }

    // Puts a text behind the line, as far as there is room.
    fn put(&mut self, text: &[u8]) {
        let n = text.len().min(self.line.remaining_capacity());
        let _ = self.line.try_extend_from_slice(&text[..n]);
    }

    fn takes(&mut self, candidate: &str) -> bool {
        self.line.truncate(self.length);
        self.put(candidate.as_bytes());
        takes(self.link, self.line.as_slice(), self.length)
    }
}

// ---- what is told

// Words that are told one after the other.
#[derive(Drop)]
struct Told<'a, P> {
    to: &'a P,
    any: bool,
}

impl<P: Print> Told<'_, P> {
    // A word stands behind others or alone.
    fn put(&mut self, between: &str, word: &str) -> Result<()> {
        let to = self.to;
        if self.any {
            print!(to; "{between}")?;
        }
        self.any = true;
        print!(to; "{word}")
    }

    // The words that a line takes.
    fn put_words(&mut self, line: &mut Start) -> Result<()> {
        for word in WORDS {
            if line.takes(word) {
                self.put(" ", word)?;
            }
        }
        Ok(())
    }

    // What is told in several words stands behind a comma.
    fn put_phrase(&mut self, phrase: &str) -> Result<()> {
        self.put(", ", phrase)
    }

    fn put_phrases(&mut self, line: &mut Start) -> Result<()> {
        for (example, phrase) in PHRASES {
            if line.takes(example) {
                self.put_phrase(phrase)?;
            }
        }
        Ok(())
    }
}

// What could follow the start of a line. The link is any byte, as the typing takes it.
pub fn put_followers<P: Print>(to: &P, link: u8, start: &[u8]) -> Result<()> {
    let mut line = Start::new(link, start);
    let mut told = Told { to, any: false };
    told.put_words(&mut line)?;
    told.put_phrases(&mut line)?;
    if may_end(link, start) {
        told.put_phrase("the end")?;
    }
    Ok(())
}

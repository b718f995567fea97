// The words of a typed line, each by its bytes.
#![tactic(auto)]

ghost use Rattle.std.specs.Prelude.{◌≡◌, ◌==◌, ◌≤◌, length, position, IfNone, IfSome};
ghost use Rattle.typing.specs.Words as W;
ghost use Rattle.words.specs.Numbers.{counted, numeral_of, Few};

use typing::{Join, Name, Side, Transport, Word};

// Where the first byte that is `stop` stands.
// By a loop over places: `position` counts beside its iterator, and takes two fifths longer over a long word.
#[tactic(auto, using(crate::proofs::Scans::before_none, crate::proofs::Scans::before_more, crate::proofs::Scans::found_here, crate::proofs::Scans::found_nowhere))]
fn find(text: &[u8], stop: u8) -> Option<usize>
    ensures { result ≡ position (λ byte. byte == stop) text.now }
{
    for (place, byte) in text.iter().enumerate() {
        if *byte == stop {
            return Some(place);
        }
    }
    None
}

// How many bytes stand before the first that is `stop`, or all.
#[tactic(auto, using(crate::proofs::Scans::until_is))]
pub fn until(text: &[u8], stop: u8) -> usize
    ensures { (result ≡ length (W.up_to stop text.now)) × (result ≤ length text.now) }
{
    find(text, stop).unwrap_or(text.len())
}

// One of the words that are always written alike.
fn keyword(text: &[u8]) -> Option<Word>
    ensures { result ≡ W.keyword W.keywords text.now }
{
    match text {
        b"ip" => Some(Word::Name(Name::Ip)),
        b"ip6" => Some(Word::Name(Name::Ip6)),
        b"arp" => Some(Word::Name(Name::Arp)),
        b"rarp" => Some(Word::Name(Name::Rarp)),
        b"tcp" => Some(Word::Over(Transport::Tcp)),
        b"udp" => Some(Word::Over(Transport::Udp)),
        b"sctp" => Some(Word::Over(Transport::Sctp)),
        b"icmp" => Some(Word::Name(Name::Icmp)),
        b"host" => Some(Word::Host),
        b"port" => Some(Word::Port),
        b"src" => Some(Word::Side(Side::Src)),
        b"dst" => Some(Word::Side(Side::Dst)),
        b"(" => Some(Word::Opening),
        b")" => Some(Word::Closing),
        b"not" => Some(Word::Negate),
        b"and" => Some(Word::Join(Join::And)),
        b"or" => Some(Word::Join(Join::Or)),
        _ => None,
    }
}

// ---- numbers

// The largest byte of an address, and the largest port.
const BYTE_MOST: u32 = 255;

const PORT_MOST: u32 = 65535;

// Digits as a number up to a limit; no bytes at all are 0. A digit is widened by `as`: behind `u32::from` the goal stayed open.
#[tactic(auto, using(crate::proofs::Scans::over_most))]
fn digits(text: &[u8], most: u32) -> Option<u32>
    requires { most ≤ 65535 }
    ensures { result ≡ counted most 0 text.now }
{
    let mut value = 0;
    for byte in text {
        if !byte.is_ascii_digit() {
            return None;
        }
        value = value * 10 + (*byte - b'0') as u32;
        if value > most {
            return None;
        }
    }
    Some(value)
}

// A decimal without leading zeros.
fn decimal(text: &[u8], most: u32) -> Option<u32>
    requires { most ≤ 65535 }
    ensures { result ≡ W.decimal most text.now }
{
    match text {
        [] | [b'0', _, ..] => None,
        _ => digits(text, most),
    }
}

// The byte in front of the first dot, and what stands behind it.
// Out of line: with it inside, the loops of the whole typing have too few registers.
#[inline(never)]
fn octet(text: &[u8]) -> Option<(u8, &[u8])>
    ensures none { IfNone result (Few 1 (W.octets (W.parts text.now))) }
    ensures some { IfSome result (λ x. W.octets (W.parts text.now) ≡ W.before (Some x.0) (W.octets (W.parts x.1.now))) }
{
    let dot = find(text, b'.')?;
    let byte = decimal(&text[..dot], BYTE_MOST)?;
    Some((byte as u8, &text[dot + 1..]))
}

// Four of them, with dots between.
fn address(text: &[u8]) -> Option<u32>
    ensures { result ≡ W.four (W.octets (W.parts text.now)) }
{
    let (a, rest) = octet(text)?;
    let (b, rest) = octet(rest)?;
    let (c, rest) = octet(rest)?;
    let d = decimal(rest, BYTE_MOST)?;
    Some(u32::from_be_bytes([a, b, c, d as u8]))
}

// ---- a word

// An address or a port.
fn numeral(text: &[u8]) -> Option<Word>
    ensures { result ≡ numeral_of text.now }
{
    if let Some(number) = address(text) {
        return Some(Word::Address(number));
    }
    let port = decimal(text, PORT_MOST)?;
    Some(Word::Number(port as u16))
}

// A word by its bytes, or none.
#[tactic(auto, unfolding(typing::specs::Words::word_of))]
pub fn read_word(text: &[u8]) -> Option<Word>
    ensures { result ≡ W.word_of text.now }
{
    keyword(text).or_else(|| numeral(text))
}

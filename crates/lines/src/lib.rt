// The words of a typed line, read from the left into items: each is a record with the brackets that are open at its place.
#![tactic(auto)]

ghost use Rattle.std.specs.Prelude.{◌≡◌, ◌+◌, ◌-◌, ◌^◌, ◌<◌, length, set};
ghost use Rattle.typing.specs.Words.{line_words};
ghost use Rattle.lines.specs.Reads as R;
ghost use Rattle.lines.specs.declared.Entry.TheVariants.{Leaf};
ghost use Rattle.lines.specs.declared.Move.TheVariants.{Go, Put};

use error::Refusal;
use std::cmp::max;
use typing::{Fault, Join, Side, Term, Transport, Word};

// What a record stands for.
#[derive(Clone, Copy, Debug, PartialEq, Eq)]
pub enum Entry {
    Not,
    Both(Join),
    Leaf(Term),
}

// A record, and the lowest byte of the number of brackets that are open at its place: a line with more than 128 is refused.
#[derive(Clone, Copy, Debug, PartialEq, Eq)]
pub struct Item {
    pub depth: u8,
    pub entry: Entry,
}

// Where the parts of an item stand that is one number: the open brackets in its lowest byte, then kind, direction and protocol, and the
// address or the port.
pub const KIND_AT: u64 = 256;

pub const DIRECTION_AT: u64 = 65536;

pub const PROTOCOL_AT: u64 = 16777216;

pub const VALUE_AT: u64 = 4294967296;

// How many values a byte has.
const BYTES: usize = 256;

// What stands in an array of items where no record is yet.
pub const BLANK: Item = Item {
    depth: 0,
    entry: Entry::Not,
};

// The size of a phrase: its records, and the most brackets open at once.
#[derive(Clone, Copy, Debug, PartialEq, Eq)]
pub struct Size {
    pub records: usize,
    pub deepest: usize,
}

// What stands before the next word: where a condition has to follow; a protocol that may be alone; a protocol and a side; `host` and its
// side; `port` with both; a whole phrase.
#[derive(Clone, Copy)]
enum Spot {
    Want,
    Lone(Transport),
    Sided(Option<Transport>, Side),
    Hosted(Option<Side>),
    Ported(Option<Transport>, Option<Side>),
    Full,
}

// What a word that can follow does: it goes on to another spot, it is the last of a record, or it is a bracket.
#[derive(Clone, Copy)]
enum Move {
    Go(Spot),
    Put(Entry),
    Open,
    Close,
}

// What stands before the next word, the brackets open now and at most, and the records so far.
#[derive(Clone, Copy)]
struct Sum {
    spot: Spot,
    depth: usize,
    deepest: usize,
    count: usize,
}

// ---- what a word does

fn go(spot: Spot) -> Option<Move>
    ensures { result ≡ Some (Go spot) }
{
    Some(Move::Go(spot))
}

fn leaf(term: Term) -> Option<Move>
    ensures { result ≡ Some (Put (Leaf term)) }
{
    Some(Move::Put(Entry::Leaf(term)))
}

// By what stands before the word and the brackets that are open; none where it cannot follow.
fn next(spot: Spot, depth: usize, word: Word) -> Option<Move>
    ensures { result ≡ R.next_of spot depth word }
{
    match (spot, word) {
        (Spot::Want, Word::Name(name)) => leaf(Term::Named(name)),
        (Spot::Want, Word::Over(over)) => go(Spot::Lone(over)),
        (Spot::Want, Word::Side(side)) => go(Spot::Sided(None, side)),
        (Spot::Want, Word::Host) => go(Spot::Hosted(None)),
        (Spot::Want, Word::Port) => go(Spot::Ported(None, None)),
        (Spot::Want, Word::Opening) => Some(Move::Open),
        (Spot::Want, Word::Negate) => Some(Move::Put(Entry::Not)),
        (Spot::Lone(over), Word::Side(side)) => go(Spot::Sided(Some(over), side)),
        (Spot::Lone(over), Word::Port) => go(Spot::Ported(Some(over), None)),
        (Spot::Sided(None, side), Word::Host) => go(Spot::Hosted(Some(side))),
        (Spot::Sided(over, side), Word::Port) => go(Spot::Ported(over, Some(side))),
        (Spot::Hosted(side), Word::Address(address)) => leaf(Term::Hosts(side, address)),
        (Spot::Ported(over, side), Word::Number(port)) => leaf(Term::Ports(over, side, port)),
        (Spot::Full, Word::Closing) if depth > 0 => Some(Move::Close),
        (Spot::Full, Word::Join(join)) => Some(Move::Put(Entry::Both(join))),
        _ => None,
    }
}

// What stands behind a record's last word.
fn behind(entry: Entry) -> Spot
    ensures { result ≡ R.behind entry }
{
    match entry {
        Entry::Leaf(_) => Spot::Full,
        Entry::Not | Entry::Both(_) => Spot::Want,
    }
}

// ---- the sum and the items

// An item at a place, if there is room.
fn store(items: &mut [Item], place: usize, item: Item)
    ensures { items.new ≡ set items.old place item }
{
    // A test of the length: behind `get_mut` a proof knows no more than it.
    if place < items.len() {
        items[place] = item;
    }
}

// A line as far as it is read.
#[derive(Drop)]
struct Reader<'a> {
    sum: Sum,
    items: &'a mut [Item],
}

impl<'a> Reader<'a> {
    // A record more, whose item is kept if there is room.
    // The bound is a clause of four: the count rises with each record.
    fn put(&mut self, entry: Entry)
        requires { self.old.sum.count + 1 < 2 ^ 64 }
        ensures sum { self.new.sum ≡ R.sum (R.behind entry) self.old.sum.depth self.old.sum.deepest (self.old.sum.count + 1) }
        ensures items { self.new.items.now ≡ set self.old.items.now self.old.sum.count (R.item self.old.sum.depth entry) }
        ensures same_reference { self.new.items.ghost_name ≡ self.old.items.ghost_name }
    {
        let depth = (self.sum.depth % BYTES) as u8;
        let item = Item { depth, entry };
        store(self.items, self.sum.count, item);
        self.sum.count += 1;
        self.sum.spot = behind(entry);
    }

    // A protocol that stands alone is a record.
    fn rest(&mut self)
        requires { self.old.sum.count + R.extra self.old.sum.spot < 2 ^ 64 }
        ensures sum { self.new.sum ≡ R.rested self.old.sum }
        ensures items { self.new.items.now ≡ R.rest_items self.old.sum self.old.items.now }
        ensures same_reference { self.new.items.ghost_name ≡ self.old.items.ghost_name }
    {
        if let Spot::Lone(over) = self.sum.spot {
            self.put(Entry::Leaf(Term::Bare(over)));
        }
    }

    // What a word that can follow does.
    fn apply(&mut self, step: Move)
        requires { (self.old.sum.count + 1 < 2 ^ 64) × (self.old.sum.depth + 1 < 2 ^ 64) }
        ensures sum { self.new.sum ≡ R.moved self.old.sum step }
        ensures items { self.new.items.now ≡ R.stored self.old.sum step self.old.items.now }
        ensures same_reference { self.new.items.ghost_name ≡ self.old.items.ghost_name }
    {
        match step {
            Move::Go(spot) => self.sum.spot = spot,
            Move::Put(entry) => self.put(entry),
            Move::Open => {
                self.sum.spot = Spot::Want;
                self.sum.depth += 1;
                self.sum.deepest = max(self.sum.deepest, self.sum.depth);
            }
            Move::Close => {
                self.sum.spot = Spot::Full;
                self.sum.depth = self.sum.depth.saturating_sub(1);
            }
        }
    }

    // The sum and the items as a word meets them.
    fn ready(&mut self, word: Word)
        requires { self.old.sum.count + R.extra self.old.sum.spot < 2 ^ 64 }
        ensures sum { self.new.sum ≡ R.ready word self.old.sum }
        ensures items { self.new.items.now ≡ R.ready_items word self.old.sum self.old.items.now }
        ensures same_reference { self.new.items.ghost_name ≡ self.old.items.ghost_name }
    {
        if matches!(word, Word::Closing | Word::Join(_)) {
            self.rest();
        }
    }

    // Takes the word at a place, if it can follow.
    fn take(&mut self, word: Word, place: usize) -> Result<(), Fault>
        requires { R.Fits self.old.sum (2 ^ 64 - 2) }
        ensures result { result ≡ R.taken (R.move self.old.sum word) place }
        ensures sum { self.new.sum ≡ R.moved_by (R.move self.old.sum word) (R.ready word self.old.sum) }
        ensures items { self.new.items.now ≡ R.stored_by (R.move self.old.sum word) (R.ready word self.old.sum) (R.ready_items word self.old.sum self.old.items.now) }
        ensures same_reference { self.new.items.ghost_name ≡ self.old.items.ghost_name }
    {
        self.ready(word);
        let Some(step) = next(self.sum.spot, self.sum.depth, word) else {
            return Err(Fault {
                refusal: Refusal::Unfinished,
                place,
            });
        };
        self.apply(step);
        Ok(())
    }

    // The line ends at a place.
    fn close(&mut self, end: usize) -> Result<Size, Fault>
        requires { self.old.sum.count + R.extra self.old.sum.spot < 2 ^ 64 }
        ensures result { result ≡ R.closed end (R.rested self.old.sum) }
        ensures items { self.new.items.now ≡ R.rest_items self.old.sum self.old.items.now }
        ensures same_reference { self.new.items.ghost_name ≡ self.old.items.ghost_name }
    {
        self.rest();
        let sum = self.sum;
        if matches!(sum.spot, Spot::Full) && sum.depth == 0 {
            Ok(Size {
                records: sum.count,
                deepest: sum.deepest,
            })
        } else {
            Err(Fault {
                refusal: Refusal::Unfinished,
                place: end,
            })
        }
    }
}

// ---- the line

// A line's size and its first items, or its refusal. It is read on by whole words: the place of each is what a refusal tells.
pub fn read_line(line: &[u8], items: &mut [Item]) -> Result<Size, Fault>
    ensures { R.reading result items.new ≡ R.scans (length line.now) R.begin items.old (line_words line.now) }
{
    let sum = Sum {
        spot: Spot::Want,
        depth: 0,
        deepest: 0,
        count: 0,
    };
    let mut reader = Reader { sum, items };
    let mut at = 0;
    while at < line.len() {
        if line[at] == b' ' {
            at += 1;
            continue;
        }
        let end = at + words::until(&line[at..], b' ');
        let fault = Fault {
            refusal: Refusal::UnknownWord,
            place: at,
        };
        let word = words::read_word(&line[at..end]).ok_or(fault)?;
        reader.take(word, at)?;
        at = end;
    }
    reader.close(line.len())
}

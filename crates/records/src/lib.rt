// The items of a typed line put into prefix order and written as a tree file's records.
#![tactic(auto)]

ghost use Rattle.std.specs.Prelude.{ℕ, Bool, List, ◌≡◌, ◌++◌, ◌+◌, ◌*◌, ◌/◌, ◌%◌, ◌≤◌, ◌<◌, length, take, drop};
ghost use Rattle.typing.specs.Phrase as P;
ghost use Rattle.records.specs.Arrange as A;
ghost use Rattle.records.specs.Order as O;
ghost use Rattle.records.specs.Packed as K;

use lines::{DIRECTION_AT, Entry, Item, KIND_AT, PROTOCOL_AT, VALUE_AT};
use typing::{Side, Term, Transport};

// The most records of a tree file: the array is as long, since the code that C calls has no heap.
const RECORDS: usize = 128;

// How many values a byte and a port have.
const BYTES: u64 = 256;

const HALVES: u64 = 65536;

// ---- prefix order

// What a record of a tree file is written from: the brackets that are open at its place, whether it is a join, and its bytes.
pub trait Record {
    ghost deep: { Self → ℕ };

    ghost joins: { Self → Bool };

    ghost written: { Self → List ℕ };

    fn depth(&self) -> u8
        ensures { result ≡ deep self.now };

    fn is_join(&self) -> bool
        ensures { result ≡ joins self.now };

    fn bytes(&self) -> [u8; 24]
        ensures { result ≡ written self.now };
}

// An item's place among the items, and what its order is told by. A few bytes, all zero where no item is yet: arrays of them are made at
// each line.
#[derive(Clone, Copy)]
struct Slot {
    depth: u8,
    joins: bool,
    place: u8,
}

// The joins that wait, at the start of an array, and what is done, at its end.
#[derive(Drop)]
struct Order {
    slots: [Slot; RECORDS],
    top: usize,
    from: usize,
}

impl Order {
    // Joins that wait at this depth or deeper go before what is done. A depth is widened by `as`: behind `usize::from` the proof stayed open.
    fn pop(&mut self, depth: usize)
        requires { O.Roomy 0 self.old }
        ensures { O.Pops depth self.old self.new }
    {
        // A pop from a stack in an array: it ends at the first join that is less deep.
        while self.top > 0 {
            let join = self.slots[self.top - 1];
            if (join.depth as usize) < depth {
                return;
            }
            self.top -= 1;
            self.from -= 1;
            self.slots[self.from] = join;
        }
    }

    // An item: a join waits, another is done.
    fn place(&mut self, slot: Slot)
        requires { O.Roomy 1 self.old }
        ensures { O.Places slot self.old self.new }
    {
        if slot.joins {
            self.slots[self.top] = slot;
            self.top += 1;
        } else {
            self.from -= 1;
            self.slots[self.from] = slot;
        }
    }

    // All items, from the right.
    fn arrange<T: Record>(&mut self, items: &[T])
        requires { (self.old.from ≡ 128) × (self.old.top ≡ 0) × (length items.now ≤ 128) }
        ensures { (drop self.new.from self.new.slots ≡ O.arranged_slots (O.slots_of T.deep T.joins 0 items.now)) × (self.new.from + length items.now ≡ 128) }
    {
        let mut left = items;
        // From the right by a pattern: a proof about a reversed iterator has to speak of the reversed list.
        while let [before @ .., item] = left {
            let slot = Slot {
                depth: item.depth(),
                joins: item.is_join(),
                place: before.len() as u8,
            };
            // Widened by `as`, as in `pop`.
            self.pop(slot.depth as usize + 1);
            self.place(slot);
            left = before;
        }
        self.pop(0);
    }
}

// ---- the file

// A record by its kind, direction, protocol, A and the address's first four bytes.
fn bytes(kind: u8, direction: u8, protocol: u8, a: u16, address: u32) -> [u8; 24]
    ensures { result ≡ P.record_bytes kind direction protocol a address }
{
    let [a1, a2] = a.to_be_bytes();
    let [b1, b2, b3, b4] = address.to_be_bytes();
    [
        kind, direction, protocol, 0, a1, a2, 0, 0, b1, b2, b3, b4, 0, 0, 0, 0, 0, 0, 0, 0, 0, 0,
        0, 0,
    ]
}

// A direction's byte.
// What this and `protocol` share is the library's `map_or`.
fn direction(side: Option<Side>) -> u8
    ensures { result ≡ P.dir_byte side }
{
    side.map_or(0, |side| side as u8)
}

// A protocol's byte before a port.
fn protocol(over: Option<Transport>) -> u8
    ensures { result ≡ P.maybe_byte over }
{
    over.map_or(0, |over| over as u8)
}

// Kinds of records: these four bytes are all that a typed line writes, so they are no enum.
const NOT: u8 = 3;

const PROTOCOL: u8 = 10;

const HOST: u8 = 11;

const PORT: u8 = 15;

// The record of what an item stands for. Both types of a `From` would be of other crates.
fn record_of(entry: Entry) -> [u8; 24]
    ensures { result ≡ O.entry_bytes entry }
{
    match entry {
        Entry::Not => bytes(NOT, 0, 0, 0, 0),
        Entry::Both(join) => bytes(join as u8, 0, 0, 0, 0),
        Entry::Leaf(Term::Named(name)) => bytes(PROTOCOL, 0, name as u8, 0, 0),
        Entry::Leaf(Term::Bare(over)) => bytes(PROTOCOL, 0, over as u8, 0, 0),
        Entry::Leaf(Term::Hosts(side, address)) => bytes(HOST, direction(side), 0, 0, address),
        Entry::Leaf(Term::Ports(over, side, port)) => bytes(
            PORT,
            direction(side),
            protocol(over),
            port,
            0,
        ),
    }
}

impl Record for Item {
    ghost deep = { O.deep };

    ghost joins = { O.joins };

    ghost written = { O.row };

    fn depth(&self) -> u8 {
        self.depth
    }

    fn is_join(&self) -> bool {
        matches!(self.entry, Entry::Both(_))
    }

    fn bytes(&self) -> [u8; 24] {
        record_of(self.entry)
    }
}

// Joins among the kinds of records.
const AND: u8 = 1;

const OR: u8 = 2;

// The kind of an item in one number.
fn kind_of(packed: u64) -> u8
    ensures { result ≡ packed / 256 % 256 }
{
    (packed / KIND_AT % BYTES) as u8
}

// An item in one number, any at all: from its lowest byte on the open brackets, kind, direction and protocol, then the address or the port.
impl Record for u64 {
    ghost deep = { K.deep };

    ghost joins = { K.joins };

    ghost written = { K.row };

    fn depth(&self) -> u8 {
        (*self % BYTES) as u8
    }

    fn is_join(&self) -> bool {
        matches!(kind_of(*self), AND | OR)
    }

    fn bytes(&self) -> [u8; 24] {
        let kind = kind_of(*self);
        let direction = (*self / DIRECTION_AT % BYTES) as u8;
        let protocol = (*self / PROTOCOL_AT % BYTES) as u8;
        let value = *self / VALUE_AT;
        if kind == PORT {
            bytes(kind, direction, protocol, (value % HALVES) as u16, 0)
        } else {
            bytes(kind, direction, protocol, 0, value as u32)
        }
    }
}

// Bytes at a place.
fn put(tree: &mut [u8], at: usize, part: &[u8])
    requires { at + length part.now ≤ length tree.old }
    ensures { tree.new ≡ take at tree.old ++ part.now ++ drop (at + length part.now) tree.old }
{
    tree[at..at + part.len()].copy_from_slice(part);
}

// The records of the items at some places, behind the header. The bound on them is the public function's, handed on.
fn write_items<T: Record>(tree: &mut [u8], items: &[T], slots: &[Slot])
    requires { (length slots.now ≤ 128) × (8 + 24 * length slots.now ≤ length tree.old) × O.Inside (length items.now) slots.now }
    ensures { tree.new ≡ take 8 tree.old ++ O.slot_rows T.written items.now slots.now ++ drop (8 + 24 * length slots.now) tree.old }
{
    // By index: what is written through `chunks_exact_mut` is known by its length alone.
    for (i, slot) in slots.iter().enumerate() {
        let item = &items[slot.place as usize];
        put(tree, 8 + 24 * i, &item.bytes());
    }
}

// The header and the records of items, in prefix order.
// The link byte as it was typed: it is written as it stands, once `link_type` knows it.
pub fn write_file<T: Record>(tree: &mut [u8], link: u8, items: &[T])
    requires { (length items.now ≤ 128) × (8 + 24 * length items.now ≤ length tree.old) }
    ensures { tree.new ≡ (O.head_bytes link (length items.now) ++ A.rows T.written (A.arranged T.deep T.joins items.now)) ++ drop (8 + 24 * length items.now) tree.old }
{
    let empty = Slot {
        depth: 0,
        joins: false,
        place: 0,
    };
    let mut order = Order {
        slots: [empty; RECORDS],
        top: 0,
        from: RECORDS,
    };
    order.arrange(items);
    let [n1, n2] = (items.len() as u16).to_be_bytes();
    put(tree, 0, &[0x50, 0x46, 0x54, 0, 1, link, n1, n2]);
    write_items(tree, items, &order.slots[order.from..]);
}

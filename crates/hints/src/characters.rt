// The characters of a text as they are shown: those of UTF-8, and `?` for a control character and for each byte that is part of none.
ghost use Rattle.std.specs.Prelude.{◌-◌, ◌≤◌, ◌<◌, length};
ghost use Rattle.std.specs.Iterator.{at_most};

// The most bytes that a character has.
const LONGEST: usize = 4;

// The characters from a place on, each with its own place.
#[derive(Drop)]
pub struct Characters<'a> {
    text: &'a [u8],
    at: usize,
}

// The character as it is shown.
fn shown(c: char) -> char {
    if c.is_control() { '?' } else { c }
}

// The first character, and how many bytes it has. Most are of one byte, which tells that.
fn first(text: &[u8]) -> (char, usize)
    requires { 0 < length text.now }
    ensures { (0 < result.1) × (result.1 ≤ length text.now) }
{
    let byte = text[0];
    if byte.is_ascii() {
        return (shown(char::from(byte)), 1);
    }
    let start = &text[..text.len().min(LONGEST)];
    let chunk = start.utf8_chunks().next();
    match chunk.and_then(|chunk| chunk.valid().chars().next()) {
        Some(c) => (shown(c), c.len_utf8()),
        None => ('?', 1),
    }
}

impl<'a> Characters<'a> {
    pub fn new(text: &'a [u8]) -> Characters<'a> {
        Characters { text, at: 0 }
    }
}

impl Iterator for Characters<'_> {
    type Item = (usize, char);

    ghost remaining = { λ s. at_most (length s.text.now - s.at) };

    fn next(&mut self) -> Option<(usize, char)> {
        let at = self.at;
        if at >= self.text.len() {
            return None;
        }
        let (c, size) = first(&self.text[at..]);
        self.at = at + size;
        Some((at, c))
    }
}

// A line as it is shown: in a row of a terminal, around a place.
ghost use Rattle.std.specs.Prelude.{◌≤◌};

use crate::characters::Characters;
use std::fmt;
use std::fmt::{Display, Formatter, Write};

// How many characters are shown, half of them before the place where there are more.
const WIDTH: usize = 72;

// Dots stand where the line is cut.
const CUT: &str = "...";

// The part of a line around a place, and how many characters stand before the place.
#[derive(Clone, Copy)]
pub struct Shown<'a> {
    line: &'a [u8],
    start: usize,
    is_cut: bool,
    pub mark: usize,
}

pub fn show(line: &[u8], place: usize) -> Shown<'_>
    ensures { result.mark ≤ 75 }
{
    let all = Characters::new(line).count();
    let before = Characters::new(line)
        .take_while(|(at, _)| *at < place)
        .count();
    let start = before
        .saturating_sub(WIDTH / 2)
        .min(all.saturating_sub(WIDTH));
    let head = if start > 0 { CUT.len() } else { 0 };
    Shown {
        line,
        start,
        is_cut: start.saturating_add(WIDTH) < all,
        mark: head + before.saturating_sub(start).min(WIDTH),
    }
}

impl Display for Shown<'_> {
    fn fmt<W: Write>(&self, f: &mut Formatter<W>) -> fmt::Result {
        if self.start > 0 {
            f.write_str(CUT)?;
        }
        for (_, c) in Characters::new(self.line).skip(self.start).take(WIDTH) {
            f.write_char(c)?;
        }
        if self.is_cut {
            f.write_str(CUT)?;
        }
        Ok(())
    }
}

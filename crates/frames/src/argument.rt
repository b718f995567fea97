// The program's arguments, which are read by number where they are needed. Argument 0 is the program's name.
ghost use Rattle.std.specs.Prelude.{◌≡◌, ◌≤◌, ◌<◌, ◌+◌, ◌↔◌, length, take, slice_get, IsTrue, IfOk, IfSome, IfNone};
ghost use Rattle.io.specs.Counts.{IsPrefixLen};

use crate::listed::Argument;
use crate::source::HasArguments;
use std::env::FillError;
use std::io::{Error, ErrorKind, Result};
use std::rt::Env;

// The most bytes of a file's name.
pub(crate) const PATH: usize = 4096;

// Linux's number of a name that is too long: its kind is also that of one that is no text.
pub(crate) const ENAMETOOLONG: i32 = 36;

// ---- one argument

// How many there are.
pub fn argument_count(env: &impl Env) -> usize {
    for i in 0..usize::MAX {
        if matches!(env.arg(i, &mut []), Err(FillError::NotPresent)) {
            return i;
        }
    }
    usize::MAX
}

// Puts an argument at the start of a buffer, and answers its bytes, which need not be text.
pub(crate) fn argument<'a>(
    source: &impl HasArguments,
    i: usize,
    buffer: &'a mut [u8],
) -> Result<&'a [u8]>
    ensures { IfOk result (λ bytes. length bytes.now ≤ length buffer.old) }
{
    match source.argument_at(i, buffer) {
        Ok(n) => Ok(&buffer[..n]),
        Err(FillError::TooLong) => Err(Error::from_raw_os_error(ENAMETOOLONG)),
        Err(FillError::NotPresent) => Err(Error::from(ErrorKind::InvalidInput)),
    }
}

// Puts an argument at the start of a buffer, and answers its length. One that has no room counts as an empty one.
pub fn word(env: &impl Env, i: usize, buffer: &mut [u8]) -> usize
    ensures { IsPrefixLen result buffer.new }
{
    word_at(env, i, buffer)
}

// The same of any source.
fn word_at(source: &impl HasArguments, i: usize, buffer: &mut [u8]) -> usize
    ensures { IsPrefixLen result buffer.new }
{
    match source.argument_at(i, buffer) {
        Ok(n) => n,
        Err(_) => 0,
    }
}

// A word of the command as it was read, by its number. One that is longer than a path counts as an empty one.
#[derive(Drop)]
pub struct CommandWord {
    pub number: usize,
    room: [u8; PATH],
    size: usize,
    ghost bound: { size ≤ 4096 },
}

impl CommandWord {
    ghost use Rattle.frames.specs.Words.{bytes_of, word_of};

    pub fn read(env: &impl Env, number: usize) -> CommandWord
        ensures { result.number ≡ number }
    {
        CommandWord::read_at(env, number)
    }

    // The same of any source.
    pub(crate) fn read_at(source: &impl HasArguments, number: usize) -> CommandWord
        ensures { result.number ≡ number }
    {
        let mut room = [0; PATH];
        let size = word_at(source, number, &mut room);
        CommandWord { number, room, size }
    }

    // As a list has it. One that is not there counts as an empty one.
    fn listed(arguments: &[Argument], place: usize) -> CommandWord
        ensures { IfSome (slice_get arguments.now place) (λ a. bytes_of result ≡ word_of a) }
    {
        let word = match arguments.get(place) {
            Some(argument) => argument.word(),
            None => b"",
        };
        let mut room = [0; PATH];
        let size = word.len();
        room[..size].copy_from_slice(word);
        CommandWord {
            number: place,
            room,
            size,
        }
    }

    pub fn bytes(&self) -> &[u8]
        ensures bound { length result.now ≤ 4096 }
        ensures whole { result.now ≡ bytes_of self.now }
    {
        &self.room[..self.size]
    }

    // Whether it is an option: `-` alone is none.
    pub(crate) fn is_option(&self) -> bool {
        let bytes = self.bytes();
        bytes.len() > 1 && bytes.starts_with(b"-")
    }
}

// ---- several arguments

// The arguments from one number up to another.
#[derive(Clone, Copy)]
pub struct Arguments {
    pub first: usize,
    pub end: usize,
}

impl Arguments {
    ghost use Rattle.frames.specs.Words.{count_of};

    pub const NONE: Arguments = Arguments { first: 0, end: 0 };

    pub fn is_empty(self) -> bool
        ensures { IsTrue result ↔ (count_of self ≡ 0) }
    {
        self.end <= self.first
    }

    // The first's number, and the others.
    pub(crate) fn split_first(self) -> Option<(usize, Arguments)>
        ensures some { IfSome result (λ split. (self.first < self.end) × (split.0 ≡ self.first)
            × (split.1.first ≡ self.first + 1) × (split.1.end ≡ self.end)) }
        ensures none { IfNone result (count_of self ≡ 0) }
    {
        if self.is_empty() {
            return None;
        }
        let others = Arguments {
            first: self.first + 1,
            end: self.end,
        };
        Some((self.first, others))
    }
}

// A command line: its arguments, of which the first two stand here as words, since they tell what is asked for.
#[derive(Drop)]
pub struct CommandLine {
    pub(crate) arguments: Arguments,
    pub(crate) command: CommandWord,
    pub(crate) second: CommandWord,
}

impl CommandLine {
    ghost use Rattle.frames.specs.Words.{Lists, count_of};

    pub fn read(env: &impl Env, arguments: Arguments) -> CommandLine
        ensures arguments { result.arguments ≡ arguments }
        ensures command { result.command.number ≡ arguments.first }
        ensures second { arguments.first < arguments.end → result.second.number ≡ arguments.first + 1 }
    {
        CommandLine {
            arguments,
            command: CommandWord::read(env, arguments.first),
            second: CommandWord::read(env, arguments.first.saturating_add(1)),
        }
    }

    // As a list has it, by the places in it.
    pub(crate) fn listed(arguments: &[Argument]) -> CommandLine
        ensures count { count_of result.arguments ≡ length arguments.now }
        ensures command { Lists result arguments.now 0 }
        ensures second { Lists result arguments.now 1 }
    {
        CommandLine {
            arguments: Arguments {
                first: 0,
                end: arguments.len(),
            },
            command: CommandWord::listed(arguments, 0),
            second: CommandWord::listed(arguments, 1),
        }
    }
}

#[cfg(test)]
mod tests {
    use super::*;
    use std::test::Fail;

    #[test]
    fn the_name_is_an_argument(rt: HostRuntime) -> std::result::Result<(), Fail> {
        assert!(rt; argument_count(&rt) > 0);
        let name = CommandWord::read(&rt, 0);
        assert!(rt; !name.bytes().is_empty());
        Ok(())
    }
}

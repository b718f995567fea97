// The tree that a command is given, a file by name or a line after `--type`.
ghost use Rattle.std.specs.Prelude.{◌≡◌, ◌≢◌, ◌<◌, ◌↔◌, IsTrue};
ghost use Rattle.frames.specs.Words.{count_of};

use crate::argument::{Arguments, CommandWord, PATH, argument};
use crate::over::names_input_twice;
use crate::said::Name;
use crate::source::{HasArguments, HasFiles};
use crate::{Ended, Session, Work};
use std::io::Print;

// What stands behind a tree among the arguments: nothing, or one file or more.
#[derive(Clone, Copy)]
pub enum Behind {
    Nothing,
    Files,
}

impl Behind {
    pub fn fits(self, files: Arguments) -> bool
        ensures nothing { self ≡ Behind.Nothing → (IsTrue result ↔ (count_of files ≡ 0)) }
        ensures files { self ≡ Behind.Files → (IsTrue result ↔ (0 < count_of files)) }
    {
        match self {
            Behind::Nothing => files.is_empty(),
            Behind::Files => !files.is_empty(),
        }
    }
}

// A tree file's bytes, what they go by, and the files behind it.
#[derive(Clone, Copy)]
pub struct Given<'a> {
    pub name: Name<'a>,
    pub tree: &'a [u8],
    pub files: Arguments,
}

// A tree file has at most 3,080 bytes. Of a longer one so many tell all: number 1 looks at the first eight, and number 2 holds of every
// length over 3,080.
pub const TREE_BYTES: usize = 4096;

// Where a tree and its name are put. The name of a typed line is its start, where all that is shown of it stands.
#[derive(Drop)]
pub struct Room {
    pub name: [u8; PATH],
    pub tree: [u8; TREE_BYTES],
}

impl Room {
    pub fn new() -> Room {
        Room {
            name: [0; PATH],
            tree: [0; TREE_BYTES],
        }
    }
}

impl<R: HasFiles, A: Print, M: Print> Session<'_, R, A, M> {
    // A tree file by name.
    pub(crate) fn tree_file<'a>(
        &self,
        path: &'a [u8],
        files: Arguments,
        room: &'a mut [u8; TREE_BYTES],
    ) -> Work<Given<'a>>
        ensures { result ≢ Err Ended.Usage }
    {
        let name = Name::File(path);
        match files::read(self.rt.host(), path, room) {
            Ok(n) => Ok(Given {
                name,
                tree: &room[..n],
                files,
            }),
            Err(error) => Err(self.unread(name, error)),
        }
    }

    // A tree file from standard input.
    pub(crate) fn input_tree<'a>(&self, room: &'a mut [u8; TREE_BYTES]) -> Work<Given<'a>>
        ensures { result ≢ Err Ended.Usage }
    {
        self.tree_file(b"-", Arguments::NONE, room)
    }
}

impl<R: HasArguments + HasFiles, A: Print, M: Print> Session<'_, R, A, M> {
    // A tree, which is a name or `--type` with a link and a line, and the files behind it.
    pub(crate) fn tree<'a>(
        &self,
        arguments: Arguments,
        behind: Behind,
        room: &'a mut Room,
    ) -> Work<Given<'a>>
        ensures { behind ≡ Behind.Files → count_of arguments < 2 → result ≡ Err Ended.Usage }
    {
        let Some((first, files)) = arguments.split_first() else {
            return Err(Ended::Usage);
        };
        let word = CommandWord::read_at(self.rt, first);
        if word.bytes() == b"--type".as_slice() {
            let link = CommandWord::read_at(self.rt, files.first);
            return self.typed(&link, files, behind, room);
        }
        if word.is_option() || !behind.fits(files) {
            return Err(Ended::Usage);
        }
        let Room { name, tree } = room;
        match argument(self.rt, first, name) {
            Ok(_) if names_input_twice(self.rt, arguments) => Err(self.named_twice()),
            Ok(path) => self.tree_file(path, files, tree),
            Err(error) => Err(self.unread_argument(first, error)),
        }
    }
}

// A line that is typed, in two arguments, its link and its text: its tree, or why it has none.
ghost use Rattle.std.specs.Prelude.{◌≡◌, ◌≢◌, ◌<◌, ◌↔◌, IsSome, Contains};
ghost use Rattle.frames.specs.Words.{bytes_of, count_of, links};

use crate::argument::{Arguments, CommandWord, PATH, argument};
use crate::over::names_input_twice;
use crate::said::{Name, Refused};
use crate::source::{HasArguments, HasFiles};
use crate::tree::{Behind, Given, Room};
use crate::{Ended, Session, Work};
use ast::LinkType;
use error::Refusal;
use std::io;
use std::io::Print;
use typing::Fault;

// The typing takes an array of as many bytes as the largest tree file has.
const TYPED_BYTES: usize = 3080;

// Room for the longest argument that Linux passes, 131,071 bytes.
pub(crate) const LINE_BYTES: usize = 131072;

// A link by its number in a tree file or its name. Both types of a `From` would be of other crates.
fn link_of(word: &[u8]) -> Option<LinkType>
    ensures { IsSome result ↔ Contains links word.now }
{
    match word {
        b"1" | b"ethernet" => Some(LinkType::Ethernet),
        b"2" | b"raw" => Some(LinkType::RawIp),
        b"3" | b"cooked" => Some(LinkType::LinuxSll),
        _ => None,
    }
}

// A line that is refused, and why.
#[derive(Clone, Copy)]
struct Rejected<'a> {
    link: LinkType,
    line: &'a [u8],
    fault: Fault,
}

impl<R: HasArguments + HasFiles, A: Print, M: Print> Session<'_, R, A, M> {
    // ---- a line that is refused

    // Below the line a mark under the place, the refusal, and what could stand there.
    // Not inlined, so that a line that is taken takes no stack for that.
    #[inline(never)]
    fn put_rejected(&self, rejected: Rejected) -> io::Result<()> {
        let to = &self.messages;
        let Rejected { link, line, fault } = rejected;
        let Fault { refusal, place } = fault;
        let shown = hints::show(line, place);
        let refused = Refused(refusal);
        if refusal == Refusal::TooLarge {
            return print!(to;
                "{shown}\n{refused}: over 128 records or over 128 brackets open at once\n"
            );
        }
        let mark = shown.mark + 1;
        print!(to;
            "{shown}\n{:>mark$}\n{refused}, at byte {place}; here could follow: ",
            "^"
        )?;
        let start = line.get(..place).unwrap_or(line);
        hints::put_followers(to, link as u8, start)?;
        print!(to; "\n")
    }

    fn turned_down(&self, rejected: Rejected) -> Ended
        ensures { result ≡ Ended.Refused }
    {
        let _ = self.put_rejected(rejected);
        Ended::Refused
    }

    // ---- a line

    // A tree of a line goes by what is shown of the line.
    fn typed_line<'a>(
        &self,
        link: LinkType,
        line: &[u8],
        files: Arguments,
        room: &'a mut Room,
    ) -> Work<Given<'a>>
        ensures { result ≢ Err Ended.Usage }
    {
        // Lent bytes, as the typing takes them.
        let mut typed = [0u8; TYPED_BYTES];
        let length = match type_line::type_line(link as u8, line, &mut typed) {
            Ok(length) => length,
            Err(fault) => return Err(self.turned_down(Rejected { link, line, fault })),
        };
        let size = line.len().min(PATH);
        room.name[..size].copy_from_slice(&line[..size]);
        room.tree[..TYPED_BYTES].copy_from_slice(&typed);
        Ok(Given {
            name: Name::Line(&room.name[..size]),
            tree: room.tree.get(..length).unwrap_or(b""),
            files,
        })
    }

    // The line that an argument is.
    // Not inlined, so that no other work takes the stack of its room.
    #[inline(never)]
    fn typed_argument<'a>(
        &self,
        link: LinkType,
        number: usize,
        files: Arguments,
        room: &'a mut Room,
    ) -> Work<Given<'a>>
        ensures { result ≢ Err Ended.Usage }
    {
        let mut line = [0u8; LINE_BYTES];
        match argument(self.rt, number, &mut line) {
            Ok(line) => self.typed_line(link, line, files, room),
            Err(error) => Err(self.unread_argument(number, error)),
        }
    }

    // ---- the arguments

    fn put_no_link(&self, word: &[u8]) -> io::Result<()> {
        let to = &self.messages;
        to.write_all(word)?;
        print!(to; ": no link; the links are ethernet (1), raw (2) and cooked (3)\n")
    }

    fn no_link(&self, word: &[u8]) -> Ended
        ensures { result ≡ Ended.Usage }
    {
        let _ = self.put_no_link(word);
        Ended::Usage
    }

    // Words behind the line may be its own.
    fn misfit(&self, files: Arguments) -> Ended
        ensures { result ≡ Ended.Usage }
    {
        if !files.is_empty() {
            let to = &self.messages;
            let _ = print!(to; "the line is one argument: put it in quotes\n");
        }
        Ended::Usage
    }

    // A link, which was read, a line, and the files behind them.
    pub(crate) fn typed<'a>(
        &self,
        word: &CommandWord,
        arguments: Arguments,
        behind: Behind,
        room: &'a mut Room,
    ) -> Work<Given<'a>>
        ensures few { count_of arguments < 2 → result ≡ Err Ended.Usage }
        ensures many { behind ≡ Behind.Nothing → count_of arguments ≢ 2 → result ≡ Err Ended.Usage }
        ensures unlinked { ¬ Contains links (bytes_of word.now) → result ≡ Err Ended.Usage }
        ensures right { behind ≡ Behind.Nothing → count_of arguments ≡ 2
            → Contains links (bytes_of word.now) → result ≢ Err Ended.Usage }
    {
        let Some((_, rest)) = arguments.split_first() else {
            return Err(Ended::Usage);
        };
        let Some((line, files)) = rest.split_first() else {
            return Err(Ended::Usage);
        };
        if !behind.fits(files) {
            return Err(self.misfit(files));
        }
        let Some(link) = link_of(word.bytes()) else {
            return Err(self.no_link(word.bytes()));
        };
        if names_input_twice(self.rt, files) {
            return Err(self.named_twice());
        }
        self.typed_argument(link, line, files, room)
    }
}

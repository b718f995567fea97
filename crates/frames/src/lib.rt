// What `pft` answers and says: its subcommands over trees, which are files or typed lines, frame files and captures by name.
#![tactic(auto)]

ghost use Rattle.std.specs.Prelude.{◌≡◌, ◌≢◌, ◌<◌, length, Contains, MatchResult, codes, Err, IfOk, IfErr};
ghost use Rattle.build.specs.Build.{build};
ghost use Rattle.frames.specs.Words.{IfCommand, IfCommandRead, IfWord, IfWordRead, bytes_of, commands, count_of, links, over_frames};
ghost use Rattle.frames.specs.Endings.{NotUsage};
ghost use Rattle.frames.specs.Program.{IsProgram};

mod argument;
mod count;
mod ended;
mod list;
mod listed;
mod over;
mod run;
mod said;
mod size;
mod source;
mod tree;
mod typed;

pub use argument::{Arguments, CommandLine, CommandWord, argument_count, word};
use ended::Work;
pub use ended::{Ended, STATUS_FILENO, tell, tell_on};
use error::Refusal;
pub use listed::{Argument, arguments};
use said::{Name, Reason, Refused, Unread};
use source::{HasArguments, HasFiles, Listed};
use std::fmt::Display;
use std::io;
use std::io::{Error, Input, Print};
use std::rt::{Env, Files};
use tree::{Behind, Room};

// The most bytes of a program: it has at most 4,096 instructions.
const PROGRAM_BYTES: usize = 32768;

// What the work is done with: files and input, where answers go, and where it is said what is refused or cannot be read.
#[derive(Clone, Copy)]
pub struct Session<'a, R, A, M> {
    pub rt: &'a R,
    pub answers: A,
    pub messages: M,
}

// ---- lines of people

impl<R, A: Print, M: Print> Session<'_, R, A, M> {
    // Says something of what has a name, where it can be written.
    fn say<D: Display + Drop>(&self, name: Name, said: D) {
        let _ = name.put_line(&self.messages, said);
    }

    fn refused(&self, name: Name, r: Refusal) -> Ended
        ensures { result ≡ Ended.Refused }
    {
        self.say(name, Refused(r));
        Ended::Refused
    }

    fn unread(&self, name: Name, error: Error) -> Ended
        ensures { result ≡ Ended.Failed }
    {
        self.say(name, Unread(error));
        Ended::Failed
    }

    // After an answer, which ends the work where it could not be written.
    fn answered(&self, written: io::Result<()>) -> Work<Ended>
        ensures { MatchResult written (λ _. result ≡ Ok Ended.Done) (λ _. result ≡ Err Ended.Failed) }
    {
        match written {
            Ok(()) => Ok(Ended::Done),
            Err(error) => {
                let to = &self.messages;
                let reason = Reason(error);
                let _ = print!(to; "standard output: cannot be written, {reason}\n");
                Err(Ended::Failed)
            }
        }
    }

    // Answers something of what has a name.
    fn answer<D: Display + Drop>(&self, name: Name, said: D) -> Work<Ended> {
        self.answered(name.put_line(&self.answers, said))
    }
}

// ---- the subcommands

// The program of a tree, at the start of a lent buffer, or its refusal.
fn program_of<'a>(tree: &[u8], room: &'a mut [u8; PROGRAM_BYTES]) -> Result<&'a [u8], Refusal>
    ensures program { IfOk result (λ bytes. IsProgram tree.now bytes.now) }
    ensures refused { IfErr result (λ r. (build tree.now 32768).answer ≡ Err r) }
{
    let count = build::build(tree, room)?;
    Ok(&room[..8 * count as usize])
}

impl<R: HasArguments + HasFiles, A: Print, M: Print> Session<'_, R, A, M> {
    fn subcommand(&self, line: &CommandLine) -> Work<Ended>
        ensures none { count_of line.now.arguments ≡ 0 → result ≡ Err Ended.Usage }
        ensures unknown { IfWordRead line.now 0 (λ command. ¬ Contains commands command → result ≡ Err Ended.Usage) }
        ensures line { IfCommandRead line.now (codes "type") (count_of line.now.arguments ≢ 3 → result ≡ Err Ended.Usage) }
        ensures link { IfCommandRead line.now (codes "type")
            (IfWordRead line.now 1 (λ link. ¬ Contains links link → result ≡ Err Ended.Usage)) }
        ensures typed { IfCommandRead line.now (codes "type")
            (count_of line.now.arguments ≡ 3 → IfWordRead line.now 1 (λ link. Contains links link → NotUsage result)) }
        ensures size { IfCommandRead line.now (codes "size") (count_of line.now.arguments < 2 → result ≡ Err Ended.Usage) }
        ensures files { IfWordRead line.now 0
            (λ command. Contains over_frames command → count_of line.now.arguments < 3 → result ≡ Err Ended.Usage) }
    {
        let Some((_, rest)) = line.arguments.split_first() else {
            return Err(Ended::Usage);
        };
        match line.command.bytes() {
            b"type" => self.write(&line.second, rest),
            b"list" => self.list(rest),
            b"size" => self.size(rest),
            b"run" => self.run(rest),
            b"count" => self.count(rest),
            _ => Err(Ended::Usage),
        }
    }

    // The tree file of a typed line, whose link was read.
    fn write(&self, link: &CommandWord, arguments: Arguments) -> Work<Ended>
        ensures number { count_of arguments ≢ 2 → result ≡ Err Ended.Usage }
        ensures unlinked { ¬ Contains links (bytes_of link.now) → result ≡ Err Ended.Usage }
        ensures right { count_of arguments ≡ 2 → Contains links (bytes_of link.now) → NotUsage result }
    {
        let mut room = Room::new();
        let given = self.typed(link, arguments, Behind::Nothing, &mut room)?;
        self.answered(self.answers.write_all(given.tree))
    }
}

impl<R: Env + Files + Input, A: Print, M: Print> Session<'_, R, A, M> {
    // What `pft` does with its arguments, read by number, and how that ended. Of wrong usage it says nothing: the script that starts it has the help.
    pub fn pft_by_number(&self, line: &CommandLine) -> Ended
        ensures none { count_of line.now.arguments ≡ 0 → result ≡ Ended.Usage }
        ensures unknown { IfWordRead line.now 0 (λ command. ¬ Contains commands command → result ≡ Ended.Usage) }
        ensures line { IfCommandRead line.now (codes "type") (count_of line.now.arguments ≢ 3 → result ≡ Ended.Usage) }
        ensures link { IfCommandRead line.now (codes "type")
            (IfWordRead line.now 1 (λ link. ¬ Contains links link → result ≡ Ended.Usage)) }
        ensures typed { IfCommandRead line.now (codes "type")
            (count_of line.now.arguments ≡ 3 → IfWordRead line.now 1 (λ link. Contains links link → result ≢ Ended.Usage)) }
        ensures size { IfCommandRead line.now (codes "size") (count_of line.now.arguments < 2 → result ≡ Ended.Usage) }
        ensures files { IfWordRead line.now 0
            (λ command. Contains over_frames command → count_of line.now.arguments < 3 → result ≡ Ended.Usage) }
    {
        match self.subcommand(line) {
            Ok(ended) | Err(ended) => ended,
        }
    }
}

impl<R: Files + Input, A: Print, M: Print> Session<'_, R, A, M> {
    // The same with arguments in a list.
    pub fn pft(&self, arguments: &[Argument]) -> Ended
        ensures none { length arguments.now ≡ 0 → result ≡ Ended.Usage }
        ensures unknown { IfWord arguments.now 0 (λ command. ¬ Contains commands command → result ≡ Ended.Usage) }
        ensures line { IfCommand arguments.now (codes "type") (length arguments.now ≢ 3 → result ≡ Ended.Usage) }
        ensures link { IfCommand arguments.now (codes "type")
            (IfWord arguments.now 1 (λ link. ¬ Contains links link → result ≡ Ended.Usage)) }
        ensures typed { IfCommand arguments.now (codes "type")
            (length arguments.now ≡ 3 → IfWord arguments.now 1 (λ link. Contains links link → result ≢ Ended.Usage)) }
        ensures size { IfCommand arguments.now (codes "size") (length arguments.now < 2 → result ≡ Ended.Usage) }
        ensures files { IfWord arguments.now 0
            (λ command. Contains over_frames command → length arguments.now < 3 → result ≡ Ended.Usage) }
    {
        let session = Session {
            rt: &Listed {
                host: self.rt,
                arguments,
            },
            answers: &self.answers,
            messages: &self.messages,
        };
        ended::how(session.subcommand(&CommandLine::listed(arguments)))
    }

    // Document 01's listing of standard input.
    pub fn pft_list(&self) -> Ended
        ensures { result ≢ Ended.Usage }
    {
        match self.list_input() {
            Ok(ended) | Err(ended) => ended,
        }
    }
}

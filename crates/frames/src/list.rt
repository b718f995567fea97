// `pft list`, and document 01's listing.
ghost use Rattle.frames.specs.Endings.{NotUsage};

use crate::argument::{Arguments, CommandWord};
use crate::source::{HasArguments, HasFiles};
use crate::tree::{Behind, Given, Room, TREE_BYTES};
use crate::{Ended, PROGRAM_BYTES, Session, Work, program_of};
use listing::{Form, Listing};
use std::io::Print;

// The form that an option asks for. Both types of a `From` would be of other crates.
fn form_of(word: &[u8]) -> Option<Form> {
    match word {
        b"-d" => Some(Form::Words),
        b"-dd" => Some(Form::Rows),
        b"--bytecode" => Some(Form::Bytecode),
        _ => None,
    }
}

impl<R: HasFiles, A: Print, M: Print> Session<'_, R, A, M> {
    fn put_listing(&self, program: &[u8], form: Form) -> Work<Ended>
        ensures { NotUsage result }
    {
        self.answered(Listing { program, form }.print_to(&self.answers))
    }

    // Document 01's listing of standard input, with a refusal in its place.
    pub(crate) fn list_input(&self) -> Work<Ended>
        ensures { NotUsage result }
    {
        let mut room = [0u8; TREE_BYTES];
        let given = self.input_tree(&mut room)?;
        let mut program = [0u8; PROGRAM_BYTES];
        match program_of(given.tree, &mut program) {
            Ok(program) => self.put_listing(program, Form::Numbers),
            Err(r) => {
                let to = &self.answers;
                let number = u32::from(r);
                self.answered(print!(to; "refused {number}\n"))?;
                Ok(Ended::Refused)
            }
        }
    }
}

impl<R: HasArguments + HasFiles, A: Print, M: Print> Session<'_, R, A, M> {
    // The form and the arguments after its option, if there is one.
    fn form_and_rest(&self, arguments: Arguments) -> (Form, Arguments) {
        if let Some((first, rest)) = arguments.split_first() {
            if let Some(form) = form_of(CommandWord::read_at(self.rt, first).bytes()) {
                return (form, rest);
            }
        }
        (Form::Numbers, arguments)
    }

    // A tree, or none for standard input.
    fn listed_tree<'a>(&self, arguments: Arguments, room: &'a mut Room) -> Work<Given<'a>> {
        if arguments.is_empty() {
            return self.input_tree(&mut room.tree);
        }
        self.tree(arguments, Behind::Nothing, room)
    }

    // The listing of a tree's program.
    pub(crate) fn list(&self, arguments: Arguments) -> Work<Ended> {
        let (form, rest) = self.form_and_rest(arguments);
        let mut room = Room::new();
        let given = self.listed_tree(rest, &mut room)?;
        let mut program = [0u8; PROGRAM_BYTES];
        match program_of(given.tree, &mut program) {
            Ok(program) => self.put_listing(program, form),
            Err(r) => Ok(self.refused(given.name, r)),
        }
    }
}

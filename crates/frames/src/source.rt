// Where a session's arguments and files come from: the runtime, or a list of arguments beside a runtime.
ghost use Rattle.std.specs.Io.{WritesAtMost};

use crate::listed::Argument;
use std::env::FillError;
use std::io::Input;
use std::rt::{Env, Files};

// Arguments by their places.
pub(crate) trait HasArguments {
    // Puts one at the start of a buffer, and answers its length.
    fn argument_at(&self, place: usize, buffer: &mut [u8]) -> Result<usize, FillError>
        ensures bound { WritesAtMost result buffer.new };

    // What it goes by.
    fn number_at(&self, place: usize) -> usize;
}

pub(crate) trait HasFiles {
    type Host: Files + Input;

    fn host(&self) -> &Self::Host;
}

impl<R: Env> HasArguments for R {
    fn argument_at(&self, place: usize, buffer: &mut [u8]) -> Result<usize, FillError> {
        self.arg(place, buffer)
    }

    fn number_at(&self, place: usize) -> usize {
        place
    }
}

impl<R: Files + Input> HasFiles for R {
    type Host = R;

    fn host(&self) -> &R {
        self
    }
}

// A list of arguments, and what has the files.
#[derive(Clone, Copy)]
pub(crate) struct Listed<'a, R> {
    pub host: &'a R,
    pub arguments: &'a [Argument],
}

impl<R> HasArguments for Listed<'_, R> {
    fn argument_at(&self, place: usize, buffer: &mut [u8]) -> Result<usize, FillError> {
        match self.arguments.get(place) {
            Some(argument) => argument.fill(buffer),
            None => Err(FillError::NotPresent),
        }
    }

    fn number_at(&self, place: usize) -> usize {
        match self.arguments.get(place) {
            Some(argument) => argument.number,
            None => place,
        }
    }
}

impl<R: Files + Input> HasFiles for Listed<'_, R> {
    type Host = R;

    fn host(&self) -> &R {
        self.host
    }
}

// What is read: a file, or standard input.
use std::fs::File;
use std::io::{Error, ErrorKind, Input, Read, Result};
use std::rt::Files;

#[derive(Drop)]
pub enum Source<F, I> {
    Named(F),
    Standard(I),
}

impl<F: Read, I: Read> Read for Source<F, I> {
    fn read(&mut self, buffer: &mut [u8]) -> Result<usize> {
        match self {
            Source::Named(file) => file.read(buffer),
            Source::Standard(input) => input.read(buffer),
        }
    }
}

// A file by name, or standard input for `-`, which stays open. The system's paths are text: another name is `InvalidFilename`.
pub fn open<R: Files + Input>(rt: &R, name: &[u8]) -> Result<Source<R::File, R::Reader>> {
    if name == b"-".as_slice() {
        return Ok(Source::Standard(rt.reader()));
    }
    match std::str::from_utf8(name) {
        Ok(path) => Ok(Source::Named(File::open(rt, path)?)),
        Err(_) => Err(Error::from(ErrorKind::InvalidFilename)),
    }
}

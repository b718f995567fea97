// Arguments in memory, in a list. Argument 0 is the program's name.
ghost use Rattle.std.specs.Prelude.{◌≡◌, ◌≤◌, ◌<◌, ℕ, [], length, slice_index_or, IfOk, IfErr};
ghost use Rattle.std.specs.Io.{WritesAtMost};
ghost use Rattle.frames.specs.declared.listed.Argument.{Argument};

use crate::argument::{ENAMETOOLONG, PATH};
use crate::typed::LINE_BYTES;
use std::env::FillError;
use std::io::{Error, Result};
use std::rt::Env;

// An argument, by its number. Its bytes need not be text; a longer one than there is room for has none.
#[derive(Drop)]
pub struct Argument {
    pub number: usize,
    bytes: Option<Vec<u8>>,
}

impl Argument {
    ghost use Rattle.frames.specs.Words.{bytes_up_to, word_of};

    fn up_to(&self, most: usize) -> Result<&[u8]>
        ensures bound { IfOk result (λ bytes. length bytes.now ≤ most) }
        ensures whole { IfOk result (λ bytes. bytes.now ≡ bytes_up_to most self.now.bytes) }
        ensures none { IfErr result (λ _. bytes_up_to most self.now.bytes ≡ []) }
    {
        match &self.bytes {
            Some(bytes) if bytes.len() <= most => Ok(bytes.as_slice()),
            _ => Err(Error::from_raw_os_error(ENAMETOOLONG)),
        }
    }

    // As a file's name.
    pub(crate) fn path(&self) -> Result<&[u8]>
        ensures bound { IfOk result (λ bytes. length bytes.now ≤ 4096) }
        ensures whole { IfOk result (λ bytes. bytes.now ≡ word_of self.now) }
        ensures none { IfErr result (λ _. word_of self.now ≡ []) }
    {
        self.up_to(PATH)
    }

    // As a typed line.
    pub(crate) fn line(&self) -> Result<&[u8]> {
        self.up_to(LINE_BYTES)
    }

    // As a word of the command. One that is longer than a path counts as an empty one.
    pub fn word(&self) -> &[u8]
        ensures bound { length result.now ≤ 4096 }
        ensures whole { result.now ≡ word_of self.now }
    {
        self.path().unwrap_or(b"")
    }

    // Puts its bytes at the start of a buffer, and answers their number.
    pub(crate) fn fill(&self, buffer: &mut [u8]) -> std::result::Result<usize, FillError>
        ensures bound { WritesAtMost result buffer.new }
    {
        match self.line() {
            Ok(bytes) if bytes.len() <= buffer.len() => {
                let size = bytes.len();
                buffer[..size].copy_from_slice(bytes);
                Ok(size)
            }
            _ => Err(FillError::TooLong),
        }
    }
}

// All arguments, in memory.
pub fn arguments(rt: &(impl Env + AllocGlobal)) -> Result<Vec<Argument>>
    ensures { IfOk result (λ all. (k : ℕ) (d : Argument) → k < length all.items → (slice_index_or all.items k d).number ≡ k) }
{
    let mut all = Vec::new(rt.alloc());
    let mut room = vec![in rt.alloc(); 0; LINE_BYTES]?;
    for number in 0..usize::MAX {
        let bytes = match rt.arg(number, &mut room) {
            Ok(n) => Some(Vec::from_slice(rt.alloc(), &room[..n])?),
            Err(FillError::TooLong) => None,
            Err(FillError::NotPresent) => break,
        };
        all.push(Argument { number, bytes })?;
    }
    Ok(all)
}

#[cfg(test)]
mod tests {
    use super::*;
    use crate::argument::{CommandWord, argument_count};
    use crate::{Ended, Session};
    use std::test::Fail;

    #[test]
    fn a_list_has_all_arguments(rt: HostRuntime) -> std::result::Result<(), Fail> {
        let all = arguments(&rt)?;
        assert_eq!(rt; all.len(), argument_count(&rt));
        let name = CommandWord::read(&rt, 0);
        let listed = all.as_slice();
        assert!(rt; !listed.is_empty());
        assert!(rt; listed[0].word() == name.bytes());
        assert_eq!(rt; listed[0].number, 0);
        Ok(())
    }

    fn listed(
        rt: &HostRuntime,
        number: usize,
        bytes: &[u8],
    ) -> std::result::Result<Argument, Fail> {
        let bytes = Some(Vec::from_slice(rt.alloc(), bytes)?);
        Ok(Argument { number, bytes })
    }

    #[test]
    fn a_list_is_a_command(rt: HostRuntime) -> std::result::Result<(), Fail> {
        let session = Session {
            rt: &rt,
            answers: rt.stdout(),
            messages: rt.stdout(),
        };
        let line = [
            listed(&rt, 3, b"size")?,
            listed(&rt, 4, b"--type")?,
            listed(&rt, 6, b"ethernet")?,
            listed(&rt, 8, b"ip or tcp")?,
        ];
        let line = line.as_slice();
        assert_eq!(rt; session.pft(line), Ended::Done);
        assert_eq!(rt; session.pft(&line[..3]), Ended::Usage);
        assert_eq!(rt; session.pft(&line[1..]), Ended::Usage);
        assert_eq!(rt; session.pft(&line[..0]), Ended::Usage);
        let size = [
            listed(&rt, 1, b"size")?,
            listed(&rt, 2, b"--type")?,
            listed(&rt, 4, b"raw")?,
            listed(&rt, 6, b"ip and")?,
        ];
        assert_eq!(rt; session.pft(size.as_slice()), Ended::Refused);
        Ok(())
    }

    #[test]
    fn an_argument_without_bytes_has_its_number(rt: HostRuntime) -> std::result::Result<(), Fail> {
        let session = Session {
            rt: &rt,
            answers: rt.stdout(),
            messages: rt.stdout(),
        };
        let absent = Argument {
            number: 9,
            bytes: None,
        };
        let list = [listed(&rt, 2, b"size")?, absent];
        assert!(rt; list[1].word().is_empty());
        assert_eq!(rt; session.pft(list.as_slice()), Ended::Failed);
        Ok(())
    }
}

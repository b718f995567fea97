// Files by name, into lent buffers or memory of their own; captures in windows of one lent buffer.
#![tactic(auto)]

mod source;
mod windows;

ghost use Rattle.std.specs.Prelude.{◌+◌, ◌≤◌, ◌<◌, ◌≡◌, length, take, vec_len, IfOk};
ghost use Rattle.std.specs.Io.{ReadsAtMost};

pub use source::{Source, open};
use std::io::{Input, Read, Result};
use std::rt::Files;
pub use windows::count;

// Reads once into the bytes from a place on, of which there are some, and answers how many came: none are the file's end.
pub fn read_from<R: Read>(reader: &mut R, buffer: &mut [u8], at: usize) -> Result<usize>
    requires { at < length buffer.old }
    ensures count_in_bounds { IfOk result (λ n. at + n ≤ length buffer.new) }
    ensures buffer_unchanged { take at buffer.new ≡ take at buffer.old }
{
    reader.read(&mut buffer[at..])
}

// Reads until the buffer is full or the file ends: no method of the library stops at either. Reader and buffer are the parameters of `Read`.
fn fill<R: Read>(reader: &mut R, buffer: &mut [u8]) -> Result<usize>
    ensures { ReadsAtMost result buffer.new }
{
    let mut done = 0;
    while done < buffer.len() {
        let n = read_from(reader, buffer, done)?;
        if n == 0 {
            break;
        }
        done += n;
    }
    Ok(done)
}

// The file of a name, as far as the buffer has room: how many bytes of it stand at the buffer's start.
pub fn read(rt: &(impl Files + Input), name: &[u8], buffer: &mut [u8]) -> Result<usize>
    ensures { ReadsAtMost result buffer.new }
{
    fill(&mut open(rt, name)?, buffer)
}

// The same in memory of its own, up to so many bytes.
pub fn read_up_to(
    rt: &(impl Files + Input + AllocGlobal),
    name: &[u8],
    most: usize,
) -> Result<Vec<u8>>
    ensures { IfOk result (λ bytes. vec_len bytes ≤ most) }
{
    let mut bytes = vec![in rt.alloc(); 0; most]?;
    let n = read(rt, name, &mut bytes)?;
    bytes.truncate(n);
    Ok(bytes)
}

#[cfg(test)]
mod tests {
    use super::*;
    use std::test::Fail;

    #[test]
    fn read_takes_no_more(rt: HostRuntime) -> std::result::Result<(), Fail> {
        let zeros = read_up_to(&rt, b"/dev/zero", 5)?;
        assert_eq!(rt; zeros.as_slice(), [0; 5].as_slice());
        Ok(())
    }
}

// What `pft` says, answers and messages on standard output, and its exit status, for each of several groups of arguments. A group ends with `;`.
#![tactic(auto)]

use frames::{Arguments, CommandLine, CommandWord, Session};
use std::io::{Print, Result};

// Writes the arguments of a group. One that is longer than a path shows as nothing.
fn put_words(rt: &HostRuntime, group: Arguments) -> Result<()> {
    for i in group.first..group.end {
        rt.write_all(b" ")?;
        rt.write_all(CommandWord::read(rt, i).bytes())?;
    }
    Ok(())
}

// The group's arguments, then what `pft` says of them.
fn answer(rt: &HostRuntime, group: Arguments) -> Result<()> {
    print!(rt; "# pft")?;
    put_words(rt, group)?;
    print!(rt; "\n")?;
    let session = Session {
        rt,
        answers: rt.stdout(),
        messages: rt.stdout(),
    };
    let status = session.pft_by_number(&CommandLine::read(rt, group)) as u8;
    println!(rt; "status {status}")
}

fn main(rt: HostRuntime) -> Result<()> {
    let mut first = 1;
    // What stands behind the last end is no group.
    for end in 1..frames::argument_count(&rt) {
        if CommandWord::read(&rt, end).bytes() == b";".as_slice() {
            answer(&rt, Arguments { first, end })?;
            first = end + 1;
        }
    }
    Ok(())
}

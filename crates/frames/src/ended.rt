// How the work ends, and the exit status.
ghost use Rattle.std.specs.Prelude.{◌≡◌, ◌≢◌, Err};
ghost use Rattle.frames.specs.Endings.{NotUsage};

// How the work ended, as the exit status has it. Where parts of it end differently the largest holds.
#[derive(Clone, Copy, Debug, PartialEq, Eq, PartialOrd, Ord)]
pub enum Ended {
    Done = 0,
    Refused = 1,
    Usage = 2,
    Failed = 3,
}

// A part of the work. An `Err` ends all of it.
pub type Work<T> = Result<T, Ended>;

// How work ended, whether or not that ended all of it.
pub fn how(work: Work<Ended>) -> Ended
    ensures usage { work ≡ Err Ended.Usage → result ≡ Ended.Usage }
    ensures other { NotUsage work → result ≢ Ended.Usage }
{
    match work {
        Ok(ended) | Err(ended) => ended,
    }
}

// The descriptor that takes the exit status, a digit. The scripts that start the program read it there: a program that was stopped has an
// exit status of its own too.
pub const STATUS_FILENO: i32 = 9;

pub fn tell(ended: Ended) {
    tell_on(STATUS_FILENO, ended);
}

pub fn tell_on(fd: i32, ended: Ended) {
    io::print_decimal(fd, ended as u64);
}

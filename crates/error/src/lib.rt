// The refusals, in the order of document 01's table and of the requests after it, and their numbers.
#![tactic(auto)]

ghost use Rattle.std.specs.Prelude.{◌≡◌, ◌≤◌, ◌<◌};
ghost use Rattle.error.specs.Answer.{number_of};

#[derive(Clone, Copy, Debug, PartialEq, Eq, PartialOrd, Ord, Hash)]
pub enum Refusal {
    StrangeFile = 1,
    WrongCount = 2,
    BadRecord = 3,
    NotOneTree = 4,
    KindOnRaw = 5,
    PortProtocol = 6,
    EtherOnRaw = 7,
    FarJump = 8,
    ShortBuffer = 9,
    LongFrame = 10,
    OddProgram = 11,
    NoCapture = 12,
    OtherLink = 13,
    CutFrame = 14,
    CookedAddress = 15,
    UnknownWord = 16,
    Unfinished = 17,
    TooLarge = 18,
    CountMoved = 19,
}

// The number, which is not 0 and takes a byte.
impl From<Refusal> for u32 {
    ghost from_gives = { λ refusal n. (n ≡ number_of refusal) × (1 ≤ n) × (n < 256) };

    fn from(refusal: Refusal) -> u32 {
        refusal as u32
    }
}

// The classic BPF machine's types: vm.rs.
#![tactic(auto)]

ghost use Rattle.std.specs.Prelude.{◌≡◌, ◌≤◌};
ghost use Rattle.vm.specs.Machine.{number_of_verdict};

#[derive(Clone, Copy, Debug, PartialEq, Eq)]
pub enum Verdict {
    Accepted = 1,
    Dropped = 2,
    Short = 3,
    Broken = 4,
}

// A run's verdict, and how many instructions it fetched.
#[derive(Clone, Copy, Debug, PartialEq, Eq)]
pub struct Outcome {
    pub verdict: Verdict,
    pub steps: u32,
}

// What one instruction does: it sets A, X or a scratch word, skips some of the following instructions, or ends the run.
#[derive(Clone, Copy, Debug, PartialEq, Eq)]
pub enum Effect {
    SetA(u32),
    SetX(u32),
    Store(u32, u32),
    Skip(u32),
    Stop(Verdict),
}

impl From<Verdict> for u32 {
    ghost from_gives = { λ verdict n. (n ≡ number_of_verdict verdict) × (n ≤ 4) };

    fn from(verdict: Verdict) -> u32 {
        verdict as u32
    }
}

// What is said of a typed line that is refused: the line with a mark under the place, and what could stand there.
#![tactic(auto)]

mod characters;
mod follow;
mod row;

pub use follow::put_followers;
pub use row::{Shown, show};

#[cfg(test)]
mod tests {
    use super::*;
    use std::test::Fail;

    #[test]
    fn followers_are_told(rt: HostRuntime) -> std::result::Result<(), Fail> {
        put_followers(&rt.stdout(), 1, b"tcp")?;
        Ok(())
    }
}

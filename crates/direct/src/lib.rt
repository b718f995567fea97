// The direct reading of a tree: what it says of a frame.
#![tactic(auto)]

use error::Refusal;

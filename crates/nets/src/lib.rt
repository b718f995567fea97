// A net in sixteen numbers: the masks of its eight segments, and what they leave of its address.
#![tactic(auto)]

ghost use Rattle.std.specs.Prelude.{◌≡◌, ◌<◌};
ghost use Rattle.codegen.specs.Emit as E;
ghost use Rattle.codegen.specs.Nets6 as N;
ghost use Rattle.nets.specs.Masks.{mask_at};

use std::array::from_fn;

// The bits of a segment.
const BITS: u8 = 16;

// The mask of a segment that counts whole.
pub const FULL: u16 = 0xffff;

// Two lists, as the definitions have them.
#[derive(Clone, Copy)]
pub struct Net6 {
    pub masks: [u16; 8],
    pub expected: [u16; 8],
}

// The mask of a segment's first p bits.
fn mask16(p: u32) -> u32
    requires { p < 16 }
    ensures { (result ≡ E.mask16 p) × (result < 65536) }
{
    65536 - (65536 >> p)
}

// The mask of segment i, where the first `full` segments count whole and `part` is the mask of the next.
fn mask_at(i: usize, full: usize, part: u16) -> u16
    ensures { result ≡ mask_at i full part }
{
    if i < full {
        return FULL;
    }
    if i == full { part } else { 0 }
}

fn masks_of(prefix: u8) -> [u16; 8]
    ensures { result ≡ N.masks prefix }
{
    let full = usize::from(prefix / BITS);
    let part = mask16(u32::from(prefix % BITS)) as u16;
    from_fn(|i| mask_at(i, full, part))
}

// The numbers of a net, worked out once, before any segment of either direction is walked.
pub fn net6_of(prefix: u8, segments: [u16; 8]) -> Net6
    ensures { (result.masks ≡ N.masks prefix) × (result.expected ≡ N.expected prefix segments) }
{
    let masks = masks_of(prefix);
    let expected = from_fn(|i| segments[i] & masks[i]);
    Net6 { masks, expected }
}

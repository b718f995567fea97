// One classic BPF instruction, bpf.rs `Insn`, the kernel's `struct sock_filter`; and numbers in bytes.
#![tactic(auto)]

ghost use Rattle.std.specs.Prelude.{◌≡◌, ◌+◌, ◌≤◌, length};
ghost use Rattle.bpf.specs.Bytes.{be, le_at};
ghost use Rattle.bpf.specs.Program.{insn_at};

#[derive(Clone, Copy, Debug, PartialEq, Eq)]
pub struct Insn {
    pub code: u16,
    pub jt: u8,
    pub jf: u8,
    pub k: u32,
}

// The big-endian numbers at a place. These and the little-endian ones are four functions: one over width and order would hide that each is a
// conversion of the library.
#[tactic(auto, unfolding(crate::specs::Bytes::be))]
pub fn be_u16(bytes: &[u8], at: usize) -> u16
    requires { at + 2 ≤ length bytes.now }
    ensures { result ≡ be 2 at bytes.now }
{
    let pair = [bytes[at], bytes[at + 1]];
    u16::from_be_bytes(pair)
}

#[tactic(auto, unfolding(crate::specs::Bytes::be))]
pub fn be_u32(bytes: &[u8], at: usize) -> u32
    requires { at + 4 ≤ length bytes.now }
    ensures { result ≡ be 4 at bytes.now }
{
    let four = [bytes[at], bytes[at + 1], bytes[at + 2], bytes[at + 3]];
    u32::from_be_bytes(four)
}

// The little-endian numbers.
#[tactic(auto, unfolding(crate::specs::Bytes::le_at))]
pub fn le_u16(bytes: &[u8], at: usize) -> u16
    requires { at + 2 ≤ length bytes.now }
    ensures { result ≡ le_at 2 at bytes.now }
{
    let pair = [bytes[at], bytes[at + 1]];
    u16::from_le_bytes(pair)
}

#[tactic(auto, unfolding(crate::specs::Bytes::le_at))]
pub fn le_u32(bytes: &[u8], at: usize) -> u32
    requires { at + 4 ≤ length bytes.now }
    ensures { result ≡ le_at 4 at bytes.now }
{
    let four = [bytes[at], bytes[at + 1], bytes[at + 2], bytes[at + 3]];
    u32::from_le_bytes(four)
}

// The instruction whose bytes start at a place.
#[tactic(auto, unfolding(crate::specs::Program::insn_at))]
pub fn insn_at(bytes: &[u8], at: usize) -> Insn
    requires { at + 8 ≤ length bytes.now }
    ensures { result ≡ insn_at at bytes.now }
{
    Insn {
        code: le_u16(bytes, at),
        jt: bytes[at + 2],
        jf: bytes[at + 3],
        k: le_u32(bytes, at + 4),
    }
}

// A program's instructions as bytes in a lent buffer.
#![tactic(auto)]

ghost use Rattle.std.specs.Prelude.{◌≡◌, ◌++◌, ◌*◌, ◌≤◌, length, drop};
ghost use Rattle.bpf.specs.Program.{insn_bytes, program_bytes};

use bpf::Insn;

// "An instruction is 8 bytes, little-endian: 16-bit code, jt, jf, 32-bit k." Both types of a `From` would be of other crates.
fn bytes_of(insn: Insn) -> [u8; 8]
    ensures { result ≡ insn_bytes insn }
{
    let [code_low, code_high] = insn.code.to_le_bytes();
    let [k0, k1, k2, k3] = insn.k.to_le_bytes();
    [code_low, code_high, insn.jt, insn.jf, k0, k1, k2, k3]
}

// Writes instructions from the buffer's start.
#[tactic(auto, unfolding(bpf::specs::Program::program_bytes))]
pub fn write_program(program: &mut [u8], insns: &[Insn])
    requires { 8 * length insns.now ≤ length program.old }
    ensures { program.new ≡ program_bytes insns.now ++ drop (8 * length insns.now) program.old }
{
    // By index: what is written through `chunks_exact_mut` is known by its length alone.
    for (i, insn) in insns.iter().enumerate() {
        let at = 8 * i;
        program[at..at + 8].copy_from_slice(&bytes_of(*insn));
    }
}

// A test that is not one of the generator's.
ghost use Rattle.std.specs.Prelude.{◌≤◌};
ghost use Rattle.std.proofs.Common.{rules};
ghost use Rattle.codegen.specs.declared.Width.TheVariants.{Byte};
ghost use Rattle.codegen.specs.Emit as E;

use super::*;
use bpf::Insn;
use emit::Patch;
use std::test::Fail;

// A byte that has to be one number.
#[derive(Clone, Copy)]
struct OneByte(u32);

impl Check for OneByte {
    ghost block = { λ byte off. E.check Byte off byte.0 };

    ghost most = { 2 };

    ghost few = { Prim.search rules };

    fn check(&self, e: &mut Emitter<'_>, off: u32) {
        e.check(Width::Byte, off, self.0);
    }
}

// How many lines, successes and failures both sides of a test add to nothing.
fn added<C: Check>(dir: Dir, test: &C) -> (usize, usize, usize)
    requires { C.most ≤ 4 }
{
    let blank = Insn {
        code: 0,
        jt: 0,
        jf: 0,
        k: 0,
    };
    let mut insns = [blank; 16];
    let mut success = [Patch::Jt(0); 16];
    let mut failure = [Patch::Jt(0); 16];
    let mut e = Emitter::new(LinkType::RawIp, &mut insns, &mut success, &mut failure);
    check_sides(&mut e, dir, test, 20, 30);
    (e.count, e.successes, e.failures)
}

#[test]
fn sides_of_a_byte(rt: HostRuntime) -> std::result::Result<(), Fail> {
    assert!(rt; added(Dir::Src, &OneByte(7)) == (2, 0, 1));
    assert!(rt; added(Dir::SrcAndDst, &OneByte(7)) == (4, 0, 2));
    assert!(rt; added(Dir::SrcOrDst, &OneByte(7)) == (5, 1, 1));
    Ok(())
}

#[test]
fn sides_of_an_address(rt: HostRuntime) -> std::result::Result<(), Fail> {
    let mac = Mac { four: 1, two: 2 };
    assert!(rt; added(Dir::Dst, &mac) == (4, 0, 2));
    assert!(rt; added(Dir::SrcOrDst, &mac) == (9, 1, 2));
    Ok(())
}

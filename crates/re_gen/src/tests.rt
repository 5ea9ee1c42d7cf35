//! Samples, beside their texts as they are worked out apart from the code.
use crate::sample;
use std::alloc::{AllocError, Global};
use std::process::Abort;
use std::test::Fail;

fn draws(
    rt: &impl Abort,
    alloc: Global,
    number: u64,
    size: u32,
    wanted: &[u8],
) -> Result<(), AllocError> {
    let (_, session) = sample(alloc, number, size)?;
    assert_eq!(rt; session.as_slice(), wanted);
    Ok(())
}

#[test]
fn the_program_has_fourteen_declarations(rt: HostRuntime) -> Result<(), Fail> {
    let (program, session) = sample(rt.alloc(), 7, 0)?;
    let wanted =
        b"device a;\ndevice b;\ndevice c;\nvar x: int = 0 in 1;\nvar y: int = 1 in 2;\nevent e: int;\nsignal p = (x + y);\nsignal q = (p / y);\nevent d = changed(q);\nfold n: int = 0 on d do (self + 1) in 3;\nfold m: int = 0 on e do recover((self + arg), 0) in 3;\ncounter k;\nset s: int;\nregister r: int = 0;\n";
    assert_eq!(&rt; program.as_slice(), wanted.as_slice());
    assert!(&rt; session.is_empty());
    Ok(())
}

#[test]
fn a_line_is_drawn(rt: HostRuntime) -> Result<(), Fail> {
    draws(&rt, rt.alloc(), 7, 1, b"turn b write r 68\n")?;
    Ok(())
}

#[test]
fn all_actions_are_drawn(rt: HostRuntime) -> Result<(), Fail> {
    let wanted =
        b"turn c insert s 1\nsettle c\nturn b add k 6\nturn b x = 48\nturn c remove s 13\nlazy b add k 1\nturn b write r 83\nturn c y = 1\nsend a\nturn b x = 192\ndeliver 0 a\nlazy a add k -7\ndeliver 0 c\nturn b fire e 25\n";
    draws(&rt, rt.alloc(), 770, 14, wanted)?;
    Ok(())
}

#[test]
fn large_numbers_count_by_their_last_bits(rt: HostRuntime) -> Result<(), Fail> {
    let wanted = b"settle c\nsend b\nturn b write r 80\nturn c fire e 34\n";
    draws(&rt, rt.alloc(), 0x7fff_ffff, 4, wanted)?;
    draws(&rt, rt.alloc(), u64::MAX, 4, wanted)?;
    Ok(())
}

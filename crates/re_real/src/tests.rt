//! Files in a folder of their own.
use crate::RealWorld;
use re_outside::{Failed, Outside};
use std::fs;
use std::test::Fail;

/// The folder of the test, beside which it runs.
const FOLDER: &str = "re_real_files";

/// What the first file of device 0 holds, at most eight bytes of it.
fn held(world: &mut RealWorld) -> ([u8; 8], Result<usize, Failed>) {
    let mut buf = [7; 8];
    let got = world.fetch(0, 0, 0, &mut buf);
    (buf, got)
}

/// Writes past the end, cuts, and forces the file to the disk.
fn change(world: &mut RealWorld) -> Result<(), Failed> {
    world.write(0, 0, 2, b"abc")?;
    world.write(0, 0, 1, b"")?;
    world.cut(0, 0, 9)?;
    world.cut(0, 0, 4)?;
    world.sync(0, 0)
}

#[test]
fn files_are_kept_under_a_lock(rt: HostRuntime) -> Result<(), Fail> {
    fs::create_dir(&rt, FOLDER)?;
    let mut first = RealWorld::in_folder(&rt, FOLDER);
    let mut second = RealWorld::in_folder(&rt, FOLDER);
    assert_eq!(rt; change(&mut first), Ok(()));
    assert_eq!(rt; second.size(0, 0), Err(Failed));
    assert_eq!(rt; second.write(0, 0, 0, b"zz"), Err(Failed));
    assert_eq!(rt; second.size(0, 1), Ok(0));
    drop(first);
    assert_eq!(rt; second.size(0, 0), Ok(4));
    assert_eq!(rt; second.fetch(0, 0, u64::MAX, &mut [0]), Ok(0));
    assert_eq!(rt; held(&mut second), ([0, 0, b'a', b'b', 7, 7, 7, 7], Ok(4)));
    drop(second);
    fs::remove_dir_all(&rt, FOLDER)?;
    Ok(())
}

#[test]
fn a_file_that_cant_be_made_is_a_failed_call(rt: HostRuntime) -> Result<(), Fail> {
    let mut world = RealWorld::in_folder(&rt, "re_real_files/missing");
    assert_eq!(rt; world.write(3, 1, 0, b"abc"), Err(Failed));
    assert_eq!(rt; world.sync(3, 1), Err(Failed));
    Ok(())
}

//! Runs over the files of a folder, and a further run over what they hold.
use re_outside::{Failed, Outside};
use re_real::RealWorld;
use re_tool::{Job, Status, session};
use std::alloc::Global;
use std::fs;
use std::test::Fail;

/// The folder of the test, beside which it runs.
const FOLDER: &str = "rescala_files";

/// The files of a folder, with an input and what is said in memory.
#[derive(Drop)]
struct Typed {
    files: RealWorld,
    input: Vec<u8>,
    at: usize,
    said: Vec<u8>,
    is_lost: bool,
}

impl Outside for Typed {
    ghost use Rattle.std.specs.Prelude.{false, refl};
    ghost use Rattle.re_real.specs.Counts.{seen_of, untold};

    ghost tells = { false };

    ghost seen = { λ t. seen_of t.files };

    ghost tells_always = { λ t. refl };

    ghost reads_left = { λ t device file told. untold told };

    fn take(&mut self, buf: &mut [u8]) -> Result<usize, Failed> {
        let start = self.at.min(self.input.len());
        let n = buf.len().min(self.input.len() - start);
        buf[..n].copy_from_slice(&self.input[start..start + n]);
        self.at = start + n;
        Ok(n)
    }

    fn say(&mut self, bytes: &[u8]) -> Result<usize, Failed> {
        if self.said.extend_from_slice(bytes).is_err() {
            self.is_lost = true;
        }
        Ok(bytes.len())
    }

    fn size(&mut self, device: u8, file: u8) -> Result<u64, Failed> {
        self.files.size(device, file)
    }

    fn fetch(&mut self, device: u8, file: u8, at: u64, buf: &mut [u8]) -> Result<usize, Failed> {
        self.files.fetch(device, file, at, buf)
    }

    fn write(&mut self, device: u8, file: u8, at: u64, bytes: &[u8]) -> Result<(), Failed> {
        self.files.write(device, file, at, bytes)
    }

    fn cut(&mut self, device: u8, file: u8, length: u64) -> Result<(), Failed> {
        self.files.cut(device, file, length)
    }

    fn sync(&mut self, device: u8, file: u8) -> Result<(), Failed> {
        self.files.sync(device, file)
    }
}

/// What a run over the folder's files says of this input; none where it isn't done or something was lost.
fn said(rt: &HostRuntime, alloc: Global, input: &[u8]) -> Result<Option<Vec<u8>>, Fail> {
    let mut typed = Typed {
        files: RealWorld::in_folder(rt, FOLDER),
        input: input.to_vec(alloc)?,
        at: 0,
        said: Vec::new(alloc),
        is_lost: false,
    };
    let status = session(alloc, &Job::Run, &mut typed);
    if status != Status::Done || typed.is_lost {
        return Ok(None);
    }
    Ok(Some(typed.said))
}

#[test]
fn a_second_run_knows_the_turns_of_the_first(rt: HostRuntime) -> Result<(), Fail> {
    fs::create_dir(&rt, FOLDER)?;
    let turn = b"device a; var x: int = 0;\n---\nturn a x = 5\n";
    let first = said(&rt, rt.alloc(), turn)?.ok_or("the first run isn't done")?;
    assert_eq!(rt; first.as_slice(), b"ok 1\n".as_slice());
    let look = b"device a; var x: int = 0;\n---\nget a x\n";
    let second = said(&rt, rt.alloc(), look)?.ok_or("the second run isn't done")?;
    assert_eq!(rt; second.as_slice(), b"5\n".as_slice());
    fs::remove_dir_all(&rt, FOLDER)?;
    Ok(())
}

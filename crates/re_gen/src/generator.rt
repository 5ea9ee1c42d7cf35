//! The program and the session of a sample.
ghost use Rattle.std.specs.Prelude.{◌≡◌, IfOk};
ghost use Rattle.re_outside.specs.Listed.{plain};
ghost use Rattle.re_gen.specs.SampleTexts.{sample_program, sample_session};

use crate::draws::Draws;
use crate::line::{draw_line, write_line};
use re_outside::Bytes;
use std::alloc::{AllocError, Global};

const PROGRAM: &[u8] = b"device a;\n\
    device b;\n\
    device c;\n\
    var x: int = 0 in 1;\n\
    var y: int = 1 in 2;\n\
    event e: int;\n\
    signal p = (x + y);\n\
    signal q = (p / y);\n\
    event d = changed(q);\n\
    fold n: int = 0 on d do (self + 1) in 3;\n\
    fold m: int = 0 on e do recover((self + arg), 0) in 3;\n\
    counter k;\n\
    set s: int;\n\
    register r: int = 0;\n";

/// The bytes of a program, and those of the session that a number draws for it, with `size` lines.
///
/// The same number and size give the same bytes: `docs/FORMATS.md` says which. The one refusal is
/// want of memory.
pub fn sample(alloc: Global, number: u64, size: u32) -> Result<(Bytes, Bytes), AllocError>
    ensures program { IfOk result (λ texts. texts.0 ≡ plain sample_program) }
    ensures session { IfOk result (λ texts. texts.1 ≡ plain (sample_session number size)) }
{
    let program = Bytes::from_slice(alloc, PROGRAM)?;
    let mut session = Vec::new(alloc);
    let mut draws = Draws::new(number);
    let mut sends = 0;
    for _done in 0..size {
        let line = draw_line(&mut draws, sends);
        if line.sends() {
            sends += 1;
        }
        write_line(&mut session, line)?;
        session.push(b'\n')?;
    }
    Ok((program, Bytes::from_vec(session)))
}

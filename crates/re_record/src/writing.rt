//! Bytes behind bytes.
ghost use Rattle.std.specs.Prelude.{◌≡◌, OnOk};
ghost use Rattle.re_wire.specs.Appended.{appended};

use re_outside::Bytes;
use std::alloc::AllocError;

/// Writes bytes behind the others. The one refusal is want of memory.
pub fn write(out: &mut Bytes, bytes: &[u8]) -> Result<(), AllocError>
    ensures { OnOk result (out.new ≡ appended out.old bytes.now) }
{
    for byte in bytes {
        out.push(*byte)?;
    }
    Ok(())
}

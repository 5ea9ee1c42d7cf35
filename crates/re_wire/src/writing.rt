//! Bytes behind bytes.
ghost use Rattle.std.specs.Prelude.{◌≡◌, ◌≤◌, length};
ghost use Rattle.re_wire.specs.Appended.{appended};

use re_outside::Bytes;

/// Writes bytes for which there is room.
pub fn append(out: &mut Bytes, bytes: &[u8])
    requires { length bytes.now ≤ out.old.spare }
    ensures { out.new ≡ appended out.old bytes.now }
{
    for byte in bytes {
        // It can't fail, as the spare says.
        let _ = out.push(*byte);
    }
}

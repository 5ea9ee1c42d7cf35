//! The names of devices by their numbers.
ghost use Rattle.std.specs.Prelude.{◌≡◌};
ghost use Rattle.re_tool.specs.Names.{device_name};

use re_terms::Program;

/// The name of the device with this number, found by a walk; the empty name where there is none.
pub fn device_name(p: &Program, device: u8) -> &[u8]
    ensures { result.now ≡ device_name p.now device }
{
    let mut before = device;
    for decl in p.decls.as_slice() {
        if decl.body.is_device() {
            if before == 0 {
                return decl.name.as_slice();
            }
            before -= 1;
        }
    }
    b""
}

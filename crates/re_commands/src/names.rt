//! What the names of a line stand for.
ghost use Rattle.std.specs.Prelude.{◌≡◌, ◌<◌, IfOk, true};
ghost use Rattle.re_terms.specs.Admission.{device_count, is_shown_at, is_shown_body};
ghost use Rattle.re_terms.specs.Programs.{IsProgram};
ghost use Rattle.re_commands.specs.Commanding.{device_of, device_number, shown_of};

use crate::CommandFault;
use re_terms::{Body, Program, Text, count_devices};
use re_types::place;

/// Whether a `get` may ask for it: a var, fold, signal, counter, register or set.
fn is_shown(body: &Body) -> bool
    ensures { result ≡ is_shown_body body.now }
{
    match body {
        Body::Device | Body::Symbol | Body::Event { .. } => false,
        Body::Changed { .. } | Body::Map { .. } | Body::Filter { .. } | Body::Either { .. } => {
            false
        }
        _ => true,
    }
}

/// The number of the device with this name.
pub fn device_of(p: &Program, name: &Text) -> Result<u8, CommandFault>
    requires { IsProgram p.now }
    ensures answer { result ≡ device_of p.now.decls.items name.now }
    ensures within { IfOk result (λ device. device < device_count p.now.decls.items) }
{
    let decls = p.decls.as_slice();
    let Some(id) = place(decls, name) else {
        return Err(CommandFault::Unknown);
    };
    if !decls[id].body.is_device() {
        return Err(CommandFault::Kind);
    }
    Ok(count_devices(&decls[..id]) as u8)
}

/// The id of what has this name and a `get` may ask for.
pub fn shown_of(p: &Program, name: &Text) -> Result<u16, CommandFault>
    requires { IsProgram p.now }
    ensures answer { result ≡ shown_of p.now.decls.items name.now }
    ensures shown { IfOk result (λ id. is_shown_at p.now.decls.items id ≡ true) }
{
    let decls = p.decls.as_slice();
    let Some(id) = place(decls, name) else {
        return Err(CommandFault::Unknown);
    };
    if !is_shown(&decls[id].body) {
        return Err(CommandFault::Kind);
    }
    Ok(id as u16)
}

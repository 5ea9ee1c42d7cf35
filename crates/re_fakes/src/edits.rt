//! Edits of a file's bytes in their place.
ghost use Rattle.std.specs.Prelude.{◌≡◌, ◌≤◌, ◌<◌, ◌+◌, ◌-◌, ◌^◌, ◌++◌, ◌∷◌, [], length, take, drop, replicate, OnOk, OnErr};
ghost use Rattle.re_outside.specs.Image.{written};

use re_outside::Bytes;
use std::alloc::AllocError;

/// Writes the bytes over those from place `at` on, behind zeros where that is past the end.
///
/// A write of no bytes leaves the file as it was. It takes time for the bytes and zeros that it
/// writes. The one refusal is want of memory, and leaves the file as it was.
pub(crate) fn write_over(file: &mut Bytes, at: usize, bytes: &[u8]) -> Result<(), AllocError>
    requires { at + length bytes.now < 2 ^ 64 }
    ensures ok { OnOk result (file.new.items ≡ written file.old.items at bytes.now) }
    ensures err { OnErr result (file.new ≡ file.old) }
{
    if bytes.is_empty() {
        return Ok(());
    }
    let end = at + bytes.len();
    file.reserve(end.saturating_sub(file.len()))?;
    fill_to(file, at, 0);
    lay_over(file, at, bytes);
    Ok(())
}

/// Makes the file at least this long, with this byte behind its end.
///
/// The one refusal is want of memory, and leaves the file as it was.
pub(crate) fn grow_to(file: &mut Bytes, size: usize, byte: u8) -> Result<(), AllocError>
    ensures ok { OnOk result (file.new.items ≡ file.old.items ++ replicate (size - length file.old.items) byte) }
    ensures err { OnErr result (file.new ≡ file.old) }
{
    file.reserve(size.saturating_sub(file.len()))?;
    fill_to(file, size, byte);
    Ok(())
}

/// Makes the file at least this long, with this byte behind its end, where it has room for it.
fn fill_to(file: &mut Bytes, size: usize, byte: u8)
    requires { size ≤ length file.old.items + file.old.spare }
    ensures items { file.new.items ≡ file.old.items ++ replicate (size - length file.old.items) byte }
    ensures room { length file.new.items + file.new.spare ≡ length file.old.items + file.old.spare }
{
    while file.len() < size {
        push_reserved(file, byte);
    }
}

/// Puts the bytes over those from place `at` on, which isn't past the end, where it has room.
fn lay_over(file: &mut Bytes, at: usize, bytes: &[u8])
    requires start { at ≤ length file.old.items }
    requires room { at + length bytes.now ≤ length file.old.items + file.old.spare }
    requires fits { at + length bytes.now < 2 ^ 64 }
    ensures { file.new.items ≡ take at file.old.items ++ bytes.now ++ drop (at + length bytes.now) file.old.items }
{
    for (i, byte) in bytes.iter().enumerate() {
        put(file, at + i, *byte);
    }
}

/// Puts a byte at place `i`, or behind the last one.
fn put(file: &mut Bytes, i: usize, byte: u8)
    requires start { i ≤ length file.old.items }
    requires room { i < length file.old.items + file.old.spare }
    ensures items { file.new.items ≡ take i file.old.items ++ byte ∷ drop (i + 1) file.old.items }
    ensures room { length file.new.items + file.new.spare ≡ length file.old.items + file.old.spare }
{
    if i < file.len() {
        file.set(i, byte);
    } else {
        push_reserved(file, byte);
    }
}

/// Puts a byte behind the others, where the file has room.
fn push_reserved(file: &mut Bytes, byte: u8)
    requires { 0 < file.old.spare }
    ensures { file.new ≡ record { items = file.old.items ++ byte ∷ []; spare = file.old.spare - 1 } }
{
    let _ = file.push(byte);
}

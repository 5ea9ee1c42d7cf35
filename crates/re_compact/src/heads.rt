//! What the front of a file says of it.
ghost use Rattle.std.specs.Prelude.{◌≡◌, ◌<◌, [], ℕ, List, take, length, IfOk, OnOk, OnErr, MatchResult};
ghost use Rattle.re_outside.specs.Image.{IsUnchanged};
ghost use Rattle.re_outside.specs.Outside.{Rose};
ghost use Rattle.re_outside.specs.Plan.{FailsOf};
ghost use Rattle.re_outside.specs.Trace.{content_of};
ghost use Rattle.re_outside.specs.declared.step.Call.TheVariants.{Fetch};
ghost use Rattle.re_compact.specs.Heads.{IsHead, HasFittingGeneration};

use re_outside::{Disk, Failed};

/// What the gate, the length and the generation of a file say of it.
#[derive(Clone, Copy, Debug, PartialEq, Eq)]
pub enum Head {
    /// The file is blank.
    Blank,
    /// Its length or its generation is cut off or not allowed, at this place.
    Bad { at: u64 },
    /// Both read, and this is its generation.
    Numbered { generation: u64 },
}

/// What the first 13 bytes of a file say of it, or all of them where it has fewer.
pub fn head_of(front: &[u8]) -> Head
    ensures head { (file : List ℕ) → front.now ≡ take 13 file → IsHead result file }
    ensures fits { HasFittingGeneration result }
{
    if front.len() < 2 || front[0] != 1 {
        return Head::Blank;
    }
    if front.len() < 5 {
        return Head::Bad { at: 1 };
    }
    let length = u32::from_be_bytes([front[1], front[2], front[3], front[4]]);
    if length < 8 || length > 131_072 {
        return Head::Bad { at: 1 };
    }
    if front.len() < 13 {
        return Head::Bad { at: 5 };
    }
    let generation = u64::from_be_bytes([
        front[5], front[6], front[7], front[8], front[9], front[10], front[11], front[12],
    ]);
    if generation < 1 || generation > 1 << 62 {
        return Head::Bad { at: 5 };
    }
    Head::Numbered { generation }
}

/// Reads the front of a file that has so many bytes. Nothing is read of a file of at most one byte, which is blank.
pub fn read_head<D: Disk>(disk: &mut D, file: u8, size: u64) -> Result<Head, Failed>
    requires { file < 2 }
    ensures head { D.tells → size ≡ length (content_of (D.past disk.old) file) → IfOk result (λ head. IsHead head (content_of (D.past disk.old) file)) }
    ensures fits { IfOk result HasFittingGeneration }
    ensures same { D.tells → OnOk result (D.past disk.new ≡ D.past disk.old) }
    ensures failed { D.tells → OnErr result (FailsOf Fetch file 0 [] IsUnchanged (D.past disk.old) (D.past disk.new)) }
    ensures device { (D.past disk.new).device ≡ (D.past disk.old).device }
    ensures rest { D.rest disk.new ≡ D.rest disk.old }
    ensures faults { MatchResult result (λ _. D.faults disk.new ≡ D.faults disk.old) (λ _. Rose (D.faults disk.old) (D.faults disk.new)) }
{
    if size < 2 {
        return Ok(Head::Blank);
    }
    let mut front = [0; 13];
    let count = disk.fetch(file, 0, &mut front)?;
    Ok(head_of(&front[..count]))
}

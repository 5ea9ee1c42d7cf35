//! Registers as bytes.
ghost use Rattle.std.specs.Prelude.{◌≡◌, ◌^◌, ◌<◌, ◌≤◌, length};
ghost use Rattle.re_terms.specs.Spellings.{register_bytes};
ghost use Rattle.re_wire.specs.Appended.{appended};
ghost use Rattle.re_wire.specs.Reading.{Reads, writer_at, register_at};

use crate::WireFault;
use crate::numbers::{get_u8_below, get_u64_below};
use crate::words::{append_word, read_word, word_len};
use crate::writing::append;
use re_outside::Bytes;
use re_terms::{Kind, Shape, Word, Written};

/// Who wrote what, with this stamp.
#[tactic(auto, unfolding(crate::specs::Reading::writer_at))]
fn get_writer(
    bytes: &[u8],
    at: u32,
    shape: &Shape,
    kind: Kind,
    stamp: u64,
) -> Result<(Written, u32), WireFault>
    requires { length bytes.now < 2 ^ 32 }
    ensures { Reads result (writer_at shape.now kind stamp bytes.now at) }
{
    let (device, at_word) = get_u8_below(bytes, at, shape.devices)?;
    let (word, behind) = read_word(bytes, at_word, kind, false, shape.symbols)?;
    let written = Written {
        stamp,
        device,
        word,
    };
    Ok((written, behind))
}

/// A register of this kind, with this start word. Its stamp is below 2^52.
#[tactic(auto, unfolding(crate::specs::Reading::register_at))]
pub fn get_register(
    bytes: &[u8],
    at: u32,
    shape: &Shape,
    kind: Kind,
    start: Word,
) -> Result<(Written, u32), WireFault>
    requires { length bytes.now < 2 ^ 32 }
    ensures { Reads result (register_at shape.now kind start bytes.now at) }
{
    let (stamp, behind) = get_u64_below(bytes, at, 1 << 52)?;
    if stamp == 0 {
        let unwritten = Written {
            stamp: 0,
            device: 0,
            word: start,
        };
        return Ok((unwritten, behind));
    }
    get_writer(bytes, behind, shape, kind, stamp)
}

/// How many bytes a register takes.
#[tactic(auto, unfolding(re_terms::specs::Spellings::register_bytes))]
pub fn register_len(written: &Written) -> usize
    ensures len { result ≡ length (register_bytes written.now) }
    ensures bound { result ≤ 18 }
{
    if written.stamp == 0 {
        8
    } else {
        9 + word_len(written.word)
    }
}

/// Writes a register for which there is room.
#[tactic(auto, unfolding(re_terms::specs::Spellings::register_bytes))]
pub fn append_register(out: &mut Bytes, written: &Written)
    requires { length (register_bytes written.now) ≤ out.old.spare }
    ensures { out.new ≡ appended out.old (register_bytes written.now) }
{
    append(out, &written.stamp.to_be_bytes());
    if written.stamp != 0 {
        append(out, &[written.device]);
        append_word(out, written.word);
    }
}

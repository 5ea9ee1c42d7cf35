//! A file that is read from front to back.
ghost use Rattle.std.specs.Prelude.{◌≡◌, ◌+◌, ◌-◌, ◌<◌, ◌≤◌, vec_len};

/// How many bytes are fetched at once.
pub(crate) const PIECE: usize = 4_096;

/// A file that is read from front to back, each byte once, in pieces of fixed size.
#[derive(Drop)]
pub(crate) struct Reader {
    /// The number of the file.
    pub(crate) file: u8,
    /// How many bytes the file has.
    pub(crate) size: u64,
    /// The place of the next byte, counted from 0.
    pub(crate) place: u64,
    /// The piece in hand.
    pub(crate) piece: Vec<u8>,
    /// How many of its bytes are used up.
    pub(crate) used: usize,
    /// How many of its bytes are of the file.
    pub(crate) filled: usize,
    ghost file_is: { file < 2 },
    ghost piece_is: { vec_len piece ≡ 4096 },
    ghost used_is: { used ≤ filled },
    ghost filled_is: { filled ≤ 4096 },
    ghost place_is: { place + (filled - used) ≤ size },
}

//! What a journal knows.
ghost use Rattle.std.specs.Prelude.{◌+◌, ◌<◌, ◌^◌};

/// The journal of a device's store: where the next record goes, and what is known of the device's two files.
///
/// Places and lengths count bytes. A journal of a blank file starts at 0 and has its gate at 0. Once a call of it has failed, the
/// journal has stopped: commits and layings then make no more calls. docs/FORMATS.md has the layout of a file.
#[derive(Drop)]
pub struct Journal {
    /// The number of its own file, 0 or 1.
    pub file: u8,
    /// The place of the gate behind its snapshot, 0 where its file is blank.
    pub start: u64,
    /// The place of its closed gate, behind the last record; 0 where its file is blank.
    pub gate: u64,
    /// How many bytes its own file has.
    pub length: u64,
    /// How many writes, cuts and syncs it has made; it stands still at 2^64 - 1.
    pub calls: u64,
    /// How many bytes the other file has.
    pub other_length: u64,
    /// Whether the other file is blank.
    pub other_blank: bool,
    /// The number of the call that failed, counted from 1, if one did.
    pub stopped: Option<u64>,
    ghost file_is: { file < 2 },
    ghost room: { gate + 1 < 2 ^ 64 },
}

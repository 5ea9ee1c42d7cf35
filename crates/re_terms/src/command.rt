//! Commands of a session, and their answers.
use crate::{Admitted, Pair, Seq, TryCopy, Word};
use std::alloc::{AllocError, Global};

/// A command. Devices and packets are counted from 0.
#[derive(Drop)]
pub enum Command {
    Turn { device: u8, turn: Admitted },
    Lazy { device: u8, turn: Admitted },
    Settle { device: u8 },
    Get { device: u8, id: u16 },
    Send { device: u8 },
    Deliver { packet: u64, device: u8 },
    Hex { packet: u64 },
    Crash { device: u8 },
    Restart { device: u8 },
}

/// The answer to a command.
#[derive(Drop)]
pub enum Answer {
    /// The entry has this number and is settled.
    Entered(u64),
    /// The entry has this number and is unsettled.
    Applied(u64),
    /// All entries up to this number are settled.
    Settled(u64),
    Value(Word),
    /// A set, by its pairs.
    Members(Seq<Pair>),
    /// The settled replicated state is the packet with this number.
    Packet(u64),
    /// The bytes of a packet.
    Hex(Seq<u8>),
    Down,
    /// The device is up again, with so many entries.
    Up(u64),
    /// A refusal, by its code.
    No(u8),
    /// The device is stopped since this call.
    StoppedAt(u64),
    /// The store is bad in this file, 0 or 1, at this place.
    BadFile { file: u8, at: u64 },
}

impl TryCopy for Command {
    fn copy(&self, alloc: Global) -> Result<Command, AllocError> {
        match self {
            Command::Turn { device, turn } => Ok(Command::Turn {
                device: *device,
                turn: turn.copy(alloc)?,
            }),
            Command::Lazy { device, turn } => Ok(Command::Lazy {
                device: *device,
                turn: turn.copy(alloc)?,
            }),
            Command::Settle { device } => Ok(Command::Settle { device: *device }),
            Command::Get { device, id } => Ok(Command::Get {
                device: *device,
                id: *id,
            }),
            Command::Send { device } => Ok(Command::Send { device: *device }),
            Command::Deliver { packet, device } => Ok(Command::Deliver {
                packet: *packet,
                device: *device,
            }),
            Command::Hex { packet } => Ok(Command::Hex { packet: *packet }),
            Command::Crash { device } => Ok(Command::Crash { device: *device }),
            Command::Restart { device } => Ok(Command::Restart { device: *device }),
        }
    }
}

impl TryCopy for Answer {
    fn copy(&self, alloc: Global) -> Result<Answer, AllocError> {
        match self {
            Answer::Entered(number) => Ok(Answer::Entered(*number)),
            Answer::Applied(number) => Ok(Answer::Applied(*number)),
            Answer::Settled(number) => Ok(Answer::Settled(*number)),
            Answer::Value(word) => Ok(Answer::Value(*word)),
            Answer::Members(pairs) => Ok(Answer::Members(pairs.copy(alloc)?)),
            Answer::Packet(number) => Ok(Answer::Packet(*number)),
            Answer::Hex(bytes) => Ok(Answer::Hex(bytes.copy(alloc)?)),
            Answer::Down => Ok(Answer::Down),
            Answer::Up(entries) => Ok(Answer::Up(*entries)),
            Answer::No(code) => Ok(Answer::No(*code)),
            Answer::StoppedAt(at) => Ok(Answer::StoppedAt(*at)),
            Answer::BadFile { file, at } => Ok(Answer::BadFile {
                file: *file,
                at: *at,
            }),
        }
    }
}

//! Lines as they are read.
use re_terms::{RawTurn, Text};

/// A line before its names are looked up. It lends its names from the tokens.
#[derive(Drop)]
pub enum RawLine<'a> {
    Turn { device: &'a Text, turn: RawTurn },
    Lazy { device: &'a Text, turn: RawTurn },
    Settle { device: &'a Text },
    Get { device: &'a Text, name: &'a Text },
    Send { device: &'a Text },
    Deliver { packet: u64, device: &'a Text },
    Hex { packet: u64 },
    Crash { device: &'a Text },
    Restart { device: &'a Text },
}

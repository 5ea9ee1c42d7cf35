//! Tokens of a text, with their places.
use crate::{Text, TryCopy};
use std::alloc::{AllocError, Global};

/// What a token is.
#[derive(Drop)]
pub enum Mark {
    /// A number, at most 2^63.
    Number(u64),
    /// A name of 1 to 32 bytes that is no reserved word.
    Name(Text),
    /// A reserved word, by its place from 0 in the list of reserved words.
    Reserved(u8),
    /// A sign, by its place from 0 in the list of signs.
    Sign(u8),
    /// The end of the text.
    End,
}

/// A token, and the place of its first byte in the text, counted from 0. The end's place is the text's length.
#[derive(Drop)]
pub struct Token {
    pub at: u32,
    pub mark: Mark,
}

impl TryCopy for Mark {
    fn copy(&self, alloc: Global) -> Result<Mark, AllocError> {
        match self {
            Mark::Number(number) => Ok(Mark::Number(*number)),
            Mark::Name(name) => Ok(Mark::Name(name.copy(alloc)?)),
            Mark::Reserved(place) => Ok(Mark::Reserved(*place)),
            Mark::Sign(place) => Ok(Mark::Sign(*place)),
            Mark::End => Ok(Mark::End),
        }
    }
}

impl TryCopy for Token {
    fn copy(&self, alloc: Global) -> Result<Token, AllocError> {
        Ok(Token {
            at: self.at,
            mark: self.mark.copy(alloc)?,
        })
    }
}

//! The steps that a run leaves outside, one for each call that is seen there.
ghost use Rattle.std.specs.Prelude.{◌≡◌, IfOk};

use crate::Bytes;
use std::alloc::{AllocError, Global};

/// The answer of a call to the outside that did not come through.
#[derive(Clone, Copy, Debug, PartialEq, Eq)]
pub struct Failed;

/// The kinds of calls to the outside.
#[derive(Clone, Copy, Debug, PartialEq, Eq)]
pub enum Call {
    Take,
    Say,
    Size,
    Fetch,
    Write,
    Cut,
    Sync,
}

/// What one call did outside. A device and a file are numbers, a place counts bytes from 0.
///
/// A `Fail` is a call that failed, with what it was asked. Its `content` is what reads of the
/// file give afterwards, and in a failed `Cut` its `at` is the length asked for. A field that
/// its kind of call doesn't need is 0 or empty.
#[derive(Drop)]
pub enum Step {
    Write {
        device: u8,
        file: u8,
        at: u64,
        bytes: Bytes,
    },
    Cut {
        device: u8,
        file: u8,
        length: u64,
    },
    Sync {
        device: u8,
        file: u8,
    },
    Say {
        bytes: Bytes,
    },
    Fail {
        call: Call,
        device: u8,
        file: u8,
        at: u64,
        bytes: Bytes,
        content: Bytes,
    },
}

impl Step {
    /// An equal step. The one refusal is want of memory.
    pub fn copy(&self, alloc: Global) -> Result<Step, AllocError>
        ensures { IfOk result (λ copied. copied ≡ self.now) }
    {
        Ok(match self {
            Step::Write {
                device,
                file,
                at,
                bytes,
            } => Step::Write {
                device: *device,
                file: *file,
                at: *at,
                bytes: bytes.copy(alloc)?,
            },
            Step::Cut {
                device,
                file,
                length,
            } => Step::Cut {
                device: *device,
                file: *file,
                length: *length,
            },
            Step::Sync { device, file } => Step::Sync {
                device: *device,
                file: *file,
            },
            Step::Say { bytes } => Step::Say {
                bytes: bytes.copy(alloc)?,
            },
            Step::Fail {
                call,
                device,
                file,
                at,
                bytes,
                content,
            } => Step::Fail {
                call: *call,
                device: *device,
                file: *file,
                at: *at,
                bytes: bytes.copy(alloc)?,
                content: content.copy(alloc)?,
            },
        })
    }
}

#[cfg(test)]
mod tests {
    use super::*;
    use std::test::Fail;

    #[test]
    fn copies_equal_their_sources(rt: HostRuntime) -> Result<(), Fail> {
        let mut bytes = Bytes::with_capacity(rt.alloc(), 2)?;
        bytes.reserve(3)?;
        bytes.push(1)?;
        bytes.insert(0, 2)?;
        bytes.push(3)?;
        bytes.set(2, 4);
        assert_eq!(rt; bytes.remove(1), 1);
        bytes.truncate(2);
        assert_eq!(rt; bytes.get(1), Some(&4));
        let fail = Step::Fail {
            call: Call::Write,
            device: 1,
            file: 0,
            at: 7,
            bytes: bytes.copy(rt.alloc())?,
            content: Bytes::from_slice(rt.alloc(), b"old".as_slice())?,
        };
        let copied = fail.copy(rt.alloc())?;
        if let Step::Fail {
            call,
            at,
            bytes,
            content,
            ..
        } = &copied
        {
            assert_eq!(rt; *call, Call::Write);
            assert_eq!(rt; *at, 7);
            assert_eq!(rt; bytes.as_slice(), [2, 4].as_slice());
            assert_eq!(rt; content.as_slice(), b"old".as_slice());
        }
        assert!(rt;
            matches!(
                copied,
                Step::Fail {
                    device: 1,
                    file: 0,
                    ..
                }
            )
        );
        assert!(rt; Bytes::from_vec(Vec::new(rt.alloc())).is_empty());
        Ok(())
    }
}

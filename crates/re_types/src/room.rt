//! The limits of programs.
ghost use Rattle.std.specs.Prelude.{◌≡◌, ◌<◌, ◌^◌, ◌+◌, if◌then◌else◌};
ghost use Rattle.re_terms.specs.Programs.{is_device_body, is_replicated_body};
ghost use Rattle.re_terms.specs.Cells.{is_cell_body};
ghost use Rattle.re_types.specs.Resolving.{has_room_behind, is_raw_device, is_raw_cell, is_raw_replicated};

use re_terms::{Body, RawBody};

const MAX_DECLARATIONS: usize = 512;

const MAX_DEVICES: usize = 16;

const MAX_CELLS: usize = 256;

const MAX_REPLICATED: usize = 32;

/// How many declarations of each sort that has a limit of its own.
#[derive(Clone, Copy, Debug)]
pub struct Counts {
    pub devices: usize,
    /// Vars and folds.
    pub cells: usize,
    /// Counters, sets and registers.
    pub replicated: usize,
}

fn is_device(body: &RawBody) -> bool
    ensures { result ≡ is_raw_device body.now }
{
    match body {
        RawBody::Device => true,
        _ => false,
    }
}

fn is_cell(body: &RawBody) -> bool
    ensures { result ≡ is_raw_cell body.now }
{
    match body {
        RawBody::Var { .. } | RawBody::Fold { .. } => true,
        _ => false,
    }
}

fn is_replicated(body: &RawBody) -> bool
    ensures { result ≡ is_raw_replicated body.now }
{
    match body {
        RawBody::Counter | RawBody::Set { .. } | RawBody::Register { .. } => true,
        _ => false,
    }
}

impl Counts {
    /// Whether one more declaration passes no limit, behind so many.
    pub fn has_room(&self, declarations: usize, body: &RawBody) -> bool
        ensures { result ≡ has_room_behind declarations self.now.devices self.now.cells self.now.replicated body.now }
    {
        declarations < MAX_DECLARATIONS
            && (!is_device(body) || self.devices < MAX_DEVICES)
            && (!is_cell(body) || self.cells < MAX_CELLS)
            && (!is_replicated(body) || self.replicated < MAX_REPLICATED)
    }

    /// Counts one more declaration.
    pub fn add(&mut self, body: &Body)
        requires devices { self.old.devices < 512 }
        requires cells { self.old.cells < 512 }
        requires replicated { self.old.replicated < 512 }
        ensures devices { self.new.devices ≡ self.old.devices + (if is_device_body body.now then 1 else 0) }
        ensures cells { self.new.cells ≡ self.old.cells + (if is_cell_body body.now then 1 else 0) }
        ensures replicated { self.new.replicated ≡ self.old.replicated + (if is_replicated_body body.now then 1 else 0) }
    {
        match body {
            Body::Device => self.devices += 1,
            Body::Var { .. } | Body::Fold { .. } => self.cells += 1,
            Body::Counter | Body::Set { .. } | Body::Register { .. } => self.replicated += 1,
            _ => {}
        }
    }
}

//! Sets of regions, as bits.
ghost use Rattle.std.specs.Prelude.{◌≡◌, ℕ, ◌<◌, ◌≤◌, ◌||◌, length, filter, slice_index, IfOk, Some};
ghost use Rattle.std.specs.List.{All, list_any, range_with_len};
ghost use Rattle.re_terms.specs.Listed.{plain};
ghost use Rattle.re_graph.specs.Footprint.{is_region};
ghost use Rattle.re_graph.specs.Kept.{has_bit};

use crate::node::Node;
use re_terms::Seq;
use std::alloc::{AllocError, Global};

/// How many regions there are.
const REGIONS: u8 = 5;

/// The regions of the cells behind some declarations.
pub fn joined(regions: &[u8], ids: &[u16]) -> u8
    requires declared { All (λ id. id < length regions.now) ids.now }
    ensures { (region : ℕ) → has_bit result region ≡ list_any (λ id. has_bit (slice_index regions.now id) region) ids.now }
{
    let mut bits = 0;
    for id in ids {
        bits |= regions[*id as usize];
    }
    bits
}

/// The regions of the cells behind a declaration, itself among them where it is one.
pub fn behind(regions: &[u8], node: &Node) -> u8
    requires declared { All (λ id. id < length regions.now) node.now.inputs.items }
    requires few { (region : ℕ) → node.now.region ≡ Some region → region ≤ 4 }
    ensures { (region : ℕ) → has_bit result region ≡ (is_region node.now.region region || list_any (λ id. has_bit (slice_index regions.now id) region) node.now.inputs.items) }
{
    let inputs = joined(regions, node.inputs.as_slice());
    match node.region {
        Some(region) => inputs | 1 << region,
        None => inputs,
    }
}

/// The regions of a set, ascending. The one refusal is want of memory.
pub fn list(alloc: Global, bits: u8) -> Result<Seq<u8>, AllocError>
    ensures { IfOk result (λ regions. regions ≡ plain (filter (has_bit bits) (range_with_len 0 5))) }
{
    let mut regions = Seq::new(alloc);
    for region in 0..REGIONS {
        if bits >> region & 1 == 1 {
            regions.push(region)?;
        }
    }
    Ok(regions)
}

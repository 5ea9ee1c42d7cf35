//! How many elements sets have.
ghost use Rattle.std.specs.Prelude.{◌≡◌, map, Some, slice_get, IfOk};
ghost use Rattle.re_terms.specs.Views.{cell_size};
ghost use Rattle.re_prop.specs.Sets.{HasSets};

use re_awset::size;
use re_terms::RCell;
use std::alloc::{AllocError, Global};

/// How many elements the set at a place has, and 0 where there is none.
///
/// The condition is that the pairs of each set ascend, at most 1,024.
pub fn size_at(cells: &[RCell], place: usize) -> u32
    requires { HasSets cells.now }
    ensures { result ≡ cell_size (slice_get cells.now place) }
{
    match cells.get(place) {
        Some(RCell::Set(pairs)) => size(pairs),
        _ => 0,
    }
}

/// The sizes of the sets among replicated cells, and 0 for the others. The one refusal is want of memory.
pub fn sizes(alloc: Global, cells: &[RCell]) -> Result<Vec<u32>, AllocError>
    requires { HasSets cells.now }
    ensures { IfOk result (λ sizes. sizes.items ≡ map (λ c. cell_size (Some c)) cells.now) }
{
    let mut sizes = Vec::new(alloc);
    'sizing: for place in 0..cells.len() {
        sizes.push(size_at(cells, place))?;
    }
    Ok(sizes)
}

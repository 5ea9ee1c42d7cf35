//! Places of declarations in the order by level, and who names whom.
ghost use Rattle.std.specs.Prelude.{◌≡◌, ◌<◌, ◌≤◌, ◌==◌, ◌||◌, ◌&&◌, ℕ, length, slice_index, OnOk, IfOk};
ghost use Rattle.std.specs.List.{All, list_any};
ghost use Rattle.re_terms.specs.Dependencies.{IsOrdered};
ghost use Rattle.re_graph.specs.Kept.{is_among, list_at, IsOrderBy};
ghost use Rattle.re_terms.specs.Dependencies.{level as level_of};
ghost use Rattle.re_levels.specs.Places.{IsRanking, AreReaders};
ghost use Rattle.re_levels.specs.Ranks.{has_rank};

use crate::ranks::Ranks;
use re_graph::Graph;
use re_terms::{Seq, TryCopy};
use std::alloc::{AllocError, Global};

/// The order by level, each declaration's place in it, and for each declaration those that name it.
#[derive(Drop)]
pub struct Places {
    pub order: Seq<u16>,
    pub ranks: Vec<u16>,
    pub readers: Vec<Seq<u16>>,
}

/// The rank of each declaration.
fn ranks_of(alloc: Global, order: &[u16]) -> Result<Vec<u16>, AllocError>
    requires few { length order.now ≤ 512 }
    requires low { All (λ id. id < length order.now) order.now }
    ensures count { IfOk result (λ ranks. length ranks.items ≡ length order.now) }
    ensures ranks { IfOk result (λ ranks. (rank : ℕ) → rank < length order.now → ((other : ℕ) → other < length order.now → slice_index order.now other ≡ slice_index order.now rank → other ≡ rank) → slice_index ranks.items (slice_index order.now rank) ≡ rank) }
{
    let mut ranks = vec![in alloc; 0; order.len()]?;
    'ranking: for (rank, id) in order.iter().enumerate() {
        ranks[*id as usize] = rank as u16;
    }
    Ok(ranks)
}

/// Puts a declaration among the readers of each of its inputs.
fn link(readers: &mut Vec<Seq<u16>>, inputs: &[u16], id: u16) -> Result<(), AllocError>
    requires declared { All (λ input. input < length readers.old.items) inputs.now }
    ensures count { OnOk result (length readers.new.items ≡ length readers.old.items) }
    ensures linked { OnOk result ((input other : ℕ) → is_among (list_at readers.new.items input) other
        ≡ (is_among (list_at readers.old.items input) other || ((id == other) && is_among inputs.now input))) }
{
    for input in inputs {
        let found = &mut readers[*input as usize];
        found.push(id)?;
    }
    Ok(())
}

/// For each declaration those that name it.
fn readers_of(alloc: Global, g: &Graph, count: usize) -> Result<Vec<Seq<u16>>, AllocError>
    requires count { count ≡ length g.now }
    requires few { count ≤ 512 }
    requires ordered { IsOrdered g.now }
    ensures { IfOk result (λ readers. AreReaders g.now readers.items) }
{
    let mut readers = Vec::new(alloc);
    'making: for _id in 0..count {
        readers.push(Seq::new(alloc))?;
    }
    'linking: for id in 0..count {
        let inputs = g.inputs(id as u16);
        link(&mut readers, inputs.as_slice(), id as u16)?;
    }
    Ok(readers)
}

impl Places {
    /// The places of a graph's declarations. The one refusal is want of memory.
    pub fn of(alloc: Global, g: &Graph) -> Result<Places, AllocError>
        requires few { length g.now ≤ 512 }
        requires ordered { IsOrdered g.now }
        ensures ranking { IfOk result (λ places. IsRanking g.now places.order.items places.ranks.items) }
        ensures readers { IfOk result (λ places. AreReaders g.now places.readers.items) }
    {
        let order = g.order().copy(alloc)?;
        let ranks = ranks_of(alloc, order.as_slice())?;
        let readers = readers_of(alloc, g, order.len())?;
        Ok(Places {
            order,
            ranks,
            readers,
        })
    }
}

/// Puts the ranks of these declarations into the set.
pub fn mark(dirty: &mut Ranks, ranks: &[u16], ids: &[u16])
    requires declared { All (λ id. id < length ranks.now) ids.now }
    requires low { All (λ rank. rank < 512) ranks.now }
    ensures { (rank : ℕ) → has_rank dirty.new rank ≡ (has_rank dirty.old rank || list_any (λ id. slice_index ranks.now id == rank) ids.now) }
{
    for id in ids {
        dirty.insert(ranks[*id as usize]);
    }
}

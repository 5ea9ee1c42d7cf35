//! Graphs.
ghost use Rattle.std.specs.Prelude.{◌≡◌, ◌<◌, ◌≤◌, length, IfOk};
ghost use Rattle.std.specs.List.{All};
ghost use Rattle.re_terms.specs.Dependencies.{graph_of, inputs_at, level as level_of, reach as reach_of, IsOrdered, HasRegions};
ghost use Rattle.re_terms.specs.Listed.{plain};
ghost use Rattle.re_graph.specs.Footprint.{footprint as footprint_of};
ghost use Rattle.re_graph.specs.Kept.{IsOrderBy};

use crate::dependents::link;
use crate::layers;
use crate::levels::level_above;
use crate::node::Node;
use crate::pending::insert_all;
use crate::regions::{behind, joined, list};
use re_terms::{Program, Seq, TryCopy};
use std::alloc::{AllocError, Global};
use std::collections::BTreeSet;
use std::marker::Model;

/// The dependency graph of a program. Contracts see what each declaration names, and the regions of the cells.
///
/// Beside these it keeps each declaration's level, dependents and regions, so that no call grows with more than what it
/// reaches.
#[derive(Drop)]
pub struct Graph {
    nodes: Seq<Node>,
    levels: Seq<u16>,
    regions: Seq<u8>,
    dependents: Seq<Seq<u16>>,
    order: Seq<u16>,
}

impl Model for Graph {
    ghost use Rattle.std.specs.Prelude.{List, map};
    ghost use Rattle.re_terms.specs.Dependencies.{PlainNode};
    ghost use Rattle.re_graph.specs.Kept.{plain_node, IsKept};

    ghost Value = { List PlainNode };

    ghost view = { λ g. map plain_node g.nodes.items };

    ghost invariant = { λ g. IsKept (map plain_node g.nodes.items) g.levels.items g.regions.items g.dependents.items g.order.items };
}

impl Graph {
    /// The graph of a program of at most 512 declarations, each of which names earlier ones alone, with regions up to 4.
    ///
    /// Its work grows with the declarations and what they name. The one refusal is want of memory.
    pub fn build(alloc: Global, p: &Program) -> Result<Graph, AllocError>
        requires ordered { IsOrdered (graph_of p.now.decls.items) }
        requires few { length p.now.decls.items ≤ 512 }
        requires regions { HasRegions (graph_of p.now.decls.items) }
        ensures { IfOk result (λ graph. graph ≡ graph_of p.now.decls.items) }
    {
        let mut nodes = Seq::new(alloc);
        let mut levels = Vec::new(alloc);
        let mut regions = Vec::new(alloc);
        let mut dependents = Vec::new(alloc);
        'building: for (id, decl) in p.decls.as_slice().iter().enumerate() {
            let node = Node::of(alloc, decl)?;
            let inputs = node.inputs.as_slice();
            levels.push(level_above(&levels, inputs))?;
            regions.push(behind(&regions, &node))?;
            link(&mut dependents, inputs, id as u16)?;
            dependents.push(Seq::new(alloc))?;
            nodes.push(node)?;
        }
        let order = layers::order(alloc, &levels)?;
        Ok(Graph {
            nodes,
            levels: Seq::from_vec(levels),
            regions: Seq::from_vec(regions),
            dependents: Seq::from_vec(dependents),
            order,
        })
    }

    /// The level of a declaration: 0 without inputs, else 1 more than its inputs' greatest level.
    pub fn level(&self, id: u16) -> u32
        requires { id < length self.now }
        ensures { result ≡ level_of self.now id }
    {
        u32::from(self.levels.as_slice()[id as usize])
    }

    /// What a declaration names, in order of their places in its body.
    pub fn inputs(&self, id: u16) -> &Seq<u16>
        requires { id < length self.now }
        ensures { result.now.items ≡ inputs_at self.now id }
    {
        &self.nodes.as_slice()[id as usize].inputs
    }

    /// Each id once, ascending by level and, at one level, by id. Inputs come before what names them.
    pub fn order(&self) -> &Seq<u16>
        ensures { IsOrderBy (level_of self.now) (length self.now) result.now.items }
    {
        &self.order
    }

    /// The declarations that are touched, or have an input among these, and so on: each once, ascending.
    ///
    /// Its work grows with what it reaches alone. The one refusal is want of memory.
    pub fn reach(&self, alloc: Global, touched: &Seq<u16>) -> Result<Seq<u16>, AllocError>
        requires { All (λ id. id < length self.now) touched.now.items }
        ensures { IfOk result (λ reached. reached ≡ plain (reach_of self.now touched.now.items)) }
    {
        let mut pending = BTreeSet::new(alloc);
        insert_all(&mut pending, touched.as_slice())?;
        let dependents = self.dependents.as_slice();
        let mut reached = Seq::new(alloc);
        'reaching: while let Some(id) = pending.pop_first() {
            reached.push(id)?;
            insert_all(&mut pending, dependents[id as usize].as_slice())?;
        }
        Ok(reached)
    }

    /// The regions of all cells behind what is reached, ascending, each once.
    ///
    /// Its work grows with what it reaches alone. The one refusal is want of memory.
    pub fn footprint(&self, alloc: Global, touched: &Seq<u16>) -> Result<Seq<u8>, AllocError>
        requires { All (λ id. id < length self.now) touched.now.items }
        ensures { IfOk result (λ regions. regions ≡ plain (footprint_of self.now touched.now.items)) }
    {
        let reached = self.reach(alloc, touched)?;
        list(alloc, joined(self.regions.as_slice(), reached.as_slice()))
    }
}

impl TryCopy for Graph {
    /// An equal graph. The one refusal is want of memory.
    fn copy(&self, alloc: Global) -> Result<Graph, AllocError> {
        Ok(Graph {
            nodes: self.nodes.copy(alloc)?,
            levels: self.levels.copy(alloc)?,
            regions: self.regions.copy(alloc)?,
            dependents: self.dependents.copy(alloc)?,
            order: self.order.copy(alloc)?,
        })
    }
}

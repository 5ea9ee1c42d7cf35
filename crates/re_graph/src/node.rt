//! Declarations as the graph sees them.
ghost use Rattle.std.specs.Prelude.{◌≡◌, IfOk};
ghost use Rattle.re_terms.specs.Dependencies.{cell_region, node_of};
ghost use Rattle.re_graph.specs.Kept.{plain_node};

use crate::names::inputs;
use re_terms::{Body, Decl, Seq, TryCopy};
use std::alloc::{AllocError, Global};

/// What a declaration names, and its region where it is a cell.
#[derive(Drop)]
pub struct Node {
    pub inputs: Seq<u16>,
    pub region: Option<u8>,
}

/// The region of a cell: a var's or fold's own, and 0 for a replicated one.
fn region(body: &Body) -> Option<u8>
    ensures { result ≡ cell_region body.now }
{
    match body {
        Body::Var { region, .. } | Body::Fold { region, .. } => Some(*region),
        Body::Counter | Body::Set { .. } | Body::Register { .. } => Some(0),
        _ => None,
    }
}

impl Node {
    /// The node of a declaration. The one refusal is want of memory.
    pub fn of(alloc: Global, decl: &Decl) -> Result<Node, AllocError>
        ensures { IfOk result (λ node. plain_node node ≡ node_of decl.now) }
    {
        Ok(Node {
            inputs: inputs(alloc, &decl.body)?,
            region: region(&decl.body),
        })
    }
}

impl TryCopy for Node {
    fn copy(&self, alloc: Global) -> Result<Node, AllocError> {
        Ok(Node {
            inputs: self.inputs.copy(alloc)?,
            region: self.region,
        })
    }
}

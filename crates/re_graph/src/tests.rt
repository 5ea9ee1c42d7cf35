//! Small programs, and one of 512 declarations.
ghost use Rattle.std.specs.Prelude.{◌≡◌, ◌<◌, IfOk, IfSome, IsTrue};
ghost use Rattle.std.specs.List.{All};
ghost use Rattle.re_terms.specs.Dependencies.{graph_of};

use crate::Graph;
use crate::node::Node;
use re_terms::{Body, Decl, Expr, Kind, Op, Program, Seq, Text, TryCopy, Word};
use sqlite_items::Boxed;
use std::alloc::{AllocError, Global};
use std::test::Fail;

fn are_below(ids: &[u16], bound: usize) -> bool
    ensures { IsTrue result → All (λ id. id < bound) ids.now }
{
    ids.iter().all(|id| (*id as usize) < bound)
}

/// The graph of a program that is in order.
fn built(alloc: Global, p: &Program) -> Result<Option<Graph>, AllocError>
    ensures { IfOk result (λ built. IfSome built (λ graph. graph ≡ graph_of p.now.decls.items)) }
{
    if p.decls.len() > 512 {
        return Ok(None);
    }
    'looking: for (id, decl) in p.decls.as_slice().iter().enumerate() {
        let node = Node::of(alloc, decl)?;
        if !are_below(node.inputs.as_slice(), id) || node.region.unwrap_or(0) > 4 {
            return Ok(None);
        }
    }
    Ok(Some(Graph::build(alloc, p)?))
}

fn declare(alloc: Global, decls: &mut Seq<Decl>, body: Body) -> Result<(), AllocError> {
    decls.push(Decl {
        name: Text::new(alloc),
        body,
    })
}

fn sum(alloc: Global, left: Expr, right: Expr) -> Result<Expr, AllocError> {
    Ok(Expr::Bin {
        op: Op::Add,
        left: Boxed::new(alloc, left)?,
        right: Boxed::new(alloc, right)?,
    })
}

fn var(region: u8) -> Body {
    Body::Var {
        kind: Kind::Int,
        start: Word::Int(1),
        region,
    }
}

fn signal(expr: Expr) -> Body {
    Body::Signal {
        kind: Kind::Int,
        expr,
    }
}

const ONE: Expr = Expr::Lit(Word::Int(1));

/// A diamond (1 to 4), a fold that names itself (6), a second region (7), and replicated cells (9 and 11).
fn small(alloc: Global) -> Result<Program, AllocError> {
    let mut decls = Seq::new(alloc);
    declare(alloc, &mut decls, Body::Device)?;
    declare(alloc, &mut decls, var(1))?;
    declare(alloc, &mut decls, signal(sum(alloc, Expr::Name(1), ONE)?))?;
    declare(alloc, &mut decls, signal(sum(alloc, ONE, Expr::Name(1))?))?;
    let both = sum(alloc, Expr::Name(2), Expr::Name(3))?;
    declare(alloc, &mut decls, signal(both))?;
    declare(alloc, &mut decls, Body::Changed { of: 4 })?;
    let fold = Body::Fold {
        kind: Kind::Int,
        start: Word::Int(0),
        source: 5,
        expr: sum(alloc, Expr::Own, ONE)?,
        region: 1,
    };
    declare(alloc, &mut decls, fold)?;
    declare(alloc, &mut decls, var(2))?;
    let across = sum(alloc, Expr::Name(7), Expr::Name(1))?;
    declare(alloc, &mut decls, signal(across))?;
    declare(alloc, &mut decls, Body::Counter)?;
    let counted = sum(alloc, Expr::Name(9), Expr::Name(8))?;
    declare(alloc, &mut decls, signal(counted))?;
    declare(alloc, &mut decls, Body::Set { kind: Kind::Int })?;
    let has = Expr::Has {
        set: 11,
        element: Boxed::new(alloc, Expr::Arg)?,
    };
    let filter = Body::Filter {
        source: 5,
        expr: has,
    };
    declare(alloc, &mut decls, filter)?;
    let either = Body::Either { left: 5, right: 12 };
    declare(alloc, &mut decls, either)?;
    let map = Body::Map {
        source: 13,
        kind: Kind::Int,
        expr: Expr::Size(11),
    };
    declare(alloc, &mut decls, map)?;
    Ok(Program { decls })
}

/// A var, and 511 signals each of which names the one before it.
fn chain(alloc: Global) -> Result<Program, AllocError> {
    let mut decls = Seq::new(alloc);
    declare(alloc, &mut decls, var(4))?;
    for id in 0..511 {
        declare(alloc, &mut decls, signal(Expr::Name(id)))?;
    }
    Ok(Program { decls })
}

/// What is reached, and its footprint, where the graph is the program's and the ids are declared.
fn touch(
    alloc: Global,
    p: &Program,
    graph: &Graph,
    ids: &[u16],
) -> Result<Option<(Seq<u16>, Seq<u8>)>, AllocError>
    requires { graph.now ≡ graph_of p.now.decls.items }
{
    let touched = Seq::from_vec(ids.to_vec(alloc)?);
    if !are_below(touched.as_slice(), p.decls.len()) {
        return Ok(None);
    }
    let reached = graph.reach(alloc, &touched)?;
    let regions = graph.footprint(alloc, &touched)?;
    Ok(Some((reached, regions)))
}

/// A declaration's level, where the graph is the program's and the id is declared.
fn level_of(p: &Program, graph: &Graph, id: u16) -> Option<u32>
    requires { graph.now ≡ graph_of p.now.decls.items }
{
    if (id as usize) < p.decls.len() {
        Some(graph.level(id))
    } else {
        None
    }
}

#[test]
fn levels_and_order(rt: HostRuntime) -> Result<(), Fail> {
    let alloc = rt.alloc();
    let p = small(alloc)?;
    let graph = built(alloc, &p)?.ok_or("not in order")?.copy(alloc)?;
    let levels = [0u32, 0, 1, 1, 2, 3, 4, 0, 1, 0, 2, 0, 4, 5, 6];
    for (id, level) in levels.iter().enumerate() {
        assert_eq!(rt; level_of(&p, &graph, id as u16), Some(*level), "at {id}");
    }
    let order = [0u16, 1, 7, 9, 11, 2, 3, 8, 4, 10, 5, 6, 12, 13, 14];
    assert_eq!(rt; graph.order().as_slice(), order.as_slice());
    Ok(())
}

/// What is reached and the footprint of some ids are these.
fn reaches(
    alloc: Global,
    p: &Program,
    graph: &Graph,
    case: (&[u16], &[u16], &[u8]),
) -> Result<bool, AllocError>
    requires { graph.now ≡ graph_of p.now.decls.items }
{
    let Some((reached, regions)) = touch(alloc, p, graph, case.0)? else {
        return Ok(false);
    };
    Ok(reached.as_slice() == case.1 && regions.as_slice() == case.2)
}

#[test]
fn reach_and_footprint(rt: HostRuntime) -> Result<(), Fail> {
    let alloc = rt.alloc();
    let p = small(alloc)?;
    let graph = built(alloc, &p)?.ok_or("not in order")?;
    let cases: [(&[u16], &[u16], &[u8]); 9] = [
        (&[], &[], &[]),
        (&[0], &[0], &[]),
        (&[1], &[1, 2, 3, 4, 5, 6, 8, 10, 12, 13, 14], &[0, 1, 2]),
        (&[2], &[2, 4, 5, 6, 12, 13, 14], &[0, 1]),
        (&[6], &[6], &[1]),
        (&[7], &[7, 8, 10], &[0, 1, 2]),
        (&[10], &[10], &[0, 1, 2]),
        (&[11], &[11, 12, 13, 14], &[0, 1]),
        (&[13, 8, 13], &[8, 10, 13, 14], &[0, 1, 2]),
    ];
    for case in cases {
        assert!(rt; reaches(alloc, &p, &graph, case)?);
    }
    Ok(())
}

#[test]
fn a_program_at_the_limits(rt: HostRuntime) -> Result<(), Fail> {
    let alloc = rt.alloc();
    let p = chain(alloc)?;
    let graph = built(alloc, &p)?.ok_or("not in order")?;
    assert_eq!(rt; level_of(&p, &graph, 511), Some(511));
    for (touched, count) in [(0, 512), (300, 212), (511, 1)] {
        let found = touch(alloc, &p, &graph, &[touched])?.ok_or("not declared")?;
        assert_eq!(rt; found.0.len(), count, "of {touched}");
        assert_eq!(rt; found.1.as_slice(), [4u8].as_slice(), "of {touched}");
    }
    Ok(())
}

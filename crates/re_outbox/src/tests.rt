//! An outbox before and after a state is settled.
ghost use Rattle.std.specs.Prelude.{IfOk};
ghost use Rattle.re_terms.specs.Shapes.{FitsShape, IsShape};

use crate::Outbox;
use re_terms::{RKind, Seq, Shape};
use re_wire::decode;
use std::alloc::{AllocError, Global};
use std::process::Abort;
use std::test::Fail;

/// `device a; counter c;`.
fn counting(alloc: Global) -> Result<Shape, AllocError>
    ensures { IfOk result (λ shape. IsShape shape) }
{
    Ok(Shape {
        devices: 1,
        symbols: 0,
        cells: Seq::from_vec([RKind::Counter].to_vec(alloc)?),
    })
}

fn says(rt: &impl Abort, outbox: &Outbox, shape: &Shape, wanted: &[u8]) -> Result<(), AllocError>
    requires shape { IsShape shape.now }
    requires fits { FitsShape shape.now outbox.now }
{
    let packet = outbox.packet(shape)?;
    assert_eq!(rt; packet.as_slice(), wanted);
    Ok(())
}

#[test]
fn what_is_settled_is_sent(rt: HostRuntime) -> Result<(), Fail> {
    let alloc = rt.alloc();
    let shape = counting(alloc)?;
    let start = [
        1, 0, 0, 0, 0, 0, 0, 0, 0, 0, 0, 0, 0, 0, 0, 0, 0, 0, 0, 0, 0, 0, 0, 0, 0,
    ];
    let seven = [
        1, 0, 0, 0, 0, 0, 0, 0, 1, 0, 0, 0, 0, 0, 0, 0, 7, 0, 0, 0, 0, 0, 0, 0, 0,
    ];
    let mut outbox = Outbox::new(alloc, decode(alloc, &start, &shape)?);
    says(&rt, &outbox, &shape, &start)?;
    outbox.settled(decode(alloc, &seven, &shape)?);
    says(&rt, &outbox, &shape, &seven)?;
    Ok(())
}

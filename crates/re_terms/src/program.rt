//! Programs.
use crate::{Expr, Kind, Seq, Text, TryCopy, Word};
use std::alloc::{AllocError, Global};

/// What a declaration declares. Ids are places in the program's list, and stand before the declaration's own.
#[derive(Drop)]
pub enum Body {
    Device,
    Symbol,
    Var {
        kind: Kind,
        start: Word,
        region: u8,
    },
    Event {
        kind: Kind,
    },
    Signal {
        kind: Kind,
        expr: Expr,
    },
    Changed {
        of: u16,
    },
    Map {
        source: u16,
        kind: Kind,
        expr: Expr,
    },
    Filter {
        source: u16,
        expr: Expr,
    },
    Either {
        left: u16,
        right: u16,
    },
    Fold {
        kind: Kind,
        start: Word,
        source: u16,
        expr: Expr,
        region: u8,
    },
    Counter,
    Set {
        kind: Kind,
    },
    Register {
        kind: Kind,
        start: Word,
    },
}

/// A declaration: a name of 1 to 32 bytes, and what it declares.
#[derive(Drop)]
pub struct Decl {
    pub name: Text,
    pub body: Body,
}

/// A program: its declarations, in order.
#[derive(Drop)]
pub struct Program {
    pub decls: Seq<Decl>,
}

impl TryCopy for Body {
    fn copy(&self, alloc: Global) -> Result<Body, AllocError> {
        match self {
            Body::Device => Ok(Body::Device),
            Body::Symbol => Ok(Body::Symbol),
            Body::Var {
                kind,
                start,
                region,
            } => Ok(Body::Var {
                kind: *kind,
                start: *start,
                region: *region,
            }),
            Body::Event { kind } => Ok(Body::Event { kind: *kind }),
            Body::Signal { kind, expr } => Ok(Body::Signal {
                kind: *kind,
                expr: expr.copy(alloc)?,
            }),
            Body::Changed { of } => Ok(Body::Changed { of: *of }),
            Body::Map { source, kind, expr } => Ok(Body::Map {
                source: *source,
                kind: *kind,
                expr: expr.copy(alloc)?,
            }),
            Body::Filter { source, expr } => Ok(Body::Filter {
                source: *source,
                expr: expr.copy(alloc)?,
            }),
            Body::Either { left, right } => Ok(Body::Either {
                left: *left,
                right: *right,
            }),
            Body::Fold {
                kind,
                start,
                source,
                expr,
                region,
            } => Ok(Body::Fold {
                kind: *kind,
                start: *start,
                source: *source,
                expr: expr.copy(alloc)?,
                region: *region,
            }),
            Body::Counter => Ok(Body::Counter),
            Body::Set { kind } => Ok(Body::Set { kind: *kind }),
            Body::Register { kind, start } => Ok(Body::Register {
                kind: *kind,
                start: *start,
            }),
        }
    }
}

impl TryCopy for Decl {
    fn copy(&self, alloc: Global) -> Result<Decl, AllocError> {
        Ok(Decl {
            name: self.name.copy(alloc)?,
            body: self.body.copy(alloc)?,
        })
    }
}

impl TryCopy for Program {
    fn copy(&self, alloc: Global) -> Result<Program, AllocError> {
        Ok(Program {
            decls: self.decls.copy(alloc)?,
        })
    }
}

#[cfg(test)]
mod tests {
    use super::*;
    use crate::Op;
    use sqlite_items::Boxed;
    use std::test::Fail;

    #[test]
    fn copies_a_program(rt: HostRuntime) -> Result<(), Fail> {
        let alloc = rt.alloc();
        let sum = Expr::Bin {
            op: Op::Add,
            left: Boxed::new(alloc, Expr::Name(0))?,
            right: Boxed::new(alloc, Expr::Lit(Word::Int(2)))?,
        };
        let mut decls = Seq::new(alloc);
        decls.push(Decl {
            name: Text::from_bytes(alloc, b"double")?,
            body: Body::Signal {
                kind: Kind::Int,
                expr: sum,
            },
        })?;
        let copied = Program { decls }.copy(alloc)?;
        assert!(rt; copied.decls.len() == 1);
        let decl = &copied.decls.as_slice()[0];
        assert_eq!(rt; decl.name.as_slice(), b"double".as_slice());
        assert!(rt;
            matches!(
                &decl.body,
                Body::Signal {
                    expr: Expr::Bin { op: Op::Add, .. },
                    ..
                }
            )
        );
        Ok(())
    }
}

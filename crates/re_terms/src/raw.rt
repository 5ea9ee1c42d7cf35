//! Programs and turns as they are read, before their names are looked up.
use crate::{Kind, RawExpr, RawLit, Seq, Text, TryCopy};
use std::alloc::{AllocError, Global};

/// What a declaration declares, with names as texts.
#[derive(Drop)]
pub enum RawBody {
    Device,
    Symbol,
    Var {
        kind: Kind,
        start: RawLit,
        region: u8,
    },
    Event {
        kind: Kind,
    },
    Signal {
        expr: RawExpr,
    },
    Changed {
        of: Text,
    },
    Map {
        source: Text,
        expr: RawExpr,
    },
    Filter {
        source: Text,
        expr: RawExpr,
    },
    Either {
        left: Text,
        right: Text,
    },
    Fold {
        kind: Kind,
        start: RawLit,
        source: Text,
        expr: RawExpr,
        region: u8,
    },
    Counter,
    Set {
        kind: Kind,
    },
    Register {
        kind: Kind,
        start: RawLit,
    },
}

/// A declaration: a name of 1 to 32 bytes, and what it declares.
#[derive(Drop)]
pub struct RawDecl {
    pub name: Text,
    pub body: RawBody,
}

/// A program as it is read: its declarations, in order.
#[derive(Drop)]
pub struct Tree {
    pub decls: Seq<RawDecl>,
}

/// A part of a turn, with names as texts.
#[derive(Drop)]
pub enum RawPart {
    Put { name: Text, lit: RawLit },
    Fire { name: Text, lit: RawLit },
    Add { name: Text, amount: i64 },
    Insert { name: Text, lit: RawLit },
    Remove { name: Text, lit: RawLit },
    Write { name: Text, lit: RawLit },
}

/// A turn as it is read: its parts, in order.
#[derive(Drop)]
pub struct RawTurn {
    pub parts: Seq<RawPart>,
}

impl TryCopy for RawBody {
    fn copy(&self, alloc: Global) -> Result<RawBody, AllocError> {
        match self {
            RawBody::Device => Ok(RawBody::Device),
            RawBody::Symbol => Ok(RawBody::Symbol),
            RawBody::Var {
                kind,
                start,
                region,
            } => Ok(RawBody::Var {
                kind: *kind,
                start: start.copy(alloc)?,
                region: *region,
            }),
            RawBody::Event { kind } => Ok(RawBody::Event { kind: *kind }),
            RawBody::Signal { expr } => Ok(RawBody::Signal {
                expr: expr.copy(alloc)?,
            }),
            RawBody::Changed { of } => Ok(RawBody::Changed {
                of: of.copy(alloc)?,
            }),
            RawBody::Map { source, expr } => Ok(RawBody::Map {
                source: source.copy(alloc)?,
                expr: expr.copy(alloc)?,
            }),
            RawBody::Filter { source, expr } => Ok(RawBody::Filter {
                source: source.copy(alloc)?,
                expr: expr.copy(alloc)?,
            }),
            RawBody::Either { left, right } => Ok(RawBody::Either {
                left: left.copy(alloc)?,
                right: right.copy(alloc)?,
            }),
            RawBody::Fold {
                kind,
                start,
                source,
                expr,
                region,
            } => Ok(RawBody::Fold {
                kind: *kind,
                start: start.copy(alloc)?,
                source: source.copy(alloc)?,
                expr: expr.copy(alloc)?,
                region: *region,
            }),
            RawBody::Counter => Ok(RawBody::Counter),
            RawBody::Set { kind } => Ok(RawBody::Set { kind: *kind }),
            RawBody::Register { kind, start } => Ok(RawBody::Register {
                kind: *kind,
                start: start.copy(alloc)?,
            }),
        }
    }
}

impl TryCopy for RawDecl {
    fn copy(&self, alloc: Global) -> Result<RawDecl, AllocError> {
        Ok(RawDecl {
            name: self.name.copy(alloc)?,
            body: self.body.copy(alloc)?,
        })
    }
}

impl TryCopy for Tree {
    fn copy(&self, alloc: Global) -> Result<Tree, AllocError> {
        Ok(Tree {
            decls: self.decls.copy(alloc)?,
        })
    }
}

impl TryCopy for RawPart {
    fn copy(&self, alloc: Global) -> Result<RawPart, AllocError> {
        match self {
            RawPart::Put { name, lit } => Ok(RawPart::Put {
                name: name.copy(alloc)?,
                lit: lit.copy(alloc)?,
            }),
            RawPart::Fire { name, lit } => Ok(RawPart::Fire {
                name: name.copy(alloc)?,
                lit: lit.copy(alloc)?,
            }),
            RawPart::Add { name, amount } => Ok(RawPart::Add {
                name: name.copy(alloc)?,
                amount: *amount,
            }),
            RawPart::Insert { name, lit } => Ok(RawPart::Insert {
                name: name.copy(alloc)?,
                lit: lit.copy(alloc)?,
            }),
            RawPart::Remove { name, lit } => Ok(RawPart::Remove {
                name: name.copy(alloc)?,
                lit: lit.copy(alloc)?,
            }),
            RawPart::Write { name, lit } => Ok(RawPart::Write {
                name: name.copy(alloc)?,
                lit: lit.copy(alloc)?,
            }),
        }
    }
}

impl TryCopy for RawTurn {
    fn copy(&self, alloc: Global) -> Result<RawTurn, AllocError> {
        Ok(RawTurn {
            parts: self.parts.copy(alloc)?,
        })
    }
}

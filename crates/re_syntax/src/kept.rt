//! Expressions that are read, as far as they are kept.

use re_terms::RawExpr;
use sqlite_items::Boxed;

/// An expression with its depth, or one that is deeper than a program allows and isn't kept.
#[derive(Drop)]
pub enum Kept {
    Whole(RawExpr, u8),
    TooDeep,
}

/// The two branches of a choice with the greater of their depths, or two of which one is too deep.
#[derive(Drop)]
pub enum Branches {
    Whole(Boxed<RawExpr>, Boxed<RawExpr>, u8),
    TooDeep,
}

//! The types of programs, expressions, words, states and lists, and the definitions that contracts cite.
#![tactic(auto)]

pub mod command;
pub mod copying;
pub mod entry;
pub mod expr;
pub mod kind_laws;
pub mod kinds;
pub mod laws;
pub mod length_laws;
pub mod limits;
pub mod order;
pub mod places;
pub mod program;
pub mod raw;
pub mod raw_expr;
pub mod replicated;
pub mod reserved;
pub mod seq;
pub mod shape;
pub mod signs;
pub mod sorts;
#[cfg(test)]
mod tests;
pub mod text;
pub mod token;
pub mod vectors;
pub mod word;
pub mod world_laws;

pub use command::{Answer, Command};
pub use copying::TryCopy;
pub use entry::{Admitted, Entry, Logged, Put, State, Turn};
pub use expr::{Expr, Op};
pub use kinds::{allows, layout};
pub use laws::Replicated;
pub use order::{compare_words, same_word};
pub use places::Places;
pub use program::{Body, Decl, Program};
pub use raw::{RawBody, RawDecl, RawPart, RawTurn, Tree};
pub use raw_expr::{RawExpr, RawLit};
pub use replicated::{
    Act, Dot, Layout, Pair, RCell, RKind, RState, RepOp, Rows, SetFault, Shape, Vector, Written,
};
pub use seq::Seq;
pub use shape::replicated_kind;
pub use sorts::count_devices;
pub use text::Text;
pub use token::{Mark, Token};
pub use vectors::{covers, join_vectors};
pub use word::{Kind, Word};

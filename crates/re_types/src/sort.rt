//! What names stand for.
use re_terms::Kind;

/// What a declared name stands for.
#[derive(Clone, Copy, Debug, PartialEq, Eq)]
pub enum Sort {
    Device,
    /// A symbol, by its number from 0.
    Symbol(u16),
    /// A var, signal, fold, counter or register, by the kind of its word.
    Value(Kind),
    /// A set, by the kind of its elements.
    Set(Kind),
    /// An event, by the kind of its value.
    Event(Kind),
}

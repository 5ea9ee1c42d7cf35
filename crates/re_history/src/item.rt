//! Items of a board's list.

/// One item of a list: the number of its seat, its place among that seat's items, from 1, and the value that was added.
pub struct Item<T> {
    pub seat: u32,
    pub place: u32,
    pub value: T,
}

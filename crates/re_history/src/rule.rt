//! What the board's table keeps true, and what each kind of step tells. No value of the types of this file is made.
use crate::item::Item;
use atomic_table::{Join, Play, Split, TableRule};
use std::collections::LinkedList;

/// What only one place knows at a time: the whole list, the stop, and how many seats were made.
pub struct Pen<T> {
    pub items: LinkedList<Item<T>>,
    pub stop: Option<u64>,
    pub made: u32,
}

/// What a seat knows.
pub struct Chair<T> {
    pub number: u32,
    pub front: LinkedList<Item<T>>,
    pub own: LinkedList<Item<T>>,
    pub told: Option<u64>,
}

/// The writer has the pen, a seat has a chair, and a seat to which the writer lent its pen has both.
pub struct View<T> {
    pub pen: Option<Pen<T>>,
    pub chair: Option<Chair<T>>,
}

/// The rule of the table: one pen, a chair for each number, and no chair knows what the pen doesn't.
pub struct Law;

impl<T> TableRule<T, View<T>, ()> for Law {
    ghost use Rattle.re_history.specs.Rule.{Keeps, of_pen, first_pen};

    ghost holds = { λ _ s. Keeps s };

    ghost first = { λ _. of_pen first_pen };
}

/// Making: a new seat gets a chair with the next number.
pub struct Deal;

impl<T> Split<View<T>> for Deal {
    ghost use Rattle.re_history.specs.Rule.{one_more, next_chair};

    ghost left = { one_more };

    ghost right = { next_chair };
}

/// Copying: the pen goes apart from what is beside it.
pub struct Part;

impl<T> Split<View<T>> for Part {
    ghost use Rattle.re_history.specs.Rule.{without_pen, pen_alone};

    ghost left = { without_pen };

    ghost right = { pen_alone };
}

/// Joining: the pen comes to a chair, or back to the writer.
pub struct Take;

impl<T> Join<View<T>> for Take {
    ghost use Rattle.re_history.specs.Rule.{with_pen, nobody};

    ghost both = { with_pen };

    ghost spent = { nobody };
}

/// Counting: one more item, of the seat that has the pen.
pub struct Count;

impl<T> Play<T, View<T>> for Count {
    ghost use Rattle.std.specs.Prelude.{◌≡◌};
    ghost use Rattle.re_history.specs.Rule.{Counts};

    ghost then = { λ s v found w. Counts s.said v.0 w.0 × (w.1 ≡ v.1) };
}

/// Loading: the seat that has the pen sees the whole list, and the stop.
pub struct Look;

impl<T> Play<T, View<T>> for Look {
    ghost use Rattle.std.specs.Prelude.{◌≡◌};
    ghost use Rattle.re_history.specs.Rule.{Looks};

    ghost then = { λ s v found w. Looks v.0 w.0 × (w.1 ≡ v.1) };
}

/// Stopping: the pen is told the stop.
pub struct Halt;

impl<T> Play<T, View<T>> for Halt {
    ghost use Rattle.std.specs.Prelude.{◌≡◌};
    ghost use Rattle.re_history.specs.Rule.{halted};

    ghost then = { λ s v found w. (w.0 ≡ halted s.first v.0) × (w.1 ≡ v.1) };
}

//! The board, its writer and its seats.
ghost use Rattle.std.specs.Prelude.{◌≡◌, ◌<◌, ◌≤◌, ◌-◌, ◌^◌, [], length, Some, None, IfOk, OnOk};
ghost use mathlib.Core.List.{IsPrefix};
ghost use Rattle.re_history.specs.Items.{items_of, IsTold};
ghost use Rattle.re_history.specs.Boards.{new_writer, AreNewSeats, Agrees, appended, appended_seat, caught_up_seat};
ghost use Rattle.re_history.specs.Rule.{of_pen, empty_pen, pen_of, pen_alone, with_pen, without_pen};

use crate::rule::{Count, Deal, Halt, Law, Look, Part, Take, View};
use atomic_table::{Shared, Table};
use re_terms::Seq;
use std::alloc::{AllocError, Global};
use std::marker::Model;

/// What ties a writer and its seats. Contracts see which board it is.
#[derive(Drop)]
pub struct Board<T: Drop> {
    seats: u32,
    table: Table<T, View<T>, (), Law, Global>,
}

impl<T: Drop> Model for Board<T> {
    ghost use Rattle.std.specs.Prelude.{◌≡◌};
    ghost use Rattle.re_history.specs.Boards.{BoardName, board_name_code};

    ghost Value = { BoardName };

    ghost coded = { board_name_code };

    ghost view = { λ b. record { table = b.table.shared.table_id; seats = b.seats } };

    ghost invariant = { λ b. b.table.shared.table_id.words ≡ 2 };
}

/// Keeps the list and the stop. The list stands in the proofs alone; when it runs, the writer has its length.
#[derive(Drop)]
pub struct Writer<T> {
    seats: u32,
    count: u64,
    seat: atomic_table::Seat<T, View<T>>,
}

impl<T> Model for Writer<T> {
    ghost use Rattle.std.specs.Prelude.{◌≡◌, [], length};
    ghost use Rattle.re_history.specs.Boards.{Written, written_code};
    ghost use Rattle.re_history.specs.Rule.{of_pen, pen_of};

    ghost Value = { Written T };

    ghost coded = { written_code T.code };

    ghost view = { λ w. record { board = record { table = w.seat.table_id; seats = w.seats }; items = (pen_of w.seat.me.0).items; stop = (pen_of w.seat.me.0).stop } };

    ghost invariant = { λ w. (w.seat.me ≡ (of_pen (pen_of w.seat.me.0), [])) × (w.count ≡ length (pen_of w.seat.me.0).items) };
}

/// Has seen a beginning of the list. A thread may carry it.
#[derive(Drop)]
pub struct Seat<T> {
    seats: u32,
    seat: atomic_table::Seat<T, View<T>>,
}

impl<T> Model for Seat<T> {
    ghost use Rattle.std.specs.Prelude.{◌≡◌, ◌<◌, []};
    ghost use Rattle.re_history.specs.Boards.{Seated, seated_code};
    ghost use Rattle.re_history.specs.Rule.{of_chair, chair_of};

    ghost Value = { Seated T };

    ghost coded = { seated_code T.code };

    ghost view = { λ s. record { board = record { table = s.seat.table_id; seats = s.seats }; number = (chair_of s.seat.me.0).number; front = (chair_of s.seat.me.0).front; own = (chair_of s.seat.me.0).own; told = (chair_of s.seat.me.0).told } };

    ghost invariant = { λ s. (s.seat.me ≡ (of_chair (chair_of s.seat.me.0), [])) × ((chair_of s.seat.me.0).number < s.seats) };
}

impl<T: Drop> Board<T> {
    /// A board with an empty list and no stop, and so many seats in the order of their numbers, from 0.
    ///
    /// The one refusal is want of memory.
    pub fn new(alloc: Global, seats: u32) -> Result<(Board<T>, Writer<T>, Seq<Seat<T>>), AllocError>
        requires { (1 ≤ seats) × (seats ≤ 128) }
        ensures board { IfOk result (λ r. r.0.seats ≡ seats) }
        ensures writer { IfOk result (λ r. r.1 ≡ new_writer r.0) }
        ensures seats { IfOk result (λ r. AreNewSeats r.0 r.2.items) }
    {
        let (table, mut seat) = Table::of_words(alloc, &[0, 0], &())?;
        let dealt = deal(alloc, &table.shared, &mut seat, seats)?;
        let writer = Writer {
            seats,
            count: 0,
            seat,
        };
        Ok((Board { seats, table }, writer, Seq::from_vec(dealt)))
    }

    /// One item comes to the end of the list: with the seat's number, the seat's next place, from 1, and the value.
    ///
    /// The seat then has it among its own items, and has seen the whole list. What it was told of a stop stays.
    pub fn append(&self, writer: &mut Writer<T>, seat: &mut Seat<T>, value: &T)
        requires board { (writer.old.board ≡ self.now) × (seat.old.board ≡ self.now) }
        requires room { length writer.old.items < 2 ^ 32 - 1 }
        ensures writer { writer.new ≡ appended writer.old seat.old value.now }
        ensures seat { seat.new ≡ appended_seat writer.old seat.old value.now }
        ensures number { seat.old.number < self.now.seats }
        ensures before { Agrees writer.old seat.old }
        ensures front { IsPrefix seat.old.front seat.new.front }
        ensures own { items_of seat.new.number seat.new.front ≡ seat.new.own }
        ensures told { IsTold seat.old.told seat.new.told }
    {
        let shared = &self.table.shared;
        hand_over(shared, &mut writer.seat, &mut seat.seat);
        let count = writer.count;
        shared.compare_exchange_with::<Count>(&mut seat.seat, 0, count, count + 1, value);
        hand_over(shared, &mut seat.seat, &mut writer.seat);
        writer.count = count + 1;
    }

    /// The seat sees the whole list, and the stop, if there is one.
    pub fn catch_up(&self, writer: &mut Writer<T>, seat: &mut Seat<T>)
        requires board { (writer.old.board ≡ self.now) × (seat.old.board ≡ self.now) }
        ensures writer { writer.new ≡ writer.old }
        ensures seat { seat.new ≡ caught_up_seat writer.old seat.old }
        ensures number { seat.old.number < self.now.seats }
        ensures before { Agrees writer.old seat.old }
        ensures front { IsPrefix seat.old.front seat.new.front }
        ensures own { items_of seat.new.number seat.new.front ≡ seat.new.own }
        ensures told { IsTold seat.old.told seat.new.told }
    {
        let shared = &self.table.shared;
        hand_over(shared, &mut writer.seat, &mut seat.seat);
        shared.load::<Look>(&mut seat.seat, 0);
        hand_over(shared, &mut seat.seat, &mut writer.seat);
    }

    /// Stops the writer, once, at a call that is counted from 1. The seats hear of it as they catch up.
    pub fn stop(&self, writer: &mut Writer<T>, at: u64)
        requires board { writer.old.board ≡ self.now }
        requires first { writer.old.stop ≡ None }
        requires at { 1 ≤ at }
        ensures { writer.new ≡ record writer.old { stop = Some at } }
    {
        self.table.shared.store::<Halt>(&mut writer.seat, 1, at);
    }
}

// So many new seats.
fn deal<T: Drop>(
    alloc: Global,
    shared: &Shared<T, View<T>, (), Law>,
    first: &mut atomic_table::Seat<T, View<T>>,
    seats: u32,
) -> Result<Vec<Seat<T>>, AllocError>
    requires table { (first.old.table_id ≡ shared.now.table_id) × (0 < shared.now.table_id.words) }
    requires first { first.old.me ≡ (of_pen (empty_pen 0), []) }
    ensures first { OnOk result ((first.new.table_id ≡ first.old.table_id) × (first.new.me ≡ (of_pen (empty_pen seats), []))) }
    ensures seats { IfOk result (λ v. AreNewSeats record { table = first.old.table_id; seats = seats } v.items) }
{
    let mut dealt = Vec::new(alloc);
    for _ in 0..seats {
        dealt.push(Seat {
            seats,
            seat: shared.split_seat::<Deal>(first),
        })?;
    }
    Ok(dealt)
}

// The pen goes from one to the other.
fn hand_over<T: Drop>(
    shared: &Shared<T, View<T>, (), Law>,
    from: &mut atomic_table::Seat<T, View<T>>,
    to: &mut atomic_table::Seat<T, View<T>>,
)
    requires table { (from.old.table_id ≡ shared.now.table_id) × (to.old.table_id ≡ shared.now.table_id) × (0 < shared.now.table_id.words) }
    requires pen { from.old.me.0.pen ≡ Some (pen_of from.old.me.0) }
    ensures table { (from.new.table_id ≡ from.old.table_id) × (to.new.table_id ≡ to.old.table_id) }
    ensures from { from.new.me ≡ (without_pen from.old.me.0, from.old.me.1) }
    ensures to { to.new.me ≡ (with_pen to.old.me.0 (pen_alone from.old.me.0), to.old.me.1) }
{
    let pen = shared.split_seat::<Part>(from);
    shared.join_seat::<Take>(to, pen);
}

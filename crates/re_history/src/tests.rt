//! Items move between three seats, a stop comes, and a board of entries is named.
ghost use Rattle.std.specs.Prelude.{◌≡◌, ◌∷◌, [], None, Some, IfOk};
ghost use Rattle.re_history.specs.Boards.{new_writer, new_seat};
ghost use Rattle.re_history.specs.Sample.{ten, twenty, thirty, writer_with, seat_with};

use crate::{Board, Name, Seat, Writer};
use re_terms::{Entry, Seq, Turn};
use std::alloc::{AllocError, Global};
use std::marker::Brand;
use std::test::Fail;

// A board with its writer and its three seats.
#[derive(Drop)]
struct Table<T: Drop> {
    board: Board<T>,
    writer: Writer<T>,
    zero: Seat<T>,
    one: Seat<T>,
    two: Seat<T>,
}

// Parts the seats of a new board.
fn seated<T: Drop>(alloc: Global) -> Result<Table<T>, AllocError>
    ensures writer { IfOk result (λ t. t.writer ≡ new_writer t.board) }
    ensures zero { IfOk result (λ t. t.zero ≡ new_seat t.board 0) }
    ensures one { IfOk result (λ t. t.one ≡ new_seat t.board 1) }
    ensures two { IfOk result (λ t. t.two ≡ new_seat t.board 2) }
{
    let (board, writer, mut seats) = Board::new(alloc, 3)?;
    let two = seats.remove(2);
    let one = seats.remove(1);
    let zero = seats.remove(0);
    Ok(Table {
        board,
        writer,
        zero,
        one,
        two,
    })
}

// | step               | list       | front of 0 | of 1   | of 2       | stop | told to 0, 1, 2 |
// | seat 0 appends 10  | 10         | 10         |        |            |      |                 |
// | seat 2 appends 20  | 10, 20     | 10         |        | 10, 20     |      |                 |
// | seat 1 catches up  | 10, 20     | 10         | 10, 20 | 10, 20     |      |                 |
fn move_items(table: &mut Table<u64>)
    requires writer { table.old.writer ≡ new_writer table.old.board }
    requires zero { table.old.zero ≡ new_seat table.old.board 0 }
    requires one { table.old.one ≡ new_seat table.old.board 1 }
    requires two { table.old.two ≡ new_seat table.old.board 2 }
    ensures board { table.new.board ≡ table.old.board }
    ensures writer { table.new.writer ≡ writer_with table.old.board (ten ∷ twenty ∷ []) None }
    ensures zero { table.new.zero ≡ seat_with table.old.board 0 (ten ∷ []) (ten ∷ []) None }
    ensures one { table.new.one ≡ seat_with table.old.board 1 (ten ∷ twenty ∷ []) [] None }
    ensures two { table.new.two ≡ seat_with table.old.board 2 (ten ∷ twenty ∷ []) (twenty ∷ []) None }
{
    table.board.append(&mut table.writer, &mut table.zero, &10);
    table.board.append(&mut table.writer, &mut table.two, &20);
    table.board.catch_up(&mut table.writer, &mut table.one);
}

// | stop at call 7     | 10, 20     | 10         | 10, 20 | 10, 20     | 7    |                 |
// | seat 0 appends 30  | 10, 20, 30 | 10, 20, 30 | 10, 20 | 10, 20     | 7    |                 |
fn stop_and_append(table: &mut Table<u64>)
    requires writer { table.old.writer ≡ writer_with table.old.board (ten ∷ twenty ∷ []) None }
    requires zero { table.old.zero ≡ seat_with table.old.board 0 (ten ∷ []) (ten ∷ []) None }
    ensures board { table.new.board ≡ table.old.board }
    ensures writer { table.new.writer ≡ writer_with table.old.board (ten ∷ twenty ∷ thirty ∷ []) (Some 7) }
    ensures zero { table.new.zero ≡ seat_with table.old.board 0 (ten ∷ twenty ∷ thirty ∷ []) (ten ∷ thirty ∷ []) None }
    ensures others { (table.new.one ≡ table.old.one) × (table.new.two ≡ table.old.two) }
{
    table.board.stop(&mut table.writer, 7);
    table.board.append(&mut table.writer, &mut table.zero, &30);
}

// | seat 2 catches up  | 10, 20, 30 | 10, 20, 30 | 10, 20 | 10, 20, 30 | 7    | -, -, 7         |
// | seat 0 catches up  | 10, 20, 30 | 10, 20, 30 | 10, 20 | 10, 20, 30 | 7    | 7, -, 7         |
fn hear_of_the_stop(table: &mut Table<u64>)
    requires writer { table.old.writer ≡ writer_with table.old.board (ten ∷ twenty ∷ thirty ∷ []) (Some 7) }
    requires zero { table.old.zero ≡ seat_with table.old.board 0 (ten ∷ twenty ∷ thirty ∷ []) (ten ∷ thirty ∷ []) None }
    requires two { table.old.two ≡ seat_with table.old.board 2 (ten ∷ twenty ∷ []) (twenty ∷ []) None }
    ensures board { table.new.board ≡ table.old.board }
    ensures writer { table.new.writer ≡ table.old.writer }
    ensures zero { table.new.zero ≡ seat_with table.old.board 0 (ten ∷ twenty ∷ thirty ∷ []) (ten ∷ thirty ∷ []) (Some 7) }
    ensures one { table.new.one ≡ table.old.one }
    ensures two { table.new.two ≡ seat_with table.old.board 2 (ten ∷ twenty ∷ thirty ∷ []) (twenty ∷ []) (Some 7) }
{
    table.board.catch_up(&mut table.writer, &mut table.two);
    table.board.catch_up(&mut table.writer, &mut table.zero);
}

#[test]
fn items_move_between_seats(rt: HostRuntime) -> Result<(), Fail> {
    let mut table = seated::<u64>(rt.alloc())?;
    move_items(&mut table);
    stop_and_append(&mut table);
    hear_of_the_stop(&mut table);
    Ok(())
}

#[test]
fn boards_have_as_many_seats_as_asked(rt: HostRuntime) -> Result<(), Fail> {
    let (_board, _writer, seats) = Board::<u64>::new(rt.alloc(), 1)?;
    assert_eq!(rt; seats.len(), 1);
    let (_board, _writer, seats) = Board::<u64>::new(rt.alloc(), 128)?;
    assert_eq!(rt; seats.len(), 128);
    Ok(())
}

// An entry that one seat appends is what another sees, on the board of this name.
fn show_entry<N: Name>(table: &mut Table<Entry>, entry: &Entry)
    requires board { table.old.board ≡ N.board }
    requires writer { table.old.writer ≡ new_writer N.board }
    requires zero { table.old.zero ≡ new_seat N.board 0 }
    requires one { table.old.one ≡ new_seat N.board 1 }
    ensures zero { table.new.zero.own ≡ table.new.zero.front }
    ensures one { table.new.one.front ≡ record { seat = 0; place = 1; value = entry.now } ∷ [] }
{
    table
        .board
        .append(&mut table.writer, &mut table.zero, entry);
    table.board.catch_up(&mut table.writer, &mut table.one);
}

// Takes what may go to another thread.
fn may_cross<T: Send>(_value: &T) {}

// Takes what threads may share.
fn may_be_shared<T: Sync>(_value: &T) {}

#[test]
fn entries_are_shown(rt: HostRuntime) -> Result<(), Fail> {
    let alloc = rt.alloc();
    let mut table = seated::<Entry>(alloc)?;
    let entry = Entry::Turn(Turn {
        sets: Seq::new(alloc),
        fires: Seq::new(alloc),
        ops: Seq::new(alloc),
    });
    show_entry::<Brand>(&mut table, &entry);
    may_cross(&table.board);
    may_be_shared(&table.board);
    may_cross(&table.writer);
    may_cross(&table.zero);
    Ok(())
}

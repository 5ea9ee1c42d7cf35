//! Counters at their limits, and registers that two devices write.
use crate::{CounterFull, DotsSpent, add, assign, merge_rows, merge_written, total};
use re_terms::{Rows, Word, Written};
use std::test::Fail;

const NO_ROWS: Rows = Rows {
    plus: [0; 16],
    minus: [0; 16],
};

const UNWRITTEN: Written = Written {
    stamp: 0,
    device: 0,
    word: Word::Int(0),
};

#[test]
fn a_counter_is_full_at_its_limits(rt: HostRuntime) -> Result<(), Fail> {
    let mut rows = NO_ROWS;
    let steps = [
        (i64::MAX, Ok(())),
        (1, Err(CounterFull)),
        (-1, Ok(())),
        (i64::MIN, Err(CounterFull)),
    ];
    for (amount, answer) in steps {
        assert_eq!(rt; add(&mut rows, 0, amount), answer);
    }
    assert_eq!(rt; total(&rows), Word::Int(9223372036854775806));
    Ok(())
}

#[test]
fn a_sum_past_64_bits_is_a_fault(rt: HostRuntime) -> Result<(), Fail> {
    let mut a = NO_ROWS;
    let mut b = NO_ROWS;
    assert_eq!(rt; add(&mut a, 0, i64::MAX), Ok(()));
    assert_eq!(rt; add(&mut b, 1, i64::MAX), Ok(()));
    assert!(rt; merge_rows(&mut b, &a));
    assert_eq!(rt; total(&b), Word::Fault(1));
    assert!(rt; !merge_rows(&mut b, &a));
    Ok(())
}

#[test]
fn the_later_device_wins_a_register(rt: HostRuntime) -> Result<(), Fail> {
    let mut a = UNWRITTEN;
    let mut b = UNWRITTEN;
    assert_eq!(rt; assign(&mut a, 0, Word::Int(1)), Ok(()));
    assert_eq!(rt; assign(&mut b, 1, Word::Int(2)), Ok(()));
    let sent = a;
    assert!(rt; merge_written(&mut a, &b));
    assert!(rt; !merge_written(&mut b, &sent));
    assert_eq!(rt; a.word, Word::Int(2));
    assert_eq!(rt; b.word, Word::Int(2));
    a.stamp = 4503599627370494;
    assert_eq!(rt; assign(&mut a, 0, Word::Int(3)), Ok(()));
    assert_eq!(rt; assign(&mut a, 0, Word::Int(4)), Err(DotsSpent));
    assert_eq!(rt; a.word, Word::Int(3));
    Ok(())
}

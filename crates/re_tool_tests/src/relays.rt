//! Runs that go on with what a stop left of the one before.
use crate::running::{no_files, said_in};
use re_fakes::Choice;
use re_outside::Bytes;
use re_terms::Seq;
use re_tool::{Job, Leg, Relayed, relay};
use std::alloc::{AllocError, Global};
use std::test::Fail;

const PROGRAM: &[u8] = b"device a; var x: int = 0;\n---\n";

/// The lines of the runs.
const LINES: [&[u8]; 3] = [b"turn a x = 1\n", b"turn a x = 2\n", b"get a x\n"];

const CHOICES: [Choice; 4] = [Choice::Stable, Choice::Read, Choice::Sevens, Choice::Ones];

/// Where a run is stopped.
#[derive(Clone, Copy)]
struct Stop {
    steps: u64,
    choice: Choice,
}

/// The run of a line.
fn leg(alloc: Global, line: &[u8], stop: Stop) -> Result<Leg, AllocError> {
    let mut input = PROGRAM.to_vec(alloc)?;
    input.extend_from_slice(line)?;
    Ok(Leg {
        input: Bytes::from_vec(input),
        stop: stop.steps,
        choice: stop.choice,
    })
}

/// The runs of the lines, each with its stop.
fn relayed(alloc: Global, stops: &[Stop; 3]) -> Result<Option<Relayed>, AllocError> {
    let mut legs = Seq::new(alloc);
    for (line, stop) in LINES.iter().zip(stops.iter()) {
        legs.push(leg(alloc, *line, *stop)?)?;
    }
    relay(alloc, &Job::Run, &legs, no_files(alloc))
}

/// How many steps a run of a relay has, and what it says.
fn run_of(
    alloc: Global,
    relayed: &Relayed,
    place: usize,
) -> Result<Option<(usize, Vec<u8>)>, AllocError> {
    let Some(trace) = relayed.traces.get(place) else {
        return Ok(None);
    };
    Ok(Some((trace.len(), said_in(alloc, trace.as_slice())?)))
}

/// What the last run says where the first two are stopped so; none where one of them has too few steps.
fn last_answer(alloc: Global, first: Stop, second: Stop) -> Result<Option<Vec<u8>>, AllocError> {
    let last = Stop {
        steps: 3,
        choice: Choice::Read,
    };
    let Some(relayed) = relayed(alloc, &[first, second, last])? else {
        return Ok(None);
    };
    Ok(run_of(alloc, &relayed, 2)?.map(|(_, said)| said))
}

/// A row: two stops and what the last run says then.
#[derive(Clone, Copy)]
struct Row {
    first: Stop,
    second: Stop,
    said: Option<&'static [u8]>,
}

/// A stop behind so many steps.
fn at(steps: u64, choice: Choice) -> Stop {
    Stop { steps, choice }
}

const ROWS: [Row; 4] = [
    Row {
        first: Stop {
            steps: 12,
            choice: Choice::Stable,
        },
        second: Stop {
            steps: 5,
            choice: Choice::Read,
        },
        said: Some(b"2\n"),
    },
    Row {
        first: Stop {
            steps: 12,
            choice: Choice::Stable,
        },
        second: Stop {
            steps: 5,
            choice: Choice::Stable,
        },
        said: Some(b"1\n"),
    },
    Row {
        first: Stop {
            steps: 12,
            choice: Choice::Stable,
        },
        second: Stop {
            steps: 5,
            choice: Choice::Sevens,
        },
        said: Some(b"1\n"),
    },
    Row {
        first: Stop {
            steps: 12,
            choice: Choice::Stable,
        },
        second: Stop {
            steps: 8,
            choice: Choice::Read,
        },
        said: None,
    },
];

/// Whether the last run says this, or isn't reached.
fn says(alloc: Global, row: &Row) -> Result<bool, AllocError> {
    let found = last_answer(alloc, row.first, row.second)?;
    Ok(match (found, row.said) {
        (Some(found), Some(said)) => found.as_slice() == said,
        (None, None) => true,
        _ => false,
    })
}

#[test]
fn a_run_goes_on_with_what_was_left(rt: HostRuntime) -> Result<(), Fail> {
    for row in ROWS.iter() {
        assert!(rt; says(rt.alloc(), row)?);
    }
    Ok(())
}

/// How many steps the runs have where all are stopped at the end, and what the last says.
#[test]
fn all_steps_are_told(rt: HostRuntime) -> Result<(), Fail> {
    let stops = [
        at(12, Choice::Stable),
        at(5, Choice::Read),
        at(3, Choice::Read),
    ];
    let relayed = relayed(rt.alloc(), &stops)?.ok_or("a run is too short")?;
    for (place, steps) in [13usize, 7, 3].iter().enumerate() {
        let (count, _) = run_of(rt.alloc(), &relayed, place)?.ok_or("no run")?;
        assert_eq!(rt; count, *steps);
    }
    Ok(())
}

/// Whether a run of so many steps, whose last says its answer and the one before syncs the record's gate, keeps its turn.
fn keeps(steps: u64, stop: Stop) -> bool {
    let is_read = stop.choice == Choice::Read || stop.choice == Choice::Ones;
    steps <= stop.steps.saturating_add(1) || (steps == stop.steps.saturating_add(2) && is_read)
}

/// What the last run says behind these stops of the first two.
fn wanted(first: Stop, second: Stop, steps: u64) -> Option<&'static [u8]> {
    if second.steps > steps {
        return None;
    }
    if keeps(steps, second) {
        return Some(b"2\n");
    }
    Some(if keeps(13, first) { b"1\n" } else { b"0\n" })
}

/// Whether each stop of the second run, and one behind its end, leaves what it should.
fn are_kept(alloc: Global, first: Stop, steps: u64) -> Result<bool, AllocError> {
    for place in 0..=steps.saturating_add(1) {
        for choice in CHOICES.iter() {
            let second = at(place, *choice);
            let said = wanted(first, second, steps);
            if !says(
                alloc,
                &Row {
                    first,
                    second,
                    said,
                },
            )? {
                return Ok(false);
            }
        }
    }
    Ok(true)
}

/// How many steps the second run has behind this stop of the first.
fn second_steps(alloc: Global, first: Stop) -> Result<Option<u64>, AllocError> {
    let stops = [first, at(0, Choice::Read), at(0, Choice::Read)];
    let Some(relayed) = relayed(alloc, &stops)? else {
        return Ok(None);
    };
    Ok(run_of(alloc, &relayed, 1)?.map(|(steps, _)| steps as u64))
}

#[test]
fn each_stop_of_two_runs_keeps_what_was_answered(rt: HostRuntime) -> Result<(), Fail> {
    for place in 0..=13u64 {
        for choice in CHOICES.iter() {
            let first = at(place, *choice);
            let steps = second_steps(rt.alloc(), first)?.ok_or("a run is too short")?;
            assert!(rt; are_kept(rt.alloc(), first, steps)?);
        }
    }
    Ok(())
}

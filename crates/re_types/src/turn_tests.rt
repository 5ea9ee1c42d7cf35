//! Which parts are turns of a program, and which fault comes first.
//!
//! A turn is written as words that single blanks part: for each part what it does, its name and its
//! literal. The program is written as in the tests of programs.
ghost use Rattle.std.specs.Prelude.{IfOk};
ghost use Rattle.re_terms.specs.Programs.{IsProgram};

use crate::tests::{Words, literal_of, name, tree};
use crate::{AdmitFault, admit, resolve};
use re_terms::{Act, Program, Put, RawLit, RawPart, RawTurn, RepOp, Seq, Turn, Word};
use std::alloc::Global;
use std::test::Fail;

const PROGRAM: &[u8] =
    b"device A device B symbol R var X int 0 event E int signal S X event D changed S counter C set M sym register Q bool true var Y int 1 event F bool";

fn amount(literal: RawLit) -> Option<i64> {
    match literal {
        RawLit::Int(number) => Some(number),
        _ => None,
    }
}

fn part(alloc: Global, words: &mut Words<'_>) -> Result<RawPart, Fail> {
    let word = words.next();
    let name = name(alloc, words)?;
    let lit = literal_of(alloc, words.next())?;
    if word == b"put".as_slice() {
        return Ok(RawPart::Put { name, lit });
    }
    if word == b"fire".as_slice() {
        return Ok(RawPart::Fire { name, lit });
    }
    if word == b"insert".as_slice() {
        return Ok(RawPart::Insert { name, lit });
    }
    if word == b"remove".as_slice() {
        return Ok(RawPart::Remove { name, lit });
    }
    if word == b"write".as_slice() {
        return Ok(RawPart::Write { name, lit });
    }
    let amount = amount(lit).ok_or("an amount was wanted")?;
    Ok(RawPart::Add { name, amount })
}

fn turn(alloc: Global, text: &[u8]) -> Result<RawTurn, Fail> {
    let mut words = Words { text };
    let mut parts = Seq::new(alloc);
    'parts: for _ in 0..1024 {
        if words.text.is_empty() {
            break;
        }
        parts.push(part(alloc, &mut words)?)?;
    }
    Ok(RawTurn { parts })
}

fn program(alloc: Global) -> Result<Program, Fail>
    ensures { IfOk result IsProgram }
{
    Ok(resolve(alloc, tree(alloc, PROGRAM)?)?)
}

/// Why these parts are no turn of the program, or None.
fn fault(alloc: Global, text: &[u8]) -> Result<Option<AdmitFault>, Fail> {
    match admit(alloc, &program(alloc)?, turn(alloc, text)?) {
        Ok(_) => Ok(None),
        Err(fault) => Ok(Some(fault)),
    }
}

/// So many times the part `add C 1`, and these parts behind them.
fn many(alloc: Global, count: u32, last: &[u8]) -> Result<Vec<u8>, Fail> {
    let mut text = Vec::new(alloc);
    for _ in 0..count {
        text.extend_from_slice(b"add C 1 ")?;
    }
    text.extend_from_slice(last)?;
    Ok(text)
}

/// Turns, and the first fault of each.
const FIRST_FAULTS: [(&[u8], Option<AdmitFault>); 30] = [
    (b"put X 5", None),
    (b"put X 1 put Y 2", None),
    (b"fire E 2", None),
    (b"fire F true", None),
    (b"add C 1 add C 1", None),
    (b"insert M R remove M R", None),
    (b"write Q true write Q true", None),
    (b"put Z 1", Some(AdmitFault::Unknown)),
    (b"put X Z", Some(AdmitFault::Unknown)),
    (b"add Z 1", Some(AdmitFault::Unknown)),
    (b"put S 1", Some(AdmitFault::Kind)),
    (b"put X R", Some(AdmitFault::Kind)),
    (b"put X true", Some(AdmitFault::Kind)),
    (b"put A 1", Some(AdmitFault::Kind)),
    (b"put E 1", Some(AdmitFault::Kind)),
    (b"fire D 1", Some(AdmitFault::Kind)),
    (b"fire X 1", Some(AdmitFault::Kind)),
    (b"fire F 1", Some(AdmitFault::Kind)),
    (b"add X 1", Some(AdmitFault::Kind)),
    (b"insert C 1", Some(AdmitFault::Kind)),
    (b"insert M 1", Some(AdmitFault::Kind)),
    (b"remove Q true", Some(AdmitFault::Kind)),
    // a declared name that is no symbol
    (b"remove M X", Some(AdmitFault::Kind)),
    (b"write M R", Some(AdmitFault::Kind)),
    (b"write Q 1", Some(AdmitFault::Kind)),
    (b"put X 1 put X 2", Some(AdmitFault::Twice)),
    (b"fire E 1 put X 1 fire E 1", Some(AdmitFault::Twice)),
    (b"", Some(AdmitFault::Empty)),
    // of several, the first in the order of the faults
    (b"put S 1 put Z 1", Some(AdmitFault::Unknown)),
    (b"put X 1 put X 2 put S 1", Some(AdmitFault::Kind)),
];

#[test]
fn the_first_fault_of_a_turn_is_named(rt: HostRuntime) -> Result<(), Fail> {
    let alloc = rt.alloc();
    for (text, wanted) in FIRST_FAULTS {
        let found = fault(alloc, text)?;
        assert!(rt; found == wanted, "in {text:?}: {found:?}");
    }
    let counts: [(u32, &[u8], Option<AdmitFault>); 4] = [
        (63, b"put X 1", None),
        (64, b"put X 1", Some(AdmitFault::TooMany)),
        (64, b"put X 1 put X 2", Some(AdmitFault::Twice)),
        (64, b"put X true", Some(AdmitFault::Kind)),
    ];
    for (count, last, wanted) in counts {
        assert_eq!(rt; fault(alloc, &many(alloc, count, last)?)?, wanted);
    }
    Ok(())
}

/// Whether the turn has these puts, by ascending id, and these operations, in order.
fn is_in_order(turn: &Turn) -> bool {
    turn.sets.as_slice()
        == [
            Put {
                id: 3,
                word: Word::Int(2),
            },
            Put {
                id: 10,
                word: Word::Int(1),
            },
        ]
        .as_slice()
        && turn.fires.as_slice()
            == [Put {
                id: 4,
                word: Word::Int(3),
            }]
            .as_slice()
        && turn.ops.as_slice()
            == [
                RepOp {
                    cell: 1,
                    act: Act::Insert(Word::Sym(0)),
                },
                RepOp {
                    cell: 0,
                    act: Act::Add(1),
                },
            ]
            .as_slice()
}

#[test]
fn parts_become_a_turn(rt: HostRuntime) -> Result<(), Fail> {
    let alloc = rt.alloc();
    let parts = turn(alloc, b"put Y 1 insert M R fire E 3 add C 1 put X 2")?;
    let admitted = admit(alloc, &program(alloc)?, parts)?;
    assert!(rt; is_in_order(&admitted.turn));
    Ok(())
}

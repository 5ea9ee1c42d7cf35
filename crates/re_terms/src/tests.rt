//! Copies of entries, answers and trees, and what the kinds of cells allow.
use crate::{
    Act, Answer, Dot, Entry, Kind, Layout, Logged, Mark, Pair, Put, RCell, RKind, RState, RawLit,
    RawPart, RawTurn, RepOp, Seq, Text, Token, TryCopy, Turn, Vector, Word, allows, compare_words,
    layout, same_word,
};
use std::test::Fail;

const PAIR: Pair = Pair {
    element: Word::Int(4),
    dot: Dot {
        device: 1,
        number: 7,
    },
};

#[test]
fn kinds_have_their_layouts_and_acts(rt: HostRuntime) -> Result<(), Fail> {
    let set = RKind::Set(Kind::Sym);
    assert_eq!(rt; layout(RKind::Counter), Layout::Rows);
    assert_eq!(rt; layout(set), Layout::Pairs(Kind::Sym));
    assert!(rt; allows(RKind::Counter, &Act::Add(-1)));
    assert!(rt; allows(set, &Act::Remove(Word::Sym(2))));
    assert!(rt; !allows(set, &Act::Write(Word::Sym(2))));
    Ok(())
}

#[test]
fn words_are_compared(rt: HostRuntime) -> Result<(), Fail> {
    let ascending = [
        Word::Int(-3),
        Word::Int(4),
        Word::Bool(false),
        Word::Bool(true),
        Word::Sym(0),
        Word::Sym(1),
        Word::Fault(1),
        Word::Fault(100),
    ];
    'firsts: for (i, a) in ascending.iter().enumerate() {
        'seconds: for (j, b) in ascending.iter().enumerate() {
            assert!(rt; compare_words(*a, *b) == i.cmp(&j));
            assert!(rt; same_word(*a, *b) == (i == j));
        }
    }
    Ok(())
}

#[test]
fn entries_are_copied(rt: HostRuntime) -> Result<(), Fail> {
    let alloc = rt.alloc();
    let mut pairs = Seq::new(alloc);
    pairs.push(PAIR)?;
    let mut cells = Seq::new(alloc);
    cells.push(RCell::Set(pairs))?;
    let mut changes = Seq::new(alloc);
    changes.push(Put {
        id: 3,
        word: Word::Bool(true),
    })?;
    let logged = Logged {
        entry: Entry::Merge(RState {
            vector: Vector { counts: [7; 16] },
            cells,
        }),
        changes,
    };
    let copied = logged.copy(alloc)?;
    assert_eq!(rt; copied.changes.as_slice(), logged.changes.as_slice());
    if let Entry::Merge(state) = &copied.entry {
        assert_eq!(rt; state.vector.counts, [7; 16]);
        if let Some(RCell::Set(pairs)) = state.cells.get(0) {
            assert_eq!(rt; pairs.get(0), Some(&PAIR));
        }
    }
    assert!(rt; matches!(copied.entry, Entry::Merge(_)));
    Ok(())
}

#[test]
fn turns_answers_and_tokens_are_copied(rt: HostRuntime) -> Result<(), Fail> {
    let alloc = rt.alloc();
    let mut ops = Seq::new(alloc);
    ops.push(RepOp {
        cell: 2,
        act: Act::Add(5),
    })?;
    let turn = Turn {
        sets: Seq::new(alloc),
        fires: Seq::new(alloc),
        ops,
    };
    assert_eq!(rt; turn.copy(alloc)?.ops.as_slice(), turn.ops.as_slice());
    assert!(rt; matches!(Answer::Up(4).copy(alloc)?, Answer::Up(4)));
    let mark = Mark::Name(Text::from_bytes(alloc, b"temp")?);
    let token = Token { at: 9, mark }.copy(alloc)?;
    assert!(rt; matches!(&token.mark, Mark::Name(name) if name.as_slice() == b"temp".as_slice()));
    let mut parts = Seq::new(alloc);
    parts.push(RawPart::Put {
        name: Text::from_bytes(alloc, b"x")?,
        lit: RawLit::Int(-3),
    })?;
    let raw = RawTurn { parts }.copy(alloc)?;
    assert_eq!(rt; raw.parts.len(), 1);
    Ok(())
}

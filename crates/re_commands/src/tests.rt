//! Lines of a session, and what they are to one program.
ghost use Rattle.std.specs.Prelude.{◌≡◌, true, IfOk, OnOk};
ghost use Rattle.re_terms.specs.Trees.{IsTree, is_name_text, is_body};
ghost use Rattle.re_terms.specs.Programs.{IsProgram};

use crate::leaves::name_first;
use crate::{CommandFault, command};
use re_terms::{
    Act, Command, Kind, Program, Put, RawBody, RawDecl, RawExpr, RawLit, RepOp, Seq, Text, Tree,
    TryCopy, Turn, Word,
};
use re_tokens::tokens;
use re_types::resolve;
use std::alloc::Global;
use std::test::Fail;

/// A word as a name.
fn name(alloc: Global, word: &[u8]) -> Result<Text, Fail>
    ensures { IfOk result (λ t. is_name_text t ≡ true) }
{
    if word.len() > 32 {
        return Err(Fail::new("a short name was wanted"));
    }
    let found = tokens(alloc, word)?;
    match name_first(found.as_slice()) {
        Some((name, _)) => Ok(name.copy(alloc)?),
        None => Err(Fail::new("a name was wanted")),
    }
}

/// Puts a declaration behind the others.
fn declare(decls: &mut Seq<RawDecl>, alloc: Global, word: &[u8], body: RawBody) -> Result<(), Fail>
    requires tree { IsTree (record { decls = decls.old }) }
    requires body { is_body body ≡ true }
    ensures { OnOk result (IsTree (record { decls = decls.new })) }
{
    let name = name(alloc, word)?;
    decls.push(RawDecl { name, body })?;
    Ok(())
}

/// Puts what is replicated behind the others, and a var that is named as a part's first word.
fn declare_more(decls: &mut Seq<RawDecl>, alloc: Global) -> Result<(), Fail>
    requires { IsTree (record { decls = decls.old }) }
    ensures { OnOk result (IsTree (record { decls = decls.new })) }
{
    declare(decls, alloc, b"c", RawBody::Counter)?;
    declare(decls, alloc, b"t", RawBody::Set { kind: Kind::Sym })?;
    let start = RawLit::Bool(false);
    let kind = Kind::Bool;
    declare(decls, alloc, b"m", RawBody::Register { kind, start })?;
    let start = RawLit::Int(0);
    let kind = Kind::Int;
    let region = 1;
    let fire = RawBody::Var {
        kind,
        start,
        region,
    };
    declare(decls, alloc, b"fire", fire)
}

/// `device a; device b; symbol red; var x: int = 0; event e: int; signal s = x; event d = changed(s); counter c;
/// set t: sym; register m: bool = false; var fire: int = 0;`
fn program(alloc: Global) -> Result<Program, Fail>
    ensures { IfOk result IsProgram }
{
    let mut decls = Seq::new(alloc);
    declare(&mut decls, alloc, b"a", RawBody::Device)?;
    declare(&mut decls, alloc, b"b", RawBody::Device)?;
    declare(&mut decls, alloc, b"red", RawBody::Symbol)?;
    let x = RawBody::Var {
        kind: Kind::Int,
        start: RawLit::Int(0),
        region: 1,
    };
    declare(&mut decls, alloc, b"x", x)?;
    declare(&mut decls, alloc, b"e", RawBody::Event { kind: Kind::Int })?;
    let expr = RawExpr::Lit(RawLit::Name(name(alloc, b"x")?));
    declare(&mut decls, alloc, b"s", RawBody::Signal { expr })?;
    let of = name(alloc, b"s")?;
    declare(&mut decls, alloc, b"d", RawBody::Changed { of })?;
    declare_more(&mut decls, alloc)?;
    Ok(resolve(alloc, Tree { decls })?)
}

/// What a line is: of a turn its device and how many parts it has, of another command what it names.
#[derive(Clone, Copy, Debug, PartialEq, Eq)]
enum Line {
    Nothing,
    Turn(u8, u64),
    Lazy(u8, u64),
    Settle(u8),
    Get(u8, u16),
    Send(u8),
    Deliver(u64, u8),
    Hex(u64),
    Crash(u8),
    Restart(u8),
    Refused(CommandFault),
}

fn summary(answer: &Result<Option<Command>, CommandFault>) -> Line {
    match answer {
        Ok(None) => Line::Nothing,
        Ok(Some(Command::Turn { device, turn })) => Line::Turn(*device, part_count(&turn.turn)),
        Ok(Some(Command::Lazy { device, turn })) => Line::Lazy(*device, part_count(&turn.turn)),
        Ok(Some(Command::Settle { device })) => Line::Settle(*device),
        Ok(Some(Command::Get { device, id })) => Line::Get(*device, *id),
        Ok(Some(Command::Send { device })) => Line::Send(*device),
        Ok(Some(Command::Deliver { packet, device })) => Line::Deliver(*packet, *device),
        Ok(Some(Command::Hex { packet })) => Line::Hex(*packet),
        Ok(Some(Command::Crash { device })) => Line::Crash(*device),
        Ok(Some(Command::Restart { device })) => Line::Restart(*device),
        Err(fault) => Line::Refused(*fault),
    }
}

fn part_count(turn: &Turn) -> u64 {
    (turn.sets.len() as u64)
        .saturating_add(turn.fires.len() as u64)
        .saturating_add(turn.ops.len() as u64)
}

/// Lines that are read, and what they are.
const READ: [(&[u8], Line); 20] = [
    (b"", Line::Nothing),
    (b" \t\r# turn a x = 1", Line::Nothing),
    (b"turn a x = 1", Line::Turn(0, 1)),
    (b"lazy b add c 1, add c 2 # twice", Line::Lazy(1, 2)),
    (b"settle b", Line::Settle(1)),
    (b"\tget a x\r", Line::Get(0, 3)),
    (b"get b s", Line::Get(1, 5)),
    (b"get a c", Line::Get(0, 7)),
    (b"get a t", Line::Get(0, 8)),
    (b"get a m", Line::Get(0, 9)),
    (b"send a", Line::Send(0)),
    (b"deliver 0 b", Line::Deliver(0, 1)),
    (
        b"deliver 9223372036854775808 a",
        Line::Deliver(9223372036854775808, 0),
    ),
    (b"hex 9223372036854775808", Line::Hex(9223372036854775808)),
    (b"crash b", Line::Crash(1)),
    (b"restart a", Line::Restart(0)),
    (b"turn a fire = 1", Line::Turn(0, 1)),
    (b"turn a fire=1,fire e 2", Line::Turn(0, 2)),
    (b"turn a x = -9223372036854775808", Line::Turn(0, 1)),
    (b"turn a x = - 5, add c -0", Line::Turn(0, 2)),
];

/// Lines that aren't of the grammar, whatever else is wrong with them.
const MALFORMED: [&[u8]; 23] = [
    b"jump a",
    b"a",
    b"turn",
    b"get a",
    b"get a x x",
    b"settle a b",
    b"deliver a b",
    b"deliver -1 b",
    b"hex",
    b"hex 1 a",
    b"hex 9223372036854775809",
    b"turn a x = 9223372036854775808",
    b"turn a add c 9223372036854775808",
    b"turn a x = -9223372036854775809",
    b"turn a x = 1 x = 2",
    b"turn a x = 1,",
    b"turn a , x = 1",
    b"turn a x = 1; x = 2",
    b"turn a x == 1",
    b"turn a x = var",
    b"turn a add c true",
    b"turn a put t red",
    b"turn a y = 1 !",
];

/// Lines with a name that the program lacks.
const UNKNOWN: [&[u8]; 6] = [
    b"get a y",
    b"get x y",
    b"crash z",
    b"turn z x = 1",
    b"turn x y = 1",
    b"turn x s = 1, t = y",
];

/// Lines with a name or a literal of a wrong kind.
const WRONG_KIND: [&[u8]; 10] = [
    b"turn x",
    b"send red",
    b"get x x",
    b"get a b",
    b"get a red",
    b"get a d",
    b"turn a s = 1",
    b"turn a x = red",
    b"turn a fire d 1",
    b"turn a x = 1, x = 2, insert c 1",
];

/// Lines that set a var twice, or fire an event twice.
const TWICE: [&[u8]; 2] = [
    b"turn a x = 1, x = 2",
    b"turn a fire e 1, add c 1, fire e 1",
];

#[test]
fn reads_lines(rt: HostRuntime) -> Result<(), Fail> {
    let alloc = rt.alloc();
    let p = program(alloc)?;
    for (line, wanted) in READ {
        assert_eq!(rt; summary(&command(alloc, line, &p)), wanted);
    }
    Ok(())
}

/// Whether each of these lines is refused with this fault.
fn are_refused(alloc: Global, p: &Program, lines: &[&[u8]], fault: CommandFault) -> bool
    requires { IsProgram p.now }
{
    lines.iter().all(|line| summary(&command(alloc, line, p)) == Line::Refused(fault))
}

#[test]
fn refuses_lines(rt: HostRuntime) -> Result<(), Fail> {
    let alloc = rt.alloc();
    let p = program(alloc)?;
    let refused: [(&[&[u8]], CommandFault); 5] = [
        (&MALFORMED, CommandFault::Syntax),
        (&UNKNOWN, CommandFault::Unknown),
        (&WRONG_KIND, CommandFault::Kind),
        (&TWICE, CommandFault::Twice),
        (&[b"lazy a"], CommandFault::Empty),
    ];
    for (lines, fault) in refused {
        assert!(rt; are_refused(alloc, &p, lines, fault));
    }
    Ok(())
}

#[test]
fn limits_lines_and_parts(rt: HostRuntime) -> Result<(), Fail> {
    let alloc = rt.alloc();
    let p = program(alloc)?;
    let blanks = vec![in alloc; b' '; 1_025]?;
    assert_eq!(rt;
        summary(&command(alloc, &blanks, &p)),
        Line::Refused(CommandFault::Syntax)
    );
    assert_eq!(rt;
        summary(&command(alloc, &blanks[..1_024], &p)),
        Line::Nothing
    );
    let mut line = Vec::new(alloc);
    for byte in b"turn b add c 1" {
        line.push(*byte)?;
    }
    for _ in 0..63 {
        for byte in b",add c 1" {
            line.push(*byte)?;
        }
    }
    assert_eq!(rt; summary(&command(alloc, &line, &p)), Line::Turn(1, 64));
    for byte in b", add c 1" {
        line.push(*byte)?;
    }
    assert_eq!(rt;
        summary(&command(alloc, &line, &p)),
        Line::Refused(CommandFault::TooMany)
    );
    Ok(())
}

#[test]
fn reads_each_part(rt: HostRuntime) -> Result<(), Fail> {
    let alloc = rt.alloc();
    let p = program(alloc)?;
    let line =
        b"turn b fire = 2, write m true, x = - 5, fire e 3, insert t red, add c -1, remove t red";
    let answer = command(alloc, line, &p);
    assert!(rt;
        matches!(&answer, Ok(Some(Command::Turn { device: 1, turn })) if is_wanted(&turn.turn))
    );
    Ok(())
}

/// Whether it is the turn of the line with each part.
fn is_wanted(turn: &Turn) -> bool {
    let sets = [
        Put {
            id: 3,
            word: Word::Int(-5),
        },
        Put {
            id: 10,
            word: Word::Int(2),
        },
    ];
    let fires = [Put {
        id: 4,
        word: Word::Int(3),
    }];
    let ops = [
        RepOp {
            cell: 2,
            act: Act::Write(Word::Bool(true)),
        },
        RepOp {
            cell: 1,
            act: Act::Insert(Word::Sym(0)),
        },
        RepOp {
            cell: 0,
            act: Act::Add(-1),
        },
        RepOp {
            cell: 1,
            act: Act::Remove(Word::Sym(0)),
        },
    ];
    turn.sets.as_slice() == sets.as_slice()
        && turn.fires.as_slice() == fires.as_slice()
        && turn.ops.as_slice() == ops.as_slice()
}

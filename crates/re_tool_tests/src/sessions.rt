//! Sessions over devices without files.
use crate::running::{Row, first_wrong, job};
use re_tool::Status;
use std::test::Fail;

/// Sessions without lines, and devices that stand behind other declarations.
const EMPTY: [Row; 5] = [
    Row {
        input: b"device a;\n---\n",
        said: b"",
        status: Status::Done,
    },
    Row {
        input: b"device a;\n",
        said: b"",
        status: Status::Done,
    },
    Row {
        input: b"device a;\n---",
        said: b"",
        status: Status::Done,
    },
    Row {
        input: b"var x: int = 1 in 4; device a;\n---\nget a x\n",
        said: b"1\n",
        status: Status::Done,
    },
    Row {
        input: b"device a; device b;\n",
        said: b"",
        status: Status::Done,
    },
];

#[test]
fn devices_are_opened(rt: HostRuntime) -> Result<(), Fail> {
    assert_eq!(rt; first_wrong(&rt, rt.alloc(), &EMPTY)?, None);
    Ok(())
}

/// Turns of vars, events, signals and folds.
const TURNS: [Row; 8] = [
    Row {
        input: b"device a; var x: int = 2; signal s = x + 3;\n---\nget a s\nturn a x = 5\nget a s\n",
        said: b"5\nok 1\n8\n",
        status: Status::Done,
    },
    Row {
        input: b"device a; var x: int = 1; signal p = x + 1; signal q = x * 2; signal r = p + q; event e = changed(r); fold n: int = 0 on e do self + 1;\n---\nturn a x = 5\nget a r\nget a n\n",
        said: b"ok 1\n16\n1\n",
        status: Status::Done,
    },
    Row {
        input: b"device a; var x: int = 2; signal s = 10 / x; signal t = recover(s, 7);\n---\nget a s\nturn a x = 0\nget a s\nget a t\n",
        said: b"5\nok 1\nfault 2\n7\n",
        status: Status::Done,
    },
    Row {
        input: b"device a; var x: int = -9223372036854775808; signal d = x / -1; signal m = x % -1;\n---\nget a d\nget a m\n",
        said: b"fault 1\n0\n",
        status: Status::Done,
    },
    Row {
        input: b"device a; event e: int; fold f: int = 0 on e do self + 10 / arg; fold g: int = 0 on e do recover(self + 10 / arg, 100);\n---\nturn a fire e 2\nturn a fire e 0\nget a f\nget a g\nturn a fire e 5\nget a f\nget a g\n",
        said: b"ok 1\nok 2\nfault 2\n100\nok 3\nfault 2\n102\n",
        status: Status::Done,
    },
    Row {
        input: b"device a; var x: int = 1; event e = changed(x); fold n: int = 0 on e do self + 1;\n---\nturn a x = 1\nget a n\nturn a x = 1, x = 2\nturn a x = 3\n",
        said: b"ok 1\n0\nno 23\nok 2\n",
        status: Status::Done,
    },
    Row {
        input: b"device a; var x: int = 1; event e = changed(x); fold n: int = 0 on e do self + 1;\n---\nturn a x = 1, x = 2\nturn a x = 3\n",
        said: b"no 23\nok 1\n",
        status: Status::Done,
    },
    Row {
        input: b"device a; var x: int = 1; event e = changed(x); fold n: int = 0 on e do self + 1;\n---\nturn a x = 2\nturn a x = 3\nturn a x = 4\ncrash a\nrestart a\nget a x\nget a n\nturn a x = 5\n",
        said: b"ok 1\nok 2\nok 3\ndown\nup 3\n4\n3\nok 4\n",
        status: Status::Done,
    },
];

#[test]
fn turns_are_taken(rt: HostRuntime) -> Result<(), Fail> {
    assert_eq!(rt; first_wrong(&rt, rt.alloc(), &TURNS)?, None);
    Ok(())
}

/// Operations on counters, sets and registers of one device.
const OPERATIONS: [Row; 4] = [
    Row {
        input: b"device a; counter c; set s: int;\n---\nturn a add c 9223372036854775807\nturn a add c 1\nturn a add c -1\nget a c\nturn a add c -9223372036854775808\n",
        said: b"ok 1\nno 31\nok 2\n9223372036854775806\nno 31\n",
        status: Status::Done,
    },
    Row {
        input: b"device a; set s: int;\n---\nturn a insert s 4, remove s 4\nget a s\nturn a insert s 9, insert s -4, insert s 9\nget a s\n",
        said: b"ok 1\n{}\nok 2\n{-4, 9}\n",
        status: Status::Done,
    },
    // A refused operation takes back those before it, and all else of its turn.
    Row {
        input: b"device a; counter c; set s: int; register m: bool = false; var x: int = 1;\n---\nturn a x = 2, insert s 7, write m true, add c 9223372036854775807, add c 1\nget a x\nget a s\nget a m\nget a c\nturn a add c 3\nget a c\n",
        said: b"no 31\n1\n{}\nfalse\n0\nok 1\n3\n",
        status: Status::Done,
    },
    Row {
        input: b"device a; symbol red; symbol blue; counter c; set s: sym; register m: sym = red; event up = changed(c); fold n: int = 0 on up do self + arg; event new = changed(m); fold k: int = 0 on new do self + 1; signal many = size(s); signal is_in = has(s, blue);\n---\nget a s\nget a m\nturn a add c 2, add c -5, insert s blue, insert s red, write m blue\nget a c\nget a n\nget a s\nget a m\nget a k\nget a many\nget a is_in\nturn a write m blue, add c 0, remove s red, insert s blue\nget a k\nget a n\nget a s\nturn a insert s 4\nturn a write m red, remove s blue, add c 4\nget a n\nget a k\nget a s\nget a c\nget a many\n",
        said: b"{}\nred\nok 1\n-3\n-3\n{red, blue}\nblue\n1\n2\ntrue\nok 2\n1\n-3\n{blue}\nno 22\nok 3\n-2\n2\n{}\n1\n0\n",
        status: Status::Done,
    },
];

#[test]
fn operations_are_taken(rt: HostRuntime) -> Result<(), Fail> {
    assert_eq!(rt; first_wrong(&rt, rt.alloc(), &OPERATIONS)?, None);
    Ok(())
}

/// Devices that exchange packets, and what is unsettled.
const PACKETS: [Row; 7] = [
    Row {
        input: b"device a; device b; set s: int;\n---\nturn a insert s 4\nturn b remove s 4\nsend a\nsend b\ndeliver 0 b\ndeliver 1 a\nget a s\nget b s\nhex 0\n",
        said: b"ok 1\nok 1\npacket 0\npacket 1\nok 2\nok 2\n{4}\n{4}\n01000000000000000100000000000000000001000000000000000004000000000000000001\n",
        status: Status::Done,
    },
    Row {
        input: b"device a; device b; counter c; event e = changed(c); fold n: int = 0 on e do self + 1;\n---\nturn a add c 2\nsend a\nturn a add c 3\nsend a\ndeliver 1 b\ndeliver 1 b\ndeliver 0 b\nget b c\nget b n\n",
        said: b"ok 1\npacket 0\nok 2\npacket 1\nok 1\nok 2\nok 3\n5\n1\n",
        status: Status::Done,
    },
    Row {
        input: b"device a; counter c;\n---\nlazy a add c 5\nsend a\ncrash a\nrestart a\nturn a add c 7\nsend a\nget a c\nhex 1\nhex 0\n",
        said: b"applied 1\npacket 0\ndown\nup 0\nok 1\npacket 1\n7\n01000000000000000100000000000000070000000000000000\n01000000000000000000000000000000000000000000000000\n",
        status: Status::Done,
    },
    Row {
        input: b"device a; device b; register m: int = 0;\n---\nturn a write m 1\nturn b write m 2\nsend a\nsend b\ndeliver 0 b\ndeliver 1 a\nget a m\nget b m\n",
        said: b"ok 1\nok 1\npacket 0\npacket 1\nok 2\nok 2\n2\n2\n",
        status: Status::Done,
    },
    Row {
        input: b"device a; set s: int;\n---\nturn a insert s 4, remove s 4\nget a s\nsend a\nhex 0\n",
        said: b"ok 1\n{}\npacket 0\n0100000000000000020000\n",
        status: Status::Done,
    },
    Row {
        input: b"device a; device b; counter c;\n---\nturn a add c 9223372036854775807\nturn b add c 9223372036854775807\nsend a\ndeliver 0 b\nget b c\n",
        said: b"ok 1\nok 1\npacket 0\nok 2\nfault 1\n",
        status: Status::Done,
    },
    Row {
        input: b"device a; counter c;\n---\nlazy a add c 1\nlazy a add c 1\nlazy a add c 1\nlazy a add c 1\nlazy a add c 1\nlazy a add c 1\nlazy a add c 1\nlazy a add c 1\nlazy a add c 1\nsettle a\nlazy a add c 1\n",
        said: b"applied 1\napplied 2\napplied 3\napplied 4\napplied 5\napplied 6\napplied 7\napplied 8\nno 38\nsettled 8\napplied 9\n",
        status: Status::Done,
    },
];

#[test]
fn packets_are_exchanged(rt: HostRuntime) -> Result<(), Fail> {
    assert_eq!(rt; first_wrong(&rt, rt.alloc(), &PACKETS)?, None);
    Ok(())
}

/// Lines that are refused, each with its code.
const REFUSED: [Row; 2] = [
    Row {
        input: b"device a; device b; symbol red; var x: int = 0; event e: int; signal s = x; event d = changed(s); counter c;\n---\njump a\nturn a x = 9223372036854775808\nget a y\nturn z x = 1\nturn a s = 1\nturn a x = red\nturn a fire d 1\nturn a\ndeliver 0 b\nrestart a\ncrash b\ncrash b\nget a x\n",
        said: b"no 20\nno 20\nno 21\nno 21\nno 22\nno 22\nno 22\nno 24\nno 28\nno 27\ndown\nno 26\n0\n",
        status: Status::Done,
    },
    Row {
        input: b"device a; symbol red; var x: int = 0; event e: int; signal s = x; event d = changed(s);\n---\njump a\nturn a x = 9223372036854775808\nget a y\nturn z x = 1\nturn a s = 1\nturn a x = red\nturn a fire d 1\nturn a\ndeliver 0 a\nrestart a\ncrash a\ncrash a\nrestart a\nget a x\nlazy a x = 1\nsettle a\nsend a\nhex 0\n",
        said: b"no 20\nno 20\nno 21\nno 21\nno 22\nno 22\nno 22\nno 24\nno 28\nno 27\ndown\nno 26\nup 0\n0\napplied 1\nsettled 1\npacket 0\n010000000000000000\n",
        status: Status::Done,
    },
];

#[test]
fn lines_are_refused(rt: HostRuntime) -> Result<(), Fail> {
    assert_eq!(rt; first_wrong(&rt, rt.alloc(), &REFUSED)?, None);
    Ok(())
}

/// A program of three devices, and a session.
pub const HALL: &[u8] =
    b"device hall;\ndevice attic;\ndevice cellar;\nsymbol home;\nsymbol away;\nvar temp: int = 200;\nevent tick: int;\nsignal warm = temp > 300;\nsignal level = if warm then 2 else 1;\nevent edge = changed(warm);\nfold edges: int = 0 on edge do self + 1;\nfold sum: int = 0 on tick do self + arg in 2;\nfold count: int = 0 on tick do self + 1 in 2;\nsignal mean = sum / count;\ncounter visits;\nset todo: int;\nregister mode: sym = home;\nsignal alarm = warm and mode == away;\nsignal busy = size(todo) >= 2;\n---\nget hall mean\nturn hall fire tick 30\nturn hall fire tick 11, temp = 310\nget hall mean\nget hall edges\nget hall level\nget hall alarm\nturn attic write mode away, insert todo 4, insert todo 9\nturn cellar insert todo 4, add visits 3\nsend attic\nsend cellar\ndeliver 0 hall\nget hall alarm\nget hall todo\nget hall busy\nturn hall remove todo 4, add visits -1\nget hall todo\ndeliver 1 hall\nget hall todo\nget hall visits\nlazy attic add visits 10\nget attic visits\nsend attic\ncrash attic\nget attic visits\nrestart attic\nget attic visits\nturn attic add visits 1\nsend hall\ndeliver 3 attic\ndeliver 3 cellar\nget attic todo\nget cellar todo\nget attic visits\nget cellar visits\nsend attic\ndeliver 4 cellar\ndeliver 4 hall\nget cellar visits\nget hall visits\nget cellar mode\nhex 0\nhex 2\n";

/// What `run` says of its session.
const HALL_SAID: &[u8] =
    b"fault 2\nok 1\nok 2\n20\n1\n2\nfalse\nok 1\nok 1\npacket 0\npacket 1\nok 3\ntrue\n{4, 9}\ntrue\nok 4\n{9}\nok 5\n{4, 9}\n2\napplied 2\n10\npacket 2\ndown\nno 26\nup 1\n0\nok 2\npacket 3\nok 3\nok 2\n{4, 9}\n{4, 9}\n3\n2\npacket 4\nok 3\nok 6\n3\n3\naway\n010000000000000000000000000000000300000000000000000000000000000000000000000000000000000000000000000000000000000000000000000000000000000000000000000002000000000000000004010000000000000002000000000000000009010000000000000003000000000000000101020001\n010000000000000000000000000000000300000000000000000000000000000000000000000000000000000000000000000000000000000000000000000000000000000000000000000002000000000000000004010000000000000002000000000000000009010000000000000003000000000000000101020001\n";

/// What `check` says of it.
const HALL_TEXT: &[u8] =
    b"device hall;\ndevice attic;\ndevice cellar;\nsymbol home;\nsymbol away;\nvar temp: int = 200 in 1;\nevent tick: int;\nsignal warm = (temp > 300);\nsignal level = (if warm then 2 else 1);\nevent edge = changed(warm);\nfold edges: int = 0 on edge do (self + 1) in 1;\nfold sum: int = 0 on tick do (self + arg) in 2;\nfold count: int = 0 on tick do (self + 1) in 2;\nsignal mean = (sum / count);\ncounter visits;\nset todo: int;\nregister mode: sym = home;\nsignal alarm = (warm and (mode == away));\nsignal busy = (size(todo) >= 2);\n";

#[test]
fn three_devices_serve_a_script(rt: HostRuntime) -> Result<(), Fail> {
    assert!(rt; job(&rt, rt.alloc(), "run", HALL)?.is(Status::Done, HALL_SAID));
    assert!(rt; job(&rt, rt.alloc(), "check", HALL)?.is(Status::Done, HALL_TEXT));
    Ok(())
}

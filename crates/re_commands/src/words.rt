//! The words that lines and parts begin with. They are names, and none of them is reserved.
ghost use Rattle.std.specs.Prelude.{◌≡◌};
ghost use Rattle.re_commands.specs.LineGrammar.{line_word, part_word};

/// What a line begins with.
#[derive(Clone, Copy, Debug, PartialEq, Eq)]
pub enum LineWord {
    Turn,
    Lazy,
    Settle,
    Get,
    Send,
    Deliver,
    Hex,
    Crash,
    Restart,
}

/// What a part begins with, unless it sets a var.
#[derive(Clone, Copy, Debug, PartialEq, Eq)]
pub enum PartWord {
    Fire,
    Add,
    Insert,
    Remove,
    Write,
}

/// The word that a line begins with.
pub fn line_word(word: &[u8]) -> Option<LineWord>
    ensures { result ≡ line_word word.now }
{
    if word == b"turn".as_slice() {
        Some(LineWord::Turn)
    } else if word == b"lazy".as_slice() {
        Some(LineWord::Lazy)
    } else if word == b"settle".as_slice() {
        Some(LineWord::Settle)
    } else if word == b"get".as_slice() {
        Some(LineWord::Get)
    } else if word == b"send".as_slice() {
        Some(LineWord::Send)
    } else if word == b"deliver".as_slice() {
        Some(LineWord::Deliver)
    } else if word == b"hex".as_slice() {
        Some(LineWord::Hex)
    } else if word == b"crash".as_slice() {
        Some(LineWord::Crash)
    } else if word == b"restart".as_slice() {
        Some(LineWord::Restart)
    } else {
        None
    }
}

/// The word that a part begins with.
pub fn part_word(word: &[u8]) -> Option<PartWord>
    ensures { result ≡ part_word word.now }
{
    if word == b"fire".as_slice() {
        Some(PartWord::Fire)
    } else if word == b"add".as_slice() {
        Some(PartWord::Add)
    } else if word == b"insert".as_slice() {
        Some(PartWord::Insert)
    } else if word == b"remove".as_slice() {
        Some(PartWord::Remove)
    } else if word == b"write".as_slice() {
        Some(PartWord::Write)
    } else {
        None
    }
}

//! The words of a command line.
ghost use Rattle.std.specs.Prelude.{◌≡◌, ◌≢◌, map, option_map, option_and_then, IfOk, IfErr, Err, None, false};
ghost use Rattle.std.specs.List.{list_any};
ghost use Rattle.std.specs.String.{string_bytes};
ghost use Rattle.clap.specs.Words.{app_of};
ghost use Rattle.re_tool.specs.Words.{job_of, job_of_word, IsWish, grammar, has_option, is_option};

use clap::Command;
use clap::error::ErrorKind;
use std::alloc::{AllocError, Global};
use thiserror::Error;

/// What a run over a stream may be asked to do.
#[derive(Clone, Copy, Debug, PartialEq, Eq)]
pub enum Job {
    /// Runs the program and the session of the input.
    Run,
    /// Says the canonical text of the program of the input.
    Check,
}

/// What the words of a command line ask for.
#[derive(Clone, Copy, Debug, PartialEq, Eq)]
pub enum Wish {
    Job(Job),
}

/// Why the words of a command line were refused.
#[derive(Clone, Copy, Debug, PartialEq, Eq, Error)]
pub enum WordFault {
    #[error("memory ran out")]
    Memory,
    #[error("the words aren't accepted")]
    Words,
}

impl From<AllocError> for WordFault {
    ghost use Rattle.std.specs.Prelude.{◌≡◌};
    ghost use Rattle.re_tool.specs.declared.words.WordFault.TheVariants.{Memory};

    ghost from_gives = { λ _ fault. fault ≡ Memory };

    fn from(_error: AllocError) -> WordFault {
        WordFault::Memory
    }
}

/// The command lines that are accepted.
fn grammar<'a>(alloc: Global) -> Result<Command<'a>, AllocError>
    ensures { IfOk result (λ c. app_of c ≡ grammar) }
{
    Command::new(alloc, "rescala")
        .no_binary_name(true)
        .disable_help_flag(true)
        .disable_help_subcommand(true)
        .subcommand_required(true)
        .subcommand(Command::new(alloc, "run"))?
        .subcommand(Command::new(alloc, "check"))
}

/// Whether a word starts with `-`.
fn is_option(word: &[u8]) -> bool
    ensures { result ≡ is_option word.now }
{
    word.first() == Some(&b'-')
}

/// Whether any word starts with `-`.
fn has_option(words: &[String]) -> bool
    ensures { result ≡ list_any (λ word. is_option (string_bytes word)) words.now }
{
    words.iter().any(|word| is_option(word.as_bytes()))
}

/// Why the words are refused, by the kind of the error at which they were.
fn word_fault(kind: ErrorKind) -> WordFault
    ensures { result ≡ WordFault.Words → kind ≢ ErrorKind.OutOfMemory }
{
    match kind {
        ErrorKind::OutOfMemory => WordFault::Memory,
        _ => WordFault::Words,
    }
}

/// What a word asks for.
fn wish_of(word: Option<&str>) -> Result<Wish, WordFault>
    ensures accepted { IfOk result (λ wish. IsWish (option_and_then job_of_word (option_map (λ w. w.now) word.entry)) wish) }
    ensures refused { IfErr result (λ fault. option_and_then job_of_word (option_map (λ w. w.now) word.entry) ≡ None) }
{
    match word {
        Some("run") => Ok(Wish::Job(Job::Run)),
        Some("check") => Ok(Wish::Job(Job::Check)),
        _ => Err(WordFault::Words),
    }
}

/// Reads words of which none starts with `-`.
fn read_plain(alloc: Global, words: &[String]) -> Result<Wish, WordFault>
    requires plain { has_option (map string_bytes words.now) ≡ false }
    ensures accepted { IfOk result (λ wish. IsWish (job_of (map string_bytes words.now)) wish) }
    ensures refused { result ≡ Err WordFault.Words → job_of (map string_bytes words.now) ≡ None }
{
    match grammar(alloc)?.try_get_matches_from(words) {
        Ok(matches) => wish_of(matches.subcommand_name()),
        Err(fault) => Err(word_fault(fault.kind())),
    }
}

/// Reads the words of a command line, without the program's name.
///
/// Accepted is one word, `run` or `check`; `Words` comes exactly for all others. A word that starts with `-` is never one
/// of them, so that no flag is read, nor a call for help. `docs/SESSION.md` has the rule.
pub fn read_words(alloc: Global, words: &[String]) -> Result<Wish, WordFault>
    ensures accepted { IfOk result (λ wish. IsWish (job_of (map string_bytes words.now)) wish) }
    ensures refused { result ≡ Err WordFault.Words → job_of (map string_bytes words.now) ≡ None }
{
    if has_option(words) {
        return Err(WordFault::Words);
    }
    read_plain(alloc, words)
}

//! What lists of tokens begin with, and the literals and names that they are.
ghost use Rattle.std.specs.Prelude.{◌≡◌, option_map, IfOk};
ghost use Rattle.re_commands.specs.LineGrammar.{name_first, number_first, only_name, only_number, int_of, literal_of};
ghost use Rattle.re_commands.specs.RawLines.{marks_of, plain_name, plain_number};

use re_terms::reserved::{FALSE, TRUE};
use re_terms::signs::MINUS;
use re_terms::{Mark, RawLit, Text, Token, TryCopy};
use std::alloc::{AllocError, Global};

/// The name that the tokens begin with, and what stands behind it.
pub fn name_first<'a>(tokens: &'a [Token]) -> Option<(&'a Text, &'a [Token])>
    ensures { option_map plain_name result ≡ name_first (marks_of tokens.now) }
{
    match tokens {
        [
            Token {
                mark: Mark::Name(name),
                ..
            },
            rest @ ..,
        ] => Some((name, rest)),
        _ => None,
    }
}

/// The number that the tokens begin with, and what stands behind it.
pub fn number_first<'a>(tokens: &'a [Token]) -> Option<(u64, &'a [Token])>
    ensures { option_map plain_number result ≡ number_first (marks_of tokens.now) }
{
    match tokens {
        [
            Token {
                mark: Mark::Number(number),
                ..
            },
            rest @ ..,
        ] => Some((*number, rest)),
        _ => None,
    }
}

/// The name that the tokens are.
pub fn only_name<'a>(tokens: &'a [Token]) -> Option<&'a Text>
    ensures { option_map (λ t. t.now) result ≡ only_name (marks_of tokens.now) }
{
    let (name, rest) = name_first(tokens)?;
    if rest.is_empty() { Some(name) } else { None }
}

/// The number that the tokens are.
pub fn only_number(tokens: &[Token]) -> Option<u64>
    ensures { result ≡ only_number (marks_of tokens.now) }
{
    let (number, rest) = number_first(tokens)?;
    if rest.is_empty() { Some(number) } else { None }
}

/// The int that the tokens are: a number, or `-` and a number. It has to be one of 64 bits.
pub fn read_int(tokens: &[Token]) -> Option<i64>
    ensures { result ≡ int_of (marks_of tokens.now) }
{
    match tokens {
        [
            Token {
                mark: Mark::Number(number),
                ..
            },
        ] => i64::try_from(*number).ok(),
        [
            Token {
                mark: Mark::Sign(MINUS),
                ..
            },
            Token {
                mark: Mark::Number(number),
                ..
            },
        ] => 0i64.checked_sub_unsigned(*number),
        _ => None,
    }
}

/// The literal that the tokens are. The one error is want of memory.
pub fn read_literal(alloc: Global, tokens: &[Token]) -> Result<Option<RawLit>, AllocError>
    ensures { IfOk result (λ literal. literal ≡ literal_of (marks_of tokens.now)) }
{
    match tokens {
        [
            Token {
                mark: Mark::Name(name),
                ..
            },
        ] => Ok(Some(RawLit::Name(name.copy(alloc)?))),
        [
            Token {
                mark: Mark::Reserved(TRUE),
                ..
            },
        ] => Ok(Some(RawLit::Bool(true))),
        [
            Token {
                mark: Mark::Reserved(FALSE),
                ..
            },
        ] => Ok(Some(RawLit::Bool(false))),
        _ => Ok(read_int(tokens).map(|number| RawLit::Int(number))),
    }
}

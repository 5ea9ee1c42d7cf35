//! What follows from the definition of commands, for every line.
ghost use Rattle.std.specs.Prelude.{ℕ, ◌≡◌, ◌≤◌, ◌<◌, ◌↔◌, [], List, length, Ok, Err, None, Some};
ghost use Rattle.re_terms.specs.declared.program.Program.{Program};
ghost use Rattle.re_tokens.specs.TokenGrammar.{NoTokenAt};
ghost use Rattle.re_tokens.specs.WholeLists.{tokens_of};
ghost use Rattle.re_commands.specs.Commanding.{commanded};

use crate::CommandFault;

/// A line is nothing exactly where it has at most 1,024 bytes and no tokens. A longer one, and one with a place where no
/// token begins, has the fault of syntax.
pub fn line_law()
    ensures nothing { (p : Program) (line : List ℕ) → (commanded p line ≡ Ok None) ↔ ((length line ≤ 1024) × (tokens_of line ≡ Some [])) }
    ensures long { (p : Program) (line : List ℕ) → 1024 < length line → commanded p line ≡ Err CommandFault.Syntax }
    ensures no_token { (p : Program) (line : List ℕ) (place : ℕ) → NoTokenAt line place → commanded p line ≡ Err CommandFault.Syntax }
{}

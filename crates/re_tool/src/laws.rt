//! What follows from the definitions of the input's parts, for all bytes.
ghost use Rattle.std.specs.List.{flat_map};
ghost use Rattle.std.specs.Prelude.{◌≡◌, ℕ, List, ◌++◌, Some, None};
ghost use Rattle.re_tool.specs.Lines.{split, ended, IsPlain, ArePlain};
ghost use Rattle.re_tool.specs.Part.{divided, Undivided, IsFirstSeparator};

/// The lines of some bytes, each with its LF, and the rest are these bytes, and no LF stands elsewhere. What divides
/// lines is the first separator among them: the lines before it are the program part.
pub fn lines_law()
    ensures whole { (bytes : List ℕ) → flat_map ended (split bytes).0 ++ (split bytes).1 ≡ bytes }
    ensures plain { (bytes : List ℕ) → ArePlain (split bytes).0 × IsPlain (split bytes).1 }
    ensures separator { (lines front back : List (List ℕ)) → divided lines ≡ Some (front, back) → IsFirstSeparator lines front back }
    ensures no_separator { (lines : List (List ℕ)) → divided lines ≡ None → Undivided lines }
{}

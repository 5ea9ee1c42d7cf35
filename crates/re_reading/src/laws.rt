//! The law of reading back.
ghost use Rattle.re_terms.specs.declared.program.Program.{Program};
ghost use Rattle.re_terms.specs.Programs.{IsProgram};
ghost use Rattle.re_reading.specs.ReadingBack.{ReadsBack};

/// Reading the canonical text of a program gives the same program: its tokens, its tree and what the tree means.
pub fn reading_law()
    ensures { (p : Program) → IsProgram p → ReadsBack p }
{}

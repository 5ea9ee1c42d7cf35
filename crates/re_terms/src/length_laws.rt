//! The laws of lengths: how many bytes a replicated state and a packet take.
ghost use Rattle.std.specs.Prelude.{◌≤◌, length};
ghost use Rattle.re_terms.specs.declared.limits.TheConstants.{PACKET_BYTES, STATE_BYTES};
ghost use Rattle.re_terms.specs.Programs.{IsProgram};
ghost use Rattle.re_terms.specs.Shapes.{FitsShape, IsShape, shape_of};
ghost use Rattle.re_terms.specs.Spellings.{packet_bytes, state_bytes};
ghost use Rattle.re_terms.specs.declared.program.Program.{Program};
ghost use Rattle.re_terms.specs.declared.replicated.RState.{RState};
ghost use Rattle.re_terms.specs.declared.replicated.Shape.{Shape};

/// A replicated state of a shape takes at most 26,498 bytes, and its packet one more. The shape of a program is one.
pub fn state_length_law()
    ensures program { (p : Program) → IsProgram p → IsShape (shape_of p) }
    ensures state { (shape : Shape) (r : RState) → IsShape shape → FitsShape shape r → length (state_bytes shape.devices r) ≤ STATE_BYTES }
    ensures packet { (shape : Shape) (r : RState) → IsShape shape → FitsShape shape r → length (packet_bytes shape.devices r) ≤ PACKET_BYTES }
{}

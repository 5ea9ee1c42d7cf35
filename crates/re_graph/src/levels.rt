//! Levels.
ghost use Rattle.std.specs.Prelude.{◌≡◌, ◌<◌, ◌≤◌, length, map, slice_index};
ghost use Rattle.std.specs.List.{All};
ghost use Rattle.re_terms.specs.Dependencies.{level_above as one_above};

/// The level of a declaration with these inputs, where those before it have these levels.
pub fn level_above(levels: &[u16], inputs: &[u16]) -> u16
    requires declared { All (λ input. input < length levels.now) inputs.now }
    requires low { All (λ level. level < 511) levels.now }
    ensures { result ≡ one_above (map (λ input. slice_index levels.now input) inputs.now) }
{
    let mut above = 0;
    for input in inputs {
        let level = levels[*input as usize];
        if above <= level {
            above = level + 1;
        }
    }
    above
}

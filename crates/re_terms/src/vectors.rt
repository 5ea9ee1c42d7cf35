//! Version vectors.
ghost use Rattle.std.specs.Prelude.{◌≡◌, ◌<◌};
ghost use Rattle.re_terms.specs.Vectors.{covers, join_vectors};

use crate::{Dot, Vector};

/// Whether the vector covers the dot: its number is at least 1, and at most the vector's number of its device.
#[tactic(auto, using(crate::proofs::Arrays::tests), unfolding(crate::specs::Vectors::covers))]
pub fn covers(v: &Vector, dot: Dot) -> bool
    requires { dot.device < 16 }
    ensures { result ≡ covers v.now.counts dot }
{
    dot.number >= 1 && dot.number <= v.counts[usize::from(dot.device)]
}

/// The vector that covers what either covers: for each device the greater number.
pub fn join_vectors(a: &Vector, b: &Vector) -> Vector
    ensures { result.counts ≡ join_vectors a.now.counts b.now.counts }
{
    let mut counts = a.counts;
    for i in 0..16 {
        if counts[i] < b.counts[i] {
            counts[i] = b.counts[i];
        }
    }
    Vector { counts }
}

#[cfg(test)]
mod tests {
    use super::*;
    use std::test::Fail;

    #[test]
    fn vectors_cover_and_join(rt: HostRuntime) -> Result<(), Fail> {
        let mut v = Vector { counts: [0; 16] };
        v.counts[0] = 2;
        let cases = [
            (0, 0, false),
            (0, 1, true),
            (0, 2, true),
            (0, 3, false),
            (1, 1, false),
        ];
        for (device, number, covered) in cases {
            assert_eq!(rt; covers(&v, Dot { device, number }), covered);
        }
        let mut w = Vector { counts: [0; 16] };
        w.counts[0] = 1;
        w.counts[15] = 4;
        let joined = join_vectors(&v, &w);
        assert_eq!(rt;
            joined.counts,
            [2, 0, 0, 0, 0, 0, 0, 0, 0, 0, 0, 0, 0, 0, 0, 4]
        );
        Ok(())
    }
}

// How many robots stand in a zone, of any kind and size.
ghost use Rattle.std.specs.Prelude.{◌≡◌, not, eqb, count_by};
ghost use Rattle.spec.specs.Arrangement.{last_free};
ghost use Rattle.spec.specs.State.{robot_on, arrangement_of};

use motion::State;
use numbering::{Robot, Vertex};

// How many vertices of a zone a robot stands on. `filter` and `count` branch on each, and take up to twice as long.
fn count_robots<const N: usize, const M: usize>(state: &State<N, M>, zone: &[u8]) -> usize
    ensures { result ≡ count_by (λ v. not (eqb (robot_on state.now v) 255)) zone.now }
{
    let mut n = 0;
    for &v in zone {
        if state.robot_on(Vertex(v)) != Robot(255) {
            n += 1;
        }
    }
    n
}

// Is one place free, so that whoever enters fills the zone?
pub fn last_free<const N: usize, const M: usize>(state: &State<N, M>, zone: &[u8]) -> bool
    ensures { result ≡ last_free (arrangement_of state.now zone.now) }
{
    count_robots(state, zone) + 1 == zone.len()
}

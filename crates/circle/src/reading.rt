// What is read of a ring's arrangement.
ghost use Rattle.std.specs.Prelude.{◌≡◌, eqb};
ghost use Rattle.spec.specs.State.{arrangement_of, robot_on};
ghost use Rattle.circle.specs.Reading.{vacant};

use motion::State;
use numbering::{Robot, Vertex};

// Does nobody stand there.
pub fn is_vacant<const N: usize, const M: usize>(state: &State<N, M>, zone: &[u8]) -> bool
    ensures { result ≡ vacant (arrangement_of state.now zone.now) }
{
    zone.iter().all(
        |v|
            ensures { result ≡ eqb (robot_on state.entry.now v.now) 255 }
        { state.robot_on(Vertex(*v)) == Robot(255) },
    )
}

// What can be reached in a ring.
ghost use Rattle.std.specs.Prelude.{◌≡◌};
ghost use Rattle.spec.specs.Ring.{ring_can_leave, ring_can_enter, ring_can_end};
ghost use Rattle.spec.specs.State.{arrangement_of};

use crate::comparing::{same_cells, same_turned};
use cells::{is_full, place_of, stands};
use circle::reading::is_vacant;
use motion::State;
use numbering::Robot;

// Can robot r leave at place j: anywhere, but in a full ring only where it stands.
pub fn can_leave<const N: usize, const M: usize>(
    state: &State<N, M>,
    zone: &[u8],
    r: Robot,
    j: usize,
) -> bool
    ensures { result ≡ ring_can_leave (arrangement_of state.now zone.now) r.0 j }
{
    if is_full(state, zone) {
        return stands(state, zone, r, j);
    }
    place_of(state, zone, r).is_some()
}

// Can a robot enter at place j with the named robot behind it: one that is inside, 255 if the ring is empty.
pub fn can_enter<const N: usize, const M: usize>(
    state: &State<N, M>,
    zone: &[u8],
    j: usize,
    behind: u8,
) -> bool
    ensures { result ≡ ring_can_enter (arrangement_of state.now zone.now) j behind }
{
    let alone = behind == 255;
    place_of(state, zone, Robot(behind)).is_some() || alone && is_vacant(state, zone)
}

// Are the goals in the ring's configuration: the order of the robots up to turning, or if full the arrangement.
pub fn can_end<const N: usize, const M: usize, const P: usize, const Q: usize>(
    state: &State<N, M>,
    zone: &[u8],
    goals: &State<P, Q>,
) -> bool
    ensures { result ≡ ring_can_end (arrangement_of state.now zone.now) (arrangement_of goals.now zone.now) }
{
    if is_full(state, zone) {
        return same_cells(state, goals, zone);
    }
    same_turned(state, goals, zone)
}

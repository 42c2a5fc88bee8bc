// Entering a ring: the robot behind a place, and where the next push begins.
ghost use Rattle.std.specs.Prelude.{◌≡◌, ◌≢◌, ◌<◌, length, MatchOption};
ghost use Rattle.spec.specs.Ring.{ring_behind};
ghost use Rattle.spec.specs.State.{across, arrangement_of};
ghost use Rattle.motion.specs.World.{world, made_all};
ghost use Rattle.circle.specs.Pushes.{pushed};
ghost use Rattle.turns.specs.Turns.{turn_at};
ghost use Rattle.turns.specs.Steps.{goes_on, Alone};

use cells::{place_of, robot_at, vertex_at};
use circle::places::{around, next};
use motion::State;
use numbering::Robot;

// "in a ring, the first cart met going backward from to"; none if the ring is empty.
// A place and its ring stay two values: the pushed place is another at each turn, and each is asked of once.
pub fn behind<const N: usize, const M: usize>(
    state: &State<N, M>,
    zone: &[u8],
    j: usize,
) -> Option<Robot>
    requires { j < length zone.now }
    ensures { MatchOption result (ring_behind (arrangement_of state.now zone.now) j ≡ 255)
        (λ r. (r.0 ≡ ring_behind (arrangement_of state.now zone.now) j) × (r.0 ≢ 255)) }
{
    let m = zone.len();
    for k in (1..m).rev() {
        let r = robot_at(state, zone, around(m, j, k));
        if r != Robot(255) {
            return Some(r);
        }
    }
    None
}

// "push the cart on to, or if to is empty the first behind it": the place where the next push begins; none where place j
// is empty and the named robot behind it, or nobody.
pub fn turn_place<const N: usize, const M: usize>(
    state: &State<N, M>,
    zone: &[u8],
    j: usize,
    named: Robot,
) -> Option<usize>
    requires { j < length zone.now }
    ensures { MatchOption result (turn_at (arrangement_of state.now zone.now) j named.0 ≡ length zone.now)
        (λ p. (p < length zone.now) × (p ≡ turn_at (arrangement_of state.now zone.now) j named.0)) }
{
    if robot_at(state, zone, j) != Robot(255) {
        return Some(j);
    }
    let Some(b) = behind(state, zone, j) else {
        return None;
    };
    if b == named {
        return None;
    }
    place_of(state, zone, b)
}

// Does the robot pushed from place p go on alone: p is not place j, and nobody stands on the place after it.
pub fn goes_on<const N: usize, const M: usize>(
    state: &State<N, M>,
    zone: &[u8],
    j: usize,
    p: usize,
) -> bool
    requires { p < length zone.now }
    ensures { result ≡ goes_on (arrangement_of state.now zone.now) j p }
{
    let free = robot_at(state, zone, next(zone.len(), p)) == Robot(255);
    p != j && free
}

// The robot on place p, with nobody on the place after it, is pushed: it goes one place forward.
pub fn step<const N: usize, const M: usize>(
    state: &mut State<N, M>,
    count: usize,
    zone: &[u8],
    p: usize,
    out: &mut [u8],
) -> usize
    requires p_in_bounds { p < length zone.now }
    requires alone { Alone (arrangement_of state.old zone.now) p }
    ensures { world state.new result out.new ≡ made_all (world state.old count out.old) (across zone.now (pushed (arrangement_of state.old zone.now) p)) }
{
    let v = vertex_at(zone, p);
    let w = vertex_at(zone, next(zone.len(), p));
    let r = state.robot_on(v);
    state.make(count, r, v, w, out)
}

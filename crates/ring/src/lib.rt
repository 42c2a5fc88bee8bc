// Rings in motion (document 01, "Which moves are written"): leaving, entering, and the goals.
//
//     ending    the lowest-numbered robot, and the other places as a hall
#![tactic(auto)]

ghost use Rattle.std.specs.Prelude.{◌≡◌, true, ◌≤◌, ◌<◌, length};
ghost use Rattle.spec.specs.Ring.{ring_can_leave, ring_leave, ring_enter, ring_can_end, ring_end};
ghost use Rattle.spec.specs.State.{across, arrangement_of};
ghost use Rattle.motion.specs.World.{world, made_all};
ghost use Rattle.motion.specs.Coupling.{Listed};

mod ending;

use cells::place_of;
use circle::places::next;
use circle::pushing::{push, push_to};
use ending::{lowest, open_at};
use motion::{ListedVertices, State};
use numbering::{Robot, ZoneVertices};
use turns::turning::{goes_on, step, turn_place};

// "Leaving: push until at from": robot r, which can leave there, is pushed to place j.
// A place and its ring stay two values: each body needs the ring apart, and pushes begin at other places of it.
pub fn leave<const N: usize, const M: usize>(
    state: &mut State<N, M>,
    count: usize,
    zone: ListedVertices<N>,
    r: Robot,
    j: usize,
    out: &mut [u8],
) -> usize
    requires j_in_bounds { j < length zone.vertices.now }
    requires j_value { ring_can_leave (arrangement_of state.old zone.vertices.now) r.0 j ≡ true }
    ensures { world state.new result out.new ≡ made_all (world state.old count out.old) (across zone.entry.vertices.now (ring_leave (arrangement_of state.old zone.entry.vertices.now) r.0 j)) }
{
    push_to(state, count, zone, r, j, out)
}

// A ring's vertices are different bytes: there are no more than 256.
fn is_short<const N: usize>(ring: &[u8]) -> bool
    requires { Listed N ring.now }
    ensures { (result ≡ true) × (length ring.now ≤ 256) }
{
    ring.len() <= 256
}

// "Entering: while to is taken or the cart behind isn't the named one, push the cart on to, or if to is empty the first
// behind it": place j is made ready. A robot that goes on alone from behind is the first behind still.
pub fn enter<const N: usize, const M: usize>(
    state: &mut State<N, M>,
    count: usize,
    zone: ListedVertices<N>,
    j: usize,
    behind: u8,
    out: &mut [u8],
) -> usize
    requires j_in_bounds { j < length zone.vertices.now }
    ensures { world state.new result out.new ≡ made_all (world state.old count out.old) (across zone.entry.vertices.now (ring_enter (arrangement_of state.old zone.entry.vertices.now) j behind)) }
{
    prove!(state.room() == N);
    let ring = zone.vertices;
    prove!(is_short::<N>(ring));
    let m = ring.len();
    let mut count = count;
    let mut turn = turn_place(state, ring, j, Robot(behind));
    for _ in 0..m * m {
        let Some(p) = turn else {
            return count;
        };
        if goes_on(state, ring, j, p) {
            count = step(state, count, ring, p, out);
            turn = Some(next(m, p));
        } else {
            count = push(state, count, zone, p, out);
            turn = turn_place(state, ring, j, Robot(behind));
        }
    }
    count
}

// "Ending: push the ring's lowest-numbered cart to its goal, then treat the other places .. as a hall": the robots go to
// their goals, which can be reached.
pub fn end<const N: usize, const M: usize, const P: usize, const Q: usize>(
    state: &mut State<N, M>,
    count: usize,
    zone: ListedVertices<N>,
    goals: &State<P, Q>,
    out: &mut [u8],
) -> usize
    requires zone_len_bound { length zone.vertices.now ≤ 128 }
    requires zone_value { ring_can_end (arrangement_of state.old zone.vertices.now) (arrangement_of goals.now zone.vertices.now) ≡ true }
    ensures { world state.new result out.new ≡ made_all (world state.old count out.old) (across zone.entry.vertices.now (ring_end (arrangement_of state.old zone.entry.vertices.now) (arrangement_of goals.now zone.entry.vertices.now))) }
{
    prove!(state.room() == N);
    let ring = zone.vertices;
    let Some(r) = lowest(state, ring) else {
        return count;
    };
    let Some(j) = place_of(goals, ring, r) else {
        return count;
    };
    let pushed = push_to(state, count, zone, r, j, out);
    let mut buffer = [0u8; 128];
    let others = &mut buffer[..ring.len() - 1];
    open_at(ring, j, others);
    let others = ZoneVertices { vertices: others };
    hall::end(state, pushed, others, goals, out)
}

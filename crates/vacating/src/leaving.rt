// Leaving a clique, and making room in it.
ghost use Rattle.std.specs.Prelude.{◌≡◌};
ghost use Rattle.spec.specs.Clique.{clique_can_leave, clique_leave, make_room};
ghost use Rattle.spec.specs.State.{arrangement_of, across};
ghost use Rattle.motion.specs.World.{world, made_all};

use cells::{is_full, place_of, robot_at, stands, vertex_at};
use motion::State;
use numbering::Robot;
use tabling::placing::first_free;

// Can robot r leave at place j: anywhere, but in a full clique only where it stands.
pub fn can_leave<const N: usize, const M: usize>(
    state: &State<N, M>,
    zone: &[u8],
    r: Robot,
    j: usize,
) -> bool
    ensures { result ≡ clique_can_leave (arrangement_of state.now zone.now) r.0 j }
{
    let packed = is_full(state, zone);
    if packed {
        return stands(state, zone, r, j);
    }
    place_of(state, zone, r).is_some()
}

// Whoever stands on place j "goes to the earliest listed empty point".
pub fn make_room<const N: usize, const M: usize>(
    state: &mut State<N, M>,
    count: usize,
    zone: &[u8],
    j: usize,
    out: &mut [u8],
) -> usize
    ensures { world state.new result out.new ≡ made_all (world state.old count out.old) (across zone.now (make_room (arrangement_of state.old zone.now) j)) }
{
    let x = robot_at(state, zone, j);
    if x == Robot(255) {
        return count;
    }
    let v = vertex_at(zone, j);
    let free = first_free(state, zone).unwrap_or(zone.len());
    let w = vertex_at(zone, free);
    state.make(count, x, v, w, out)
}

// "a cart standing on from (not the leaver) goes to the earliest listed empty point; then the leaver goes to from"
pub fn leave<const N: usize, const M: usize>(
    state: &mut State<N, M>,
    count: usize,
    zone: &[u8],
    r: Robot,
    j: usize,
    out: &mut [u8],
) -> usize
    ensures { world state.new result out.new ≡ made_all (world state.old count out.old) (across zone.now (clique_leave (arrangement_of state.old zone.now) r.0 j)) }
{
    let here = stands(state, zone, r, j);
    if here {
        return count;
    }
    let i = place_of(state, zone, r).unwrap_or(zone.len());
    let v = vertex_at(zone, i);
    let w = vertex_at(zone, j);
    let next = make_room(state, count, zone, j, out);
    state.make(next, r, v, w, out)
}

// Pushing in a ring.
ghost use Rattle.std.specs.Prelude.{◌≡◌, suc, ◌<◌, length, eqb, not};
ghost use Rattle.spec.specs.Arrangement.{seek};
ghost use Rattle.spec.specs.Ring.{pushes, push_to};
ghost use Rattle.spec.specs.State.{across, arrangement_of, robot_on};
ghost use Rattle.motion.specs.World.{world, made_all};
ghost use Rattle.circle.specs.Runs.{run_at};
ghost use Rattle.circle.specs.Pushes.{pushed};

use crate::places::{around, distance, next};
use cells::{place_of, robot_at, vertex_at};
use motion::{ListedVertices, State};
use numbering::{Robot, Vertex};

// How many robots stand in the run of taken places forward from place p, with the one on p.
// A place and its ring stay two values: the place moves round at each push, and a pair would be made anew for each.
fn run_length<const N: usize, const M: usize>(state: &State<N, M>, zone: &[u8], p: usize) -> usize
    requires { p < length zone.now }
    ensures { result ≡ length (run_at state.now zone.now p) }
{
    zone[p..]
        .iter()
        .chain(&zone[..p])
        .take_while(
            |v|
                ensures { result ≡ not (eqb (robot_on state.entry.now v.now.now) 255) }
            { state.robot_on(Vertex(**v)) != Robot(255) },
        )
        .count()
}

// "in the run of taken points forward from it, the foremost cart of the run moves first, each one place, the pushed cart
// last": the robot on place p is pushed. It is read before the run moves: in a full ring the foremost one takes its place.
pub fn push<const N: usize, const M: usize>(
    state: &mut State<N, M>,
    count: usize,
    zone: ListedVertices<N>,
    p: usize,
    out: &mut [u8],
) -> usize
    requires p_in_bounds { p < length zone.vertices.now }
    ensures { world state.new result out.new ≡ made_all (world state.old count out.old) (across zone.entry.vertices.now (pushed (arrangement_of state.old zone.entry.vertices.now) p)) }
{
    prove!(state.room() == N);
    let ring = zone.vertices;
    let m = ring.len();
    let first = robot_at(state, ring, p);
    let mut count = count;
    for k in (0..run_length(state, ring, p)).rev() {
        let v = vertex_at(ring, around(m, p, k));
        let w = vertex_at(ring, around(m, p, k + 1));
        let last = k == 0;
        let r = if last { first } else { state.robot_on(v) };
        count = state.make(count, r, v, w, out);
    }
    count
}

// The robot on place p is pushed n times.
pub fn push_times<const N: usize, const M: usize>(
    state: &mut State<N, M>,
    count: usize,
    zone: ListedVertices<N>,
    p: usize,
    n: usize,
    out: &mut [u8],
) -> usize
    requires p_in_bounds { p < length zone.vertices.now }
    ensures { world state.new result out.new ≡ made_all (world state.old count out.old) (across zone.entry.vertices.now (pushes n (arrangement_of state.old zone.entry.vertices.now) p)) }
{
    prove!(state.room() == N);
    let mut count = count;
    let mut at = p;
    for _ in 0..n {
        count = push(state, count, zone, at, out);
        at = next(zone.vertices.len(), at);
    }
    count
}

// "push until at from": robot r, which stands in the ring, is pushed to place j.
pub fn push_to<const N: usize, const M: usize>(
    state: &mut State<N, M>,
    count: usize,
    zone: ListedVertices<N>,
    r: Robot,
    j: usize,
    out: &mut [u8],
) -> usize
    requires j_in_bounds { j < length zone.vertices.now }
    requires zone_in_bounds { seek (suc r.0) (arrangement_of state.old zone.vertices.now) < length zone.vertices.now }
    ensures { world state.new result out.new ≡ made_all (world state.old count out.old) (across zone.entry.vertices.now (push_to (arrangement_of state.old zone.entry.vertices.now) r.0 j)) }
{
    let ring = zone.vertices;
    let Some(p) = place_of(state, ring, r) else {
        return count;
    };
    let n = distance(ring.len(), p, j);
    push_times(state, count, zone, p, n, out)
}

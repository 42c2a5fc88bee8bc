// The moves in a zone of a kind.
ghost use Rattle.std.specs.Prelude.{◌≡◌, true, ◌≤◌, ◌<◌, length};
ghost use Rattle.numbering.specs.Kind.{number_of};
ghost use Rattle.spec.specs.State.{arrangement_of, across};
ghost use Rattle.spec.specs.ZoneKind.{can_leave, can_end};
ghost use Rattle.theory.specs.Zones.Crossing.{Proper, extra_of};
ghost use Rattle.motion.specs.World.{world, made_all};
ghost use Rattle.clique.specs.Entering.{Numbered};
ghost use Rattle.walking.specs.Kinds.{leave_moves, enter_moves, end_moves};

use motion::{ListedVertices, State};
use numbering::{Place, Robot, ZoneKind, ZoneVertices};

// The moves that bring robot r, which can leave there, to place j.
// A place and its zone stay two values: each kind's moves take them apart, a hall's as a place alone.
pub fn leave<const N: usize, const M: usize>(
    kind: ZoneKind,
    state: &mut State<N, M>,
    count: usize,
    zone: ListedVertices<N>,
    r: Robot,
    j: usize,
    out: &mut [u8],
) -> usize
    requires zone_len_bound { (length zone.vertices.now ≤ 128) × (j < length zone.vertices.now) }
    requires j_value { can_leave (number_of kind) (arrangement_of state.old zone.vertices.now) r.0 j ≡ true }
    ensures { world state.new result out.new ≡ made_all (world state.old count out.old) (across zone.entry.vertices.now (leave_moves (number_of kind) (arrangement_of state.old zone.entry.vertices.now) r.0 j)) }
{
    let short = ZoneVertices {
        vertices: zone.vertices,
    };
    match kind {
        ZoneKind::Clique => vacating::leave(state, count, zone.vertices, r, j, out),
        ZoneKind::Ring => ring::leave(state, count, zone, r, j, out),
        _ => hall::leave(state, count, short, r, Place { index: j }, out),
    }
}

// The moves that make room at place j for whoever enters there.
// Its arms call other functions than `leave`, with other arguments: one function over both would name all six.
pub fn enter<const N: usize, const M: usize>(
    kind: ZoneKind,
    state: &mut State<N, M>,
    count: usize,
    zone: ListedVertices<N>,
    j: usize,
    behind: u8,
    list: &[u8],
    out: &mut [u8],
) -> usize
    requires zone_len_bound { (length zone.vertices.now ≤ 128) × (j < length zone.vertices.now) }
    // Clauses of two values together: of the list and the place, and of the zone and the state, which is changed here.
    requires numbered { Numbered list.now j }
    requires proper { Proper (arrangement_of state.old zone.vertices.now) }
    requires list_len { length list.now ≡ extra_of (number_of kind) (arrangement_of state.old zone.vertices.now) }
    ensures { world state.new result out.new ≡ made_all (world state.old count out.old) (across zone.entry.vertices.now (enter_moves (number_of kind) (arrangement_of state.old zone.entry.vertices.now) j behind list.now)) }
{
    let short = ZoneVertices {
        vertices: zone.vertices,
    };
    match kind {
        ZoneKind::Clique => clique::enter(state, count, short, j, list, out),
        ZoneKind::Ring => ring::enter(state, count, zone, j, behind, out),
        _ => hall::enter(state, count, short, Place { index: j }, behind, out),
    }
}

// The moves that bring the robots to their goals, which can be reached.
pub fn bring_to_goals<const N: usize, const M: usize, const P: usize, const Q: usize>(
    kind: ZoneKind,
    state: &mut State<N, M>,
    count: usize,
    zone: ListedVertices<N>,
    goals: &State<P, Q>,
    out: &mut [u8],
) -> usize
    // The last is a clause of the zone and the state together, which is changed here.
    requires zone_len_bound { length zone.vertices.now ≤ 128 }
    requires zone_value { can_end (number_of kind) (arrangement_of state.old zone.vertices.now) (arrangement_of goals.now zone.vertices.now) ≡ true }
    requires proper { Proper (arrangement_of state.old zone.vertices.now) }
    ensures { world state.new result out.new ≡ made_all (world state.old count out.old) (across zone.entry.vertices.now (end_moves (number_of kind) (arrangement_of state.old zone.entry.vertices.now) (arrangement_of goals.now zone.entry.vertices.now))) }
{
    let short = ZoneVertices {
        vertices: zone.vertices,
    };
    match kind {
        ZoneKind::Clique => clique::bring_to_goals(state, count, short, goals, out),
        ZoneKind::Ring => ring::end(state, count, zone, goals, out),
        _ => hall::end(state, count, short, goals, out),
    }
}

// The moves of a step in the zone that is left, and in the zone that is entered.
ghost use Rattle.std.specs.Prelude.{◌≡◌, true, [], ◌+◌, ◌*◌, ◌/◌, ◌≤◌, ◌<◌, length, get_or};
ghost use Rattle.spec.specs.State.{arrangement_of, across, robot_on};
ghost use Rattle.spec.specs.ZoneKind.{behind_of, can_leave};
ghost use Rattle.theory.specs.Zones.Crossing.{Proper, extra_of};
ghost use Rattle.numbering.specs.Kind.{number_of};
ghost use Rattle.motion.specs.World.{world, made_all};
ghost use Rattle.clique.specs.Entering.{Numbered};
ghost use Rattle.zones.specs.Near.{near_place};
ghost use Rattle.walking.specs.Kinds.{leave_moves, enter_moves};
ghost use Rattle.walking.specs.Held.{held_part};
ghost use Rattle.walking.specs.OnMap.{VertexOn, kind_on, vertices_on, place_on};

use cells::{robot_at, vertex_at};
use layout::MapTables;
use motion::{ListedVertices, State};
use numbering::{Robot, Vertex, ZoneKind};
use walking::copy_list;

// The place from which a robot comes to place j of m by one move: the one before it; before the first place of a ring the last, and of another
// zone the second.
fn near_place(kind: ZoneKind, m: usize, j: usize) -> usize
    requires { 0 < m }
    ensures { result ≡ near_place (number_of kind) m j }
{
    if 0 < j {
        return j - 1;
    }
    match kind {
        ZoneKind::Ring => m - 1,
        _ => 1,
    }
}

// The moves that bring robot r, which can leave there, to place j, which is vertex u: one where it stands beside that and nobody on it.
// A place and its zone stay two values, here and below: both are looked up in the map apart, and `zones` takes them apart.
// That the arrangement is proper stays a clause: it is of the state and the zone together, and the state is changed here.
fn leave_in<const M: usize>(
    state: &mut State<128, M>,
    count: usize,
    kind: ZoneKind,
    zone: ListedVertices<128>,
    r: Robot,
    j: usize,
    u: Vertex,
    out: &mut [u8],
) -> usize
    requires zone_len_bound { (j < length zone.vertices.now) × (get_or zone.vertices.now j 0 ≡ u.0) }
    requires j_value { can_leave (number_of kind) (arrangement_of state.old zone.vertices.now) r.0 j ≡ true }
    requires proper { Proper (arrangement_of state.old zone.vertices.now) }
    ensures { world state.new result out.new ≡ made_all (world state.old count out.old) (across zone.entry.vertices.now (leave_moves (number_of kind) (arrangement_of state.old zone.entry.vertices.now) r.0 j)) }
{
    let there = state.robot_on(u);
    let vacant = there == Robot(255);
    if vacant {
        let i = near_place(kind, zone.vertices.len(), j);
        let x = robot_at(state, zone.vertices, i);
        let near = x == r;
        if near {
            let w = vertex_at(zone.vertices, i);
            return state.make(count, r, w, u, out);
        }
    }
    zones::leave(kind, state, count, zone, r, j, out)
}

// The moves that bring robot r, which can leave there, to vertex u: none where it stands there already.
pub fn leave_at<const M: usize, const L: usize>(
    state: &mut State<128, M>,
    count: usize,
    map: &MapTables<L>,
    r: Robot,
    u: Vertex,
    out: &mut [u8],
) -> usize
    requires has_vertex { VertexOn map.now u.0 }
    requires u_value { can_leave (kind_on map.now u.0) (arrangement_of state.old (vertices_on map.now u.0)) r.0 (place_on map.now u.0) ≡ true }
    requires proper { Proper (arrangement_of state.old (vertices_on map.now u.0)) }
    ensures { world state.new result out.new ≡ made_all (world state.old count out.old) (across (vertices_on map.now u.0) (leave_moves (kind_on map.now u.0) (arrangement_of state.old (vertices_on map.now u.0)) r.0 (place_on map.now u.0))) }
{
    let there = state.robot_on(u);
    let here = there == r;
    if here {
        return count;
    }
    let z = map.zone_of(u);
    let zone = ListedVertices {
        vertices: map.listed_of(z),
    };
    leave_in(
        state,
        count,
        map.kind_of(z),
        zone,
        r,
        map.place_of(u),
        u,
        out,
    )
}

// Is place j of the zone, which is vertex v, empty and the named robot behind it?
fn is_ready<const N: usize, const M: usize>(
    kind: ZoneKind,
    state: &State<N, M>,
    zone: &[u8],
    j: usize,
    behind: u8,
    v: Vertex,
) -> bool
    requires { j < length zone.now }
    ensures { result ≡ true → (255 ≡ robot_on state.now v.0) × (behind_of (number_of kind) (arrangement_of state.now zone.now) j ≡ behind) }
{
    let there = state.robot_on(v);
    let taken = there != Robot(255);
    if taken {
        return false;
    }
    let nearest = leeway::behind_of(kind, state, zone, j);
    nearest == behind
}

// The moves that make room at place j, which is vertex v, where the step fills no clique: none where the zone is ready.
fn enter_room<const M: usize>(
    state: &mut State<128, M>,
    count: usize,
    kind: ZoneKind,
    zone: ListedVertices<128>,
    j: usize,
    behind: u8,
    v: Vertex,
    out: &mut [u8],
) -> usize
    requires zone_len_bound { (j < length zone.vertices.now) × (get_or zone.vertices.now j 0 ≡ v.0) }
    requires proper { Proper (arrangement_of state.old zone.vertices.now) }
    requires zone_value { extra_of (number_of kind) (arrangement_of state.old zone.vertices.now) ≡ 0 }
    ensures { world state.new result out.new ≡ made_all (world state.old count out.old) (across zone.entry.vertices.now (enter_moves (number_of kind) (arrangement_of state.old zone.entry.vertices.now) j behind [])) }
{
    if is_ready(kind, state, zone.vertices, j, behind, v) {
        return count;
    }
    zones::enter(
        kind,
        state,
        count,
        zone,
        j,
        behind,
        &zone.vertices[..0],
        out,
    )
}

// The moves that make room at place j, with the follow list that is copied into the lent bytes.
fn enter_in<const M: usize>(
    state: &mut State<128, M>,
    count: usize,
    file: &[u8],
    from: usize,
    kind: ZoneKind,
    zone: ListedVertices<128>,
    j: usize,
    behind: u8,
    list: &mut [u8],
    out: &mut [u8],
) -> usize
    requires zone_len_bound { (j < length zone.vertices.now) × (from + length list.old ≤ length file.now / 512 * 504) }
    requires numbered { Numbered (held_part file.now (from + length list.old) from (length list.old)) j }
    requires proper { Proper (arrangement_of state.old zone.vertices.now) }
    requires list_len { length list.old ≡ extra_of (number_of kind) (arrangement_of state.old zone.vertices.now) }
    ensures { world state.new result out.new ≡ made_all (world state.old count out.old) (across zone.entry.vertices.now (enter_moves (number_of kind) (arrangement_of state.old zone.entry.vertices.now) j behind (held_part file.now (from + length list.old) from (length list.old)))) }
{
    copy_list(file, from, list);
    zones::enter(kind, state, count, zone, j, behind, list, out)
}

// The moves that make room at vertex v, where the follow list has n bytes.
pub fn enter_at<const M: usize, const L: usize>(
    state: &mut State<128, M>,
    count: usize,
    file: &[u8],
    from: usize,
    n: usize,
    map: &MapTables<L>,
    v: Vertex,
    behind: u8,
    out: &mut [u8],
) -> usize
    requires n_bound { (n ≤ 128) × (from + n ≤ length file.now / 512 * 504) }
    requires has_vertex { VertexOn map.now v.0 }
    requires numbered { Numbered (held_part file.now (from + n) from n) (place_on map.now v.0) }
    requires proper { Proper (arrangement_of state.old (vertices_on map.now v.0)) }
    requires n_value { n ≡ extra_of (kind_on map.now v.0) (arrangement_of state.old (vertices_on map.now v.0)) }
    ensures { world state.new result out.new ≡ made_all (world state.old count out.old) (across (vertices_on map.now v.0) (enter_moves (kind_on map.now v.0) (arrangement_of state.old (vertices_on map.now v.0)) (place_on map.now v.0) behind (held_part file.now (from + n) from n))) }
{
    let z = map.zone_of(v);
    let kind = map.kind_of(z);
    let zone = ListedVertices {
        vertices: map.listed_of(z),
    };
    let j = map.place_of(v);
    if n == 0 {
        return enter_room(state, count, kind, zone, j, behind, v, out);
    }
    let mut list = [0u8; 128];
    enter_in(
        state,
        count,
        file,
        from,
        kind,
        zone,
        j,
        behind,
        &mut list[..n],
        out,
    )
}

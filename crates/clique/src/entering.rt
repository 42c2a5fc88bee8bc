// Entering a clique, with a follow list where it is filled.
ghost use Rattle.std.specs.Prelude.{◌≡◌, true, false, ◌≢◌, map, ℕ, suc, ◌*◌, length, set, get_or, eqb};
ghost use Rattle.spec.specs.Arrangement.{cell};
ghost use Rattle.spec.specs.Clique.{named, same_robots, clique_to, clique_can_enter, clique_enter};
ghost use Rattle.spec.specs.State.{arrangement_of, across, cell_of};
ghost use Rattle.spec.specs.Terms.{Distinct};
ghost use Rattle.theory.specs.Zones.Crossing.{extra_of};
ghost use Rattle.motion.specs.World.{world, made_all};
ghost use Rattle.clique.specs.Entering.{Numbered};

use crate::follow::FollowList;
use arranging::toward::go_toward;
use cells::{cell_of, cells_of};
use comparing::{same_cells, same_robots};
use motion::{State, put_cell};
use numbering::{Robot, ZoneVertices};
use vacating::last_free;
use vacating::leaving::make_room;

// Is every name of a follow list but the one at place j a robot's?
fn names_robots(list: &[u8], j: usize) -> bool
    ensures { (result ≡ true → Numbered list.now j) × (result ≡ false → (i : ℕ) × (i ≢ j) × (get_or list.now i 0 ≡ 255)) }
{
    list.iter().enumerate().all(|(k, x)| k == j || *x != 255)
}

// Does a follow list name robot r at place j?
fn names_at(list: &[u8], j: usize, r: Robot) -> bool
    ensures { result ≡ eqb (cell (named list.now) j) (suc r.0) }
{
    j < list.len() && Robot(list[j]) == r
}

// The arrangement that a follow list gives the robots inside: place j is empty for the entering one.
fn goal_cells(list: &[u8], j: usize, goal: &mut [u8])
    requires { length goal.old ≡ length list.now }
    ensures { goal.new ≡ set (map cell_of list.now) j 0 }
{
    for k in 0..list.len() {
        goal[k] = cell_of(Robot(list[k]));
    }
    put_cell(goal, j, 0);
}

// Does a follow list name the robots inside beside the one at place j?
fn names_inside<const N: usize, const M: usize>(
    state: &State<N, M>,
    zone: ZoneVertices,
    j: usize,
    list: FollowList,
) -> bool
    ensures { result ≡ same_robots (arrangement_of state.now zone.entry.vertices.now) (set (named list.entry.names.now) j 0) }
{
    let zone = zone.vertices;
    let list = list.names;
    let named = names_robots(list, j);
    if named {
        let mut cells = [0; 128];
        let mut goal = [0; 128];
        let cells = &mut cells[..zone.len()];
        let goal = &mut goal[..list.len()];
        cells_of(state, zone, cells);
        goal_cells(list, j, goal);
        return same_robots(cells, goal);
    }
    false
}

// Can robot r enter at place j: "in a clique behind is 255, and if filled, the follow list names the new arrangement, the entering cart at to".
pub fn can_enter<const N: usize, const M: usize>(
    state: &State<N, M>,
    zone: ZoneVertices,
    r: Robot,
    j: usize,
    behind: u8,
    list: FollowList,
) -> bool
    ensures { result ≡ clique_can_enter (arrangement_of state.now zone.entry.vertices.now) r.0 j behind list.entry.names.now }
{
    let behind_named = behind != 255;
    if behind_named {
        return false;
    }
    let last = last_free(state, zone.vertices);
    if last {
        return names_at(list.names, j, r) && names_inside(state, zone, j, list);
    }
    true
}

// The robots inside go to the follow list's arrangement.
fn fill<const N: usize, const M: usize>(
    state: &mut State<N, M>,
    count: usize,
    zone: ZoneVertices,
    j: usize,
    list: &[u8],
    out: &mut [u8],
) -> usize
    requires list_len { length list.now ≡ length zone.vertices.now }
    // Kept a clause, here and below: it is of the list and the place together, and a type of both would be taken apart again at each use.
    requires numbered { Numbered list.now j }
    // Kept a clause, here and below: it is of the state and the zone together, and the state is changed here.
    requires distinct { Distinct (arrangement_of state.old zone.vertices.now) }
    ensures { world state.new result out.new ≡ made_all (world state.old count out.old) (across zone.entry.vertices.now (clique_to (length zone.entry.vertices.now * 2) (arrangement_of state.old zone.entry.vertices.now) (set (named list.now) j 0))) }
{
    let zone = zone.vertices;
    let mut cells = [0; 128];
    let mut goal = [0; 128];
    let cells = &mut cells[..zone.len()];
    let goal = &mut goal[..list.len()];
    cells_of(state, zone, cells);
    goal_cells(list, j, goal);
    let moves = !same_cells(cells, goal);
    if moves {
        return go_toward(state, count, zone, cells, goal, zone.len() * 2, out);
    }
    count
}

// "Entering without filling: a cart on to goes to the earliest listed empty point. Filling: the carts inside go to the follow list's arrangement".
// There is a follow list exactly where the clique is filled.
pub fn enter<const N: usize, const M: usize>(
    state: &mut State<N, M>,
    count: usize,
    zone: ZoneVertices,
    j: usize,
    list: &[u8],
    out: &mut [u8],
) -> usize
    requires list_len { length list.now ≡ extra_of 3 (arrangement_of state.old zone.vertices.now) }
    requires numbered { Numbered list.now j }
    requires distinct { Distinct (arrangement_of state.old zone.vertices.now) }
    ensures { world state.new result out.new ≡ made_all (world state.old count out.old) (across zone.entry.vertices.now (clique_enter (arrangement_of state.old zone.entry.vertices.now) j list.now)) }
{
    if list.is_empty() {
        return make_room(state, count, zone.vertices, j, out);
    }
    fill(state, count, zone, j, list, out)
}

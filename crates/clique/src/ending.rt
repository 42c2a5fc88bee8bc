// Bringing a clique to the goals.
ghost use Rattle.std.specs.Prelude.{◌≡◌};
ghost use Rattle.spec.specs.Clique.{clique_can_end, clique_end};
ghost use Rattle.spec.specs.State.{arrangement_of, across};
ghost use Rattle.spec.specs.Terms.{Distinct};
ghost use Rattle.motion.specs.World.{world, made_all};

use arranging::toward::go_toward;
use cells::{cells_of, is_full};
use comparing::{same_cells, same_robots};
use motion::State;
use numbering::ZoneVertices;

// Is the goal arrangement in the configuration: in a full clique the arrangement itself, in any other one of the same robots?
pub fn can_end<const N: usize, const M: usize, const P: usize, const Q: usize>(
    state: &State<N, M>,
    zone: ZoneVertices,
    goals: &State<P, Q>,
) -> bool
    ensures { result ≡ clique_can_end (arrangement_of state.now zone.entry.vertices.now) (arrangement_of goals.now zone.entry.vertices.now) }
{
    let zone = zone.vertices;
    let n = zone.len();
    let mut cells = [0; 128];
    let mut goal = [0; 128];
    let cells = &mut cells[..n];
    let goal = &mut goal[..n];
    cells_of(state, zone, cells);
    cells_of(goals, zone, goal);
    let packed = is_full(state, zone);
    if packed {
        return same_cells(cells, goal);
    }
    same_robots(cells, goal)
}

// "Clique to a given arrangement", the goals', where no robot stands twice.
pub fn bring_to_goals<const N: usize, const M: usize, const P: usize, const Q: usize>(
    state: &mut State<N, M>,
    count: usize,
    zone: ZoneVertices,
    goals: &State<P, Q>,
    out: &mut [u8],
) -> usize
    // Kept a clause: it is of the state and the zone together, and a view of both can't be held while the state is changed.
    requires { Distinct (arrangement_of state.old zone.vertices.now) }
    ensures { world state.new result out.new ≡ made_all (world state.old count out.old) (across zone.entry.vertices.now (clique_end (arrangement_of state.old zone.entry.vertices.now) (arrangement_of goals.now zone.entry.vertices.now))) }
{
    let zone = zone.vertices;
    let n = zone.len();
    let mut cells = [0; 128];
    let mut goal = [0; 128];
    let cells = &mut cells[..n];
    let goal = &mut goal[..n];
    cells_of(state, zone, cells);
    cells_of(goals, zone, goal);
    go_toward(state, count, zone, cells, goal, n * 2, out)
}

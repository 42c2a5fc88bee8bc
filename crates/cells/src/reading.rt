// What is read of a zone's arrangement, from the state.
ghost use Rattle.std.specs.Prelude.{◌≡◌, suc, length, eqb, not};
ghost use Rattle.spec.specs.Arrangement.{seek, cell, full};
ghost use Rattle.spec.specs.State.{arrangement_of, cell_of, robot_on};
ghost use Rattle.cells.specs.Cells.{PlaceFound};

use motion::State;
use numbering::{Robot, Vertex};

// The robot on a place; 255 where there is none, and where there is no such place.
// No Option: a state's format has 255 for nobody, and so has what is compared with it.
pub fn robot_at<const N: usize, const M: usize>(state: &State<N, M>, zone: &[u8], j: usize) -> Robot
    ensures { cell_of result.0 ≡ cell (arrangement_of state.now zone.now) j }
{
    match zone.get(j) {
        Some(v) => state.robot_on(Vertex(*v)),
        None => Robot(255),
    }
}

// Does robot r stand on place j?
pub fn stands<const N: usize, const M: usize>(
    state: &State<N, M>,
    zone: &[u8],
    r: Robot,
    j: usize,
) -> bool
    ensures { result ≡ eqb (cell (arrangement_of state.now zone.now) j) (suc r.0) }
{
    let x = robot_at(state, zone, j);
    x != Robot(255) && x == r
}

// The earliest place on which r stands, or for 255 the earliest empty one.
pub fn seek_robot<const N: usize, const M: usize>(
    state: &State<N, M>,
    zone: &[u8],
    r: Robot,
) -> Option<usize>
    ensures { PlaceFound (length zone.now) (seek (cell_of r.0) (arrangement_of state.now zone.now)) result }
{
    zone.iter().position(
        |v|
            ensures { result ≡ eqb r.0 (robot_on state.entry.now v.now) }
        { r == state.robot_on(Vertex(*v)) },
    )
}

// The place of a robot; none where it is not in the zone.
pub fn place_of<const N: usize, const M: usize>(
    state: &State<N, M>,
    zone: &[u8],
    r: Robot,
) -> Option<usize>
    ensures { PlaceFound (length zone.now) (seek (suc r.0) (arrangement_of state.now zone.now)) result }
{
    if r == Robot(255) {
        return None;
    }
    seek_robot(state, zone, r)
}

// "'Full' means a cart on every point."
pub fn is_full<const N: usize, const M: usize>(state: &State<N, M>, zone: &[u8]) -> bool
    ensures { result ≡ full (arrangement_of state.now zone.now) }
{
    zone.iter().all(
        |v|
            ensures { result ≡ not (eqb (robot_on state.entry.now v.now) 255) }
        { state.robot_on(Vertex(*v)) != Robot(255) },
    )
}

// The arrangement of a zone in lent cells, and a move in it.
ghost use Rattle.std.specs.Prelude.{◌≡◌, ◌-◌, ◌<◌, length, get_or};
ghost use Rattle.spec.specs.Arrangement.{mv, seek, apply};
ghost use Rattle.spec.specs.State.{arrangement_of, across_move, cell_of};
ghost use Rattle.motion.specs.World.{world, made};
ghost use Rattle.cells.specs.Cells.{overlaid, PlaceFound};

use motion::{State, cell_or, put_cell};
use numbering::{Robot, Vertex};

// The vertex at a place of a zone.
pub fn vertex_at(zone: &[u8], i: usize) -> Vertex
    ensures { result.0 ≡ get_or zone.now i 0 }
{
    Vertex(cell_or(zone, i, 0))
}

// A cell as its index in a table of 256.
pub fn index_of(x: u8) -> usize
    ensures { (result ≡ x) × (x < 256) }
{
    usize::from(x)
}

// What stands on a place of an arrangement: 0 for nothing, r + 1 for robot r.
pub fn cell_at(cells: &[u8], i: usize) -> u8
    ensures { result ≡ get_or cells.now i 0 }
{
    cell_or(cells, i, 0)
}

// The earliest place at which x stands.
pub fn seek_cell(cells: &[u8], x: u8) -> Option<usize>
    ensures { PlaceFound (length cells.now) (seek x cells.now) result }
{
    cells.iter().position(|y| x == *y)
}

// A robot as what stands on a place.
pub fn cell_of(r: Robot) -> u8
    ensures { result ≡ cell_of r.0 }
{
    if r == Robot(255) {
        return 0;
    }
    r.0 + 1
}

// The arrangement of a zone, as far as the cells go.
pub fn cells_of<const N: usize, const M: usize>(state: &State<N, M>, zone: &[u8], cells: &mut [u8])
    ensures { cells.new ≡ overlaid (arrangement_of state.now zone.now) cells.old }
{
    for k in 0..zone.len().min(cells.len()) {
        cells[k] = cell_of(state.robot_on(Vertex(zone[k])));
    }
}

// The robot of cell x goes from place i of a zone to place j, in the state and in the lent arrangement.
pub fn go<const N: usize, const M: usize>(
    state: &mut State<N, M>,
    count: usize,
    zone: &[u8],
    cells: &mut [u8],
    x: u8,
    i: usize,
    j: usize,
    out: &mut [u8],
) -> usize
    ensures out_after { world state.new result out.new ≡ made (world state.old count out.old) (across_move zone.now (mv (x - 1) i j)) }
    ensures cells_after { cells.new ≡ apply cells.old (mv (x - 1) i j) }
{
    let r = Robot(x.saturating_sub(1));
    let v = vertex_at(zone, i);
    let w = vertex_at(zone, j);
    put_cell(cells, i, 0);
    put_cell(cells, j, r.0 + 1);
    state.make(count, r, v, w, out)
}

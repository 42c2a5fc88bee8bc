// The edges of a map, entered into the rows.
ghost use Rattle.std.specs.Prelude.{◌≡◌, ◌+◌, ◌≤◌, ◌<◌, length};
ghost use Rattle.edging.specs.Edges.{PlacesAre, EdgesAre, EdgesFound};

use adjacency::Rows;
use numbering::Vertex;
use wire::next_place;
use zoning::{MapFault, PayloadBytes};

// Where the second byte of a pair of payload bytes stands, and where the next pair begins.
#[derive(Clone, Copy)]
pub struct Pair {
    pub behind: usize,
    pub next: usize,
}

// The places after `at`: one test where the pair and the next one's first byte stand in one block.
fn places(at: usize) -> Pair
    requires { at + 9 < 13835058055282163712 }
    ensures { PlacesAre at result.behind result.next }
{
    if at % 512 < 508 {
        return Pair {
            behind: at + 1,
            next: at + 2,
        };
    }
    let behind = next_place(at);
    let next = next_place(behind);
    Pair { behind, next }
}

// Reads e edges from offset `from` on: those that stand whole in the payload, then the test that there are e;
// the offset behind them.
fn read_edges(
    payload: &PayloadBytes,
    n: usize,
    e: usize,
    from: usize,
    rows: &mut Rows,
) -> Result<usize, MapFault>
    requires { (e ≤ 2048) × (0 < e → from ≤ length payload.now.file.now + 2) }
    ensures { EdgesAre payload.now.file.now payload.now.len n e from rows.old rows.new result }
{
    let file = payload.file;
    let whole = e.min(payload.len.saturating_sub(from) / 2);
    let mut at = from.saturating_add(from / 504 * 8 + 6);
    let mut least: usize = 0;
    for k in 0..whole {
        let o = from + k * 2;
        let Pair { behind, next } = places(at);
        if behind >= file.len() {
            return Err(MapFault::Edge(o));
        }
        let a = file[at];
        let b = file[behind];
        let key = a as usize * 256 + b as usize;
        if b <= a || b as usize >= n || key < least {
            return Err(MapFault::Edge(o));
        }
        rows.add_edge(Vertex(a), Vertex(b));
        at = next;
        least = key + 1;
    }
    let end = from + whole * 2;
    if whole == e {
        return Ok(end);
    }
    if end >= payload.len {
        return Err(MapFault::Short(end));
    }
    Err(MapFault::Short(end + 1))
}

// Reads the edge count at offset o, where the zones list every vertex, and the edges behind it, to the payload's end.
pub fn edges_of(
    payload: &PayloadBytes,
    n: usize,
    covered: bool,
    o: usize,
    rows: &mut Rows,
) -> Result<(), MapFault>
    ensures { EdgesFound payload.now.file.now payload.now.len n covered o rows.old rows.new result }
{
    let len = payload.len;
    let uncovered = !covered;
    if uncovered {
        return Err(MapFault::Listing(o));
    }
    let e = payload.word(o).ok_or(MapFault::Short(o))?;
    if e > 2048 {
        return Err(MapFault::Range(o));
    }
    let end = read_edges(payload, n, e, o + 2, rows)?;
    if end != len {
        return Err(MapFault::Short(end));
    }
    Ok(())
}

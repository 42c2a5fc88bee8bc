// The tests of a step that read no list: "In a step: four bytes, 36, 37, 38, full target, follow list present, 39."
ghost use Rattle.std.specs.Prelude.{◌≡◌, ℕ, ◌<◌};
ghost use Rattle.spec.specs.Layout.{Map};
ghost use Rattle.walking.specs.Tests.{numbered, crosses};
ghost use Rattle.walking.specs.OnMap.{GivenOn};

use layout::MapTables;
use numbering::{Robot, Vertex};

// Are the robot and the vertices of a step below k and the map's number of vertices?
pub fn are_numbered<const L: usize>(
    map: &MapTables<L>,
    k: usize,
    r: Robot,
    u: Vertex,
    v: Vertex,
) -> bool
    ensures { result ≡ numbered map.now.vertices k r.0 u.0 v.0 }
{
    let n = map.vertices();
    (r.0 as usize) < k && (u.0 as usize) < n && (v.0 as usize) < n
}

// Does an edge lead from u to v, in another zone?
pub fn is_crossing<const L: usize>(
    map: &MapTables<L>,
    rows: &[[u64; 2]; 128],
    u: Vertex,
    v: Vertex,
) -> bool
    requires { (u.0 < 128) × (v.0 < 128) }
    ensures { (m : Map) (k : ℕ) → GivenOn m k map.now rows.now → u.0 < map.now.vertices → v.0 < map.now.vertices → result ≡ crosses m u.0 v.0 }
{
    adjacency::joined(rows, u, v) && map.zone_at(u) != map.zone_at(v)
}

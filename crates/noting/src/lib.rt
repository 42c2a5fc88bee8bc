// The bytes of a step, laid into the answer.
#![tactic(auto)]

ghost use Rattle.std.specs.Prelude.{◌≡◌, ◌+◌, ◌≤◌, ◌<◌, length};
ghost use Rattle.writer.specs.Laid.{laid_all};
ghost use Rattle.noting.specs.Follow.{seated, followed, step_from};

use motion::State;
use numbering::{Robot, Vertex, ZoneVertices};

// Who stands on place i, a vertex v, once robot r has come in at place j.
fn robot_after<const N: usize, const M: usize>(
    state: &State<N, M>,
    v: Vertex,
    i: usize,
    j: usize,
    r: Robot,
) -> Robot
    ensures { result.0 ≡ seated state.now v.0 i j r.0 }
{
    if i == j { r } else { state.robot_on(v) }
}

// Lays the follow list of robot r's step into place j of a zone from payload offset `off` on.
fn write_list<const N: usize, const M: usize>(
    state: &State<N, M>,
    zone: &[u8],
    j: usize,
    r: Robot,
    off: usize,
    out: &mut [u8],
)
    requires { (length zone.now ≤ 255) × (off < 4294967296) }
    ensures { out.new ≡ laid_all out.old off (followed state.now zone.now j r.0) }
{
    for (i, v) in zone.iter().enumerate() {
        let x = robot_after(state, Vertex(*v), i, j, r);
        writer::put_byte(out, off + i, x.0);
    }
}

// Lays a step from payload offset `off` on, with the follow list where it fills a clique; gives the offset after it.
pub fn write_step<const N: usize, const M: usize>(
    state: &State<N, M>,
    zone: ZoneVertices,
    j: usize,
    r: u8,
    u: u8,
    v: u8,
    behind: u8,
    filled: bool,
    off: usize,
    out: &mut [u8],
) -> usize
    requires { off < 4294967040 }
    ensures { (result ≡ off + length (step_from state.now zone.entry.vertices.now j r u v behind filled)) × (out.new ≡ laid_all out.old off (step_from state.now zone.entry.vertices.now j r u v behind filled)) }
{
    writer::put_three(out, off, r, u, v);
    writer::put_byte(out, off + 3, behind);
    if filled {
        write_list(state, zone.vertices, j, Robot(r), off + 4, out);
        return off + 4 + zone.vertices.len();
    }
    off + 4
}

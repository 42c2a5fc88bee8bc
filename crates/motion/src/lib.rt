// The state, one move, and the counted and written move.
//
//     zone    a zone's vertices, none of them twice
#![tactic(auto)]

ghost use Rattle.std.specs.Prelude.{◌≡◌, length, set, get_or, take};
ghost use Rattle.spec.specs.Arrangement.{mv};
ghost use Rattle.spec.specs.State.{robot_on};
ghost use Rattle.motion.specs.States.{stood, moved_by};
ghost use Rattle.motion.specs.Tables.{tabled};
ghost use Rattle.motion.specs.World.{world, made, laid_move, one_more};

pub mod zone;

use numbering::{Robot, Vertex};
use std::marker::Model;
use writer::put_three;
pub use zone::ListedVertices;

// "A state holds the cart on each point and the point of each cart": 255 is no robot, and no vertex. It has a place for N vertices and
// M robots: one of a placing for 128 and 64.
#[derive(Clone, Copy)]
pub struct State<const N: usize, const M: usize> {
    robots: [Robot; N],
    vertices: [Vertex; M],
}

impl<const N: usize, const M: usize> Model for State<N, M> {
    ghost use Rattle.spec.specs.State as meaning;

    ghost Value = { meaning.State };

    ghost use Rattle.motion.specs.States.{state_of, held_in, held_again};

    ghost view = { state_of };

    ghost inverse = { held_in };

    ghost inverse_ok = { λ s h. held_again s };
}

impl State<128, 64> {
    // Robot i on the i-th of the first k starts.
    pub fn standing(starts: [u8; 64], k: usize) -> State<128, 64>
        ensures { result ≡ stood (take k starts) }
    {
        let mut robots = [Robot(255); 128];
        let mut vertices = [Vertex(255); 64];
        for i in 0..k.min(64) {
            let v = Vertex(starts[i]);
            vertices[i] = v;
            put_cell(&mut robots, v.0 as usize, Robot(i as u8));
        }
        State { robots, vertices }
    }
}

impl<const N: usize, const M: usize> State<N, M> {
    // The state of two tables, as far as there is room: 255 where a table has no more entries.
    pub fn of(robots: &[u8], vertices: &[u8]) -> State<N, M>
        ensures { result ≡ tabled N M robots.now vertices.now }
    {
        let mut on = [Robot(255); N];
        for i in 0..robots.len() {
            put_cell(&mut on, i, Robot(robots[i]));
        }
        let mut at = [Vertex(255); M];
        for i in 0..vertices.len() {
            put_cell(&mut at, i, Vertex(vertices[i]));
        }
        State {
            robots: on,
            vertices: at,
        }
    }

    // How many vertices a state has a place for. It has one for M robots.
    pub fn room(&self) -> usize
        ensures { (result ≡ N) × (length self.now.robots ≡ N) × (length self.now.vertices ≡ M) }
    {
        let robots: &[Robot] = &self.robots;
        let _vertices: &[Vertex] = &self.vertices;
        robots.len()
    }

    // The robot on a vertex.
    pub fn robot_on(&self, v: Vertex) -> Robot
        ensures { result.0 ≡ robot_on self.now v.0 }
    {
        cell_or(&self.robots, v.0 as usize, Robot(255))
    }

    // The vertex of a robot.
    pub fn vertex_of(&self, r: Robot) -> Vertex
        ensures { result.0 ≡ get_or self.now.vertices r.0 255 }
    {
        cell_or(&self.vertices, r.0 as usize, Vertex(255))
    }

    // Robot r goes from one vertex to another.
    pub fn shift(&mut self, r: Robot, from: Vertex, to: Vertex)
        ensures { self.new ≡ moved_by self.old (mv r.0 from.0 to.0) }
    {
        put_cell(&mut self.robots, from.0 as usize, Robot(255));
        put_cell(&mut self.robots, to.0 as usize, r);
        put_cell(&mut self.vertices, r.0 as usize, to);
    }

    // A move is made, counted and written.
    pub fn make(
        &mut self,
        count: usize,
        r: Robot,
        from: Vertex,
        to: Vertex,
        out: &mut [u8],
    ) -> usize
        ensures { world self.new result out.new ≡ made (world self.old count out.old) (mv r.0 from.0 to.0) }
    {
        self.shift(r, from, to);
        put_move(out, count, r, from, to);
        one_more(count)
    }
}

// The bytes of the n-th move. No buffer is long enough for a move from 2^62 on.
fn put_move(out: &mut [u8], n: usize, r: Robot, from: Vertex, to: Vertex)
    ensures { out.new ≡ laid_move out.old n (mv r.0 from.0 to.0) }
{
    if n < 4611686018427387904 {
        put_three(out, n * 3 + 2, r.0, from.0, to.0);
    }
}

fn one_more(n: usize) -> usize
    ensures { result ≡ one_more n }
{
    if n < 4611686018427387904 {
        return n + 1;
    }
    n
}

// What stands on place i; `none` where there is no such place.
pub fn cell_or<T: Copy>(cells: &[T], i: usize, none: T) -> T
    ensures { result ≡ get_or cells.now i none }
{
    match cells.get(i) {
        Some(x) => *x,
        None => none,
    }
}

// x stands on place i, where there is such a place.
pub fn put_cell<T: Copy>(cells: &mut [T], i: usize, x: T)
    ensures { cells.new ≡ set cells.old i x }
{
    if i < cells.len() {
        cells[i] = x;
    }
}

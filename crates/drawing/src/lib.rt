// The plan drawn from a checked list: a step for each move between zones.
#![tactic(auto)]

ghost use Rattle.std.specs.Prelude.{◌≡◌, ℕ, ◌+◌, ◌≤◌, ◌<◌};
ghost use Rattle.spec.specs.Layout.{Map};
ghost use Rattle.theory.specs.Maps.Layout.{Accepted};
ghost use Rattle.layout.specs.Map.{MapHeld};
ghost use Rattle.replay.specs.Moves.{file_bytes, three_move};
ghost use Rattle.drawing.specs.Drawn.{MoveDrawn, EndsOn, AllDrawn};

use layout::MapTables;
use motion::State;
use noting::write_step;
use numbering::{Robot, Vertex};
use wire::Three;

// How many steps are drawn, and the payload offset after them.
#[derive(Clone, Copy)]
pub struct Drawn {
    pub steps: usize,
    pub bytes: usize,
}

// Lays the step of a move that is to be made, if it is one between zones.
fn draw_move(
    d: Drawn,
    state: &State<128, 64>,
    map: &MapTables<128>,
    x: Three,
    out: &mut [u8],
) -> Drawn
    requires { (d.steps < 65536) × (d.bytes < 4294967040) }
    ensures move_drawn { (m : Map) → MapHeld map.now m → x.third < m.size → Accepted m → MoveDrawn m state.now (three_move x) d out.old result out.new }
    ensures steps_bound { (result.steps ≤ d.steps + 1) × (result.bytes ≤ d.bytes + 132) }
{
    let from = map.zone_of(Vertex(x.second));
    let to = map.zone_of(Vertex(x.third));
    let inside = from == to;
    if inside {
        return d;
    }
    if !map.has_part(to) {
        return d;
    }
    let kind = map.kind_of(to);
    let part = map.vertices_of(to);
    let j = map.place_of(Vertex(x.third));
    if j >= part.vertices.len() {
        return d;
    }
    let behind = leeway::behind_of(kind, state, part.vertices, j);
    let filled = leeway::fills(kind, state, part.vertices);
    let bytes = write_step(
        state, part, j, x.first, x.second, x.third, behind, filled, d.bytes, out,
    );
    Drawn {
        steps: d.steps + 1,
        bytes,
    }
}

// Lays the steps of the list's first `count` moves, made from a state, after the two bytes of the count.
pub fn draw_moves(
    file: &[u8],
    count: u16,
    map: &MapTables<128>,
    mut state: State<128, 64>,
    out: &mut [u8],
) -> Drawn
    ensures { (m : Map) → MapHeld map.now m → Accepted m → EndsOn m (file_bytes file.now) count → AllDrawn m (file_bytes file.now) count state out.old result out.new }
{
    let mut d = Drawn { steps: 0, bytes: 2 };
    let mut at: usize = 8;
    for i in 0..count {
        let x = wire::three_from(file, at);
        d = draw_move(d, &state, map, x, out);
        state.shift(Robot(x.first), Vertex(x.second), Vertex(x.third));
        at = wire::place_after(at);
    }
    d
}

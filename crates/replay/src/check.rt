// Checking a move list against a map and a placing: each move in the state that the moves before it reach.
ghost use Rattle.std.specs.Prelude.{◌≡◌, ℕ, ◌<◌, ◌≤◌, take};
ghost use Rattle.spec.specs.Layout.{Map, Placing};
ghost use Rattle.spec.specs.Arrangement.{mv};
ghost use Rattle.spec.specs.Run.{on_goals, checked_moves};
ghost use Rattle.adjacency.specs.Rows.{Shows, bit_at};
ghost use Rattle.wire.specs.Payload.{payload};
ghost use Rattle.replay.specs.Moves.{move_tests};
ghost use Rattle.replay.specs.Check.{fault_at, list_fault_at, off_goal, move_list_of, ReplayOf};

use crate::{Graph, ListFault};
use motion::State;
use numbering::{Robot, Vertex};
use wire::FiledPayload;

// What is wrong with a move in a state: a robot or vertex that is not there, no edge, or a robot not at from or `to` taken.
#[derive(Clone, Copy, Debug, PartialEq, Eq)]
enum MoveFault {
    Number,
    Edge,
    Standing,
}

impl MoveFault {
    // The fault of a list whose move i has it.
    fn of_move(self, i: usize) -> ListFault
        ensures { result ≡ list_fault_at i self }
    {
        match self {
            MoveFault::Number => ListFault::Number(i),
            MoveFault::Edge => ListFault::Edge(i),
            MoveFault::Standing => ListFault::Standing(i),
        }
    }
}

// Is there an edge between two vertices? `adjacency::joined`, which tests them again, makes a replay slower (6.5 ns a move, not 4.5).
fn edge_between(rows: &[[u64; 2]; 128], u: Vertex, v: Vertex) -> bool
    requires { (u.0 < 128) × (v.0 < 128) }
    ensures { result ≡ bit_at rows.now u.0 v.0 }
{
    let a = u.0 as usize;
    let b = v.0 as usize;
    let word = rows[a][b / 64];
    let place = (b % 64) as u32;
    (word >> place) % 2 == 1
}

// Robot r's move between two vertices, tested on a map for k robots: 46, 47, 48.
fn fault_of(
    state: &State<128, 64>,
    graph: Graph,
    k: usize,
    r: Robot,
    from: Vertex,
    to: Vertex,
) -> Result<(), MoveFault>
    ensures { (m : Map) → m.size ≡ graph.entry.vertices → Shows graph.entry.rows.now m.edges → (i : ℕ) → fault_at i result ≡ move_tests m k state.now (mv r.0 from.0 to.0) i }
{
    let n = graph.vertices;
    if r.0 as usize >= k || from.0 as usize >= n || to.0 as usize >= n {
        return Err(MoveFault::Number);
    }
    if !edge_between(graph.rows, from, to) {
        return Err(MoveFault::Edge);
    }
    if state.robot_on(from) != r || state.robot_on(to) != Robot(255) {
        return Err(MoveFault::Standing);
    }
    Ok(())
}

// The lowest of k robots that is off its goal.
fn off_goal(state: &State<128, 64>, goals: &[u8; 64], k: usize) -> Option<usize>
    requires { k ≤ 64 }
    ensures { off_goal result ≡ on_goals 0 state.now.vertices (take k goals.now) }
{
    for i in 0..k {
        let off = state.vertex_of(Robot(i as u8)) != Vertex(goals[i]);
        if off {
            return Some(i);
        }
    }
    None
}

// Replays `count` moves from a state, as long as they are legal.
fn replay_moves(
    p: FiledPayload,
    count: u16,
    graph: Graph,
    k: usize,
    state: &mut State<128, 64>,
) -> Result<(), ListFault>
    ensures { (m : Map) → m.size ≡ graph.entry.vertices → Shows graph.entry.rows.now m.edges → ReplayOf m k (take p.entry.len (payload p.entry.file.now)) count state.old result state.new }
{
    let mut at: usize = 8;
    for i in 0..count as usize {
        if p.len < 5 + i * 3 {
            return Err(ListFault::Short(i));
        }
        let x = wire::three_from(p.file, at);
        let r = Robot(x.first);
        let from = Vertex(x.second);
        let to = Vertex(x.third);
        fault_of(state, graph, k, r, from, to).map_err(|f| f.of_move(i))?;
        state.shift(r, from, to);
        at = wire::place_after(at);
    }
    Ok(())
}

// How many moves the list of a payload has: legal, and to the goals.
pub fn check_moves(
    p: FiledPayload,
    graph: Graph,
    starts: [u8; 64],
    goals: [u8; 64],
    k: usize,
) -> Result<u16, ListFault>
    requires { k ≤ 64 }
    ensures { (m : Map) (pl : Placing) → m.size ≡ graph.entry.vertices → Shows graph.entry.rows.now m.edges → pl.starts ≡ take k starts → pl.goals ≡ take k goals → move_list_of (take p.entry.len (payload p.entry.file.now)) result ≡ checked_moves m pl (take p.entry.len (payload p.entry.file.now)) }
{
    if p.len < 2 {
        return Err(ListFault::Short(0));
    }
    let count = wire::payload_word(p.file, 0);
    let mut state = State::standing(starts, k);
    replay_moves(p, count, graph, k, &mut state)?;
    let whole = 2 + count as usize * 3;
    let off = off_goal(&state, &goals, k);
    if p.len != whole {
        return Err(ListFault::Short(count as usize));
    }
    if let Some(r) = off {
        return Err(ListFault::Goal(r));
    }
    Ok(count)
}

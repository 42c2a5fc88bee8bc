// A placing read from its file, accepted or refused (document 01, "Block files").
#![tactic(auto)]

ghost use Rattle.std.specs.Prelude.{◌≡◌, ℕ, List, ◌≤◌, get_or};
ghost use Rattle.spec.specs.Layout.{Map, placing_of};
ghost use Rattle.zoning.specs.Bytes.{bytes};
ghost use Rattle.placing.specs.declared.PlacingFault.TheVariants.{File};
ghost use Rattle.placing.specs.Placing.{placing_in, Marked, VertexIs, RobotsAre, PlacingIs};

use checking::{FileFault, check_file};
use numbering::{Robot, Vertex};
use wire::FileKind;
use zoning::PayloadBytes;

// Why a placing is refused, with the block or the payload offset.
#[derive(Clone, Copy, Debug, PartialEq, Eq)]
pub enum PlacingFault {
    File(FileFault),
    Short(usize),
    Range,
    Start(usize),
    Goal(usize),
}

impl From<FileFault> for PlacingFault {
    ghost from_gives = { λ f e. e ≡ File f };

    fn from(f: FileFault) -> PlacingFault {
        PlacingFault::File(f)
    }
}

// A placing. Robot r starts on vertex starts[r] and its goal is goals[r].
#[derive(Clone, Copy)]
pub struct PlacingTables {
    pub robots: u8,
    pub starts: [u8; 64],
    pub goals: [u8; 64],
}

// Reads the vertex at offset o, and marks it; the fault is of one that is not below n, or marked.
fn read_vertex(
    payload: &PayloadBytes,
    n: usize,
    o: usize,
    marks: &mut [bool; 256],
    fault: PlacingFault,
) -> Result<u8, PlacingFault>
    ensures { (l : List ℕ) → Marked l marks.old → VertexIs (bytes payload.now) n o l fault marks.new result }
{
    let v = payload.byte(o).ok_or(PlacingFault::Short(o))?;
    let i = v as usize;
    if i >= n || marks[i] {
        return Err(fault);
    }
    marks[i] = true;
    Ok(v)
}

// Reads the starts and goals of the robots.
fn read_robots(payload: &PayloadBytes, n: usize, robots: u8) -> Result<PlacingTables, PlacingFault>
    requires { robots ≤ 64 }
    ensures { RobotsAre (bytes payload.now) n robots result }
{
    let mut starts = [0u8; 64];
    let mut goals = [0u8; 64];
    let mut started = [false; 256];
    let mut ended = [false; 256];
    for i in 0..robots as usize {
        let o = 1 + i * 2;
        let q = o + 1;
        starts[i] = read_vertex(payload, n, o, &mut started, PlacingFault::Start(o))?;
        goals[i] = read_vertex(payload, n, q, &mut ended, PlacingFault::Goal(q))?;
    }
    Ok(PlacingTables {
        robots,
        starts,
        goals,
    })
}

// Reads a placing from its payload, on a map of n vertices.
fn read_payload(payload: &PayloadBytes, n: usize) -> Result<PlacingTables, PlacingFault>
    ensures { (p : Map) → p.size ≡ n → PlacingIs (placing_of p (bytes payload.now)) result }
{
    let robots = payload.byte(0).ok_or(PlacingFault::Short(0))?;
    let many = robots > 64;
    if many || robots as usize > n {
        return Err(PlacingFault::Range);
    }
    let tables = read_robots(payload, n, robots)?;
    let end = 1 + robots as usize * 2;
    if end != payload.len {
        return Err(PlacingFault::Short(end));
    }
    Ok(tables)
}

// Reads a placing file on a map of n vertices: the placing, or why it is refused.
pub fn read_placing(file: &[u8], n: usize) -> Result<PlacingTables, PlacingFault>
    ensures { (p : Map) → p.size ≡ n → PlacingIs (placing_in p file.now) result }
{
    let len = check_file(file, FileKind::Placing)?;
    read_payload(&PayloadBytes { file, len }, n)
}

// A robot's entry in the table of starts or of goals; 0 past the end.
pub fn vertex_of(table: &[u8; 64], r: Robot) -> Vertex
    ensures { result.0 ≡ get_or table.now r.0 0 }
{
    Vertex(table.get(r.0 as usize).copied().unwrap_or(0))
}

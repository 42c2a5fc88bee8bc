// Map, placing and move list, read and checked in document 01's order of files.
#![tactic(auto)]

ghost use Rattle.opening.specs.Opened.{FiledIs, OpenedIs, YardIs};

mod filed;

use adjacency::Rows;
use checking::check_file;
pub use filed::FiledMap;
use layout::{MapTables, read_map};
use placing::{PlacingTables, read_placing};
use refusals::Refusal;
use replay::{Graph, check_moves};
use wire::{FileKind, FiledPayload};
use zoning::PayloadBytes;

// A map and a placing that are accepted.
#[derive(Clone, Copy)]
pub struct Yard {
    pub map: MapTables<128>,
    pub placing: PlacingTables,
}

// A map, a placing and a move list of `count` moves that is legal and reaches the goals.
#[derive(Clone, Copy)]
pub struct Opened {
    pub yard: Yard,
    pub count: u16,
}

// A map's payload, where its blocks pass. Each service asks it before it makes rows and tables ready, which a refusal here does not need.
pub fn check_map(map: &[u8]) -> Result<FiledMap<'_>, Refusal>
    ensures { FiledIs map.now result }
{
    let len = check_file(map, FileKind::Map).map_err(Refusal::MapFile)?;
    Ok(FiledMap { file: map, len })
}

// Reads map and placing; the rows are the map's edges.
pub fn read_yard(map: &FiledMap, placed: &[u8], rows: &mut Rows) -> Result<Yard, Refusal>
    ensures { YardIs map.now.file.now placed.now rows.new result }
{
    let payload = PayloadBytes {
        file: map.file,
        len: map.len,
    };
    let tables = read_map(&payload, rows)?;
    let placing = read_placing(placed, tables.vertices())?;
    Ok(Yard {
        map: tables,
        placing,
    })
}

// Reads map, placing and move list, and checks the moves.
pub fn open_list(map: &FiledMap, placed: &[u8], moves: &[u8]) -> Result<Opened, Refusal>
    ensures { OpenedIs map.now.file.now placed.now moves.now result }
{
    let mut rows = Rows::blank();
    let yard = read_yard(map, placed, &mut rows)?;
    let len = check_file(moves, FileKind::Moves).map_err(Refusal::ListFile)?;
    let list = FiledPayload { file: moves, len };
    let vertices = yard.map.vertices();
    let graph = Graph {
        vertices,
        rows: rows.words(),
    };
    let PlacingTables {
        robots,
        starts,
        goals,
    } = yard.placing;
    let count = check_moves(list, graph, starts, goals, robots as usize)?;
    Ok(Opened { yard, count })
}

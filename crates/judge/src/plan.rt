// A whole plan judged on the lists: the count, the steps, the surplus, the goals.
ghost use Rattle.std.specs.Prelude.{◌≡◌, take};
ghost use Rattle.spec.specs.Layout.{Map, Placing};
ghost use Rattle.spec.specs.Terms.{zone_count};
ghost use Rattle.theory.specs.Maps.Placing.{Placed};
ghost use Rattle.wire.specs.Payload.{payload};
ghost use Rattle.walking.specs.OnMap.{GivenOn, PlacementOn};
ghost use Rattle.judge.specs.Judging.{JudgedTo};

use crate::ending::{lists_of, off_zone};
use crate::walk::walk;
use layout::MapTables;
use motion::State;
use testing::PlanFault;
use wire::FiledPayload;

// Judges the plan of a payload.
pub fn judge_plan(
    p: FiledPayload,
    map: &MapTables<128>,
    rows: &[[u64; 2]; 128],
    starts: [u8; 64],
    goals: [u8; 64],
    k: usize,
) -> Result<(), PlanFault>
    requires placement { PlacementOn map.now k rows.now starts goals }
    ensures { (m : Map) (pl : Placing) → GivenOn m k map.now rows.now → zone_count m ≡ map.now.zones → Placed m.size pl → pl.starts ≡ take k starts → pl.goals ≡ take k goals → JudgedTo m pl (take p.entry.len (payload p.entry.file.now)) result }
{
    if p.len < 2 {
        return Err(PlanFault::Short(0));
    }
    let count = wire::payload_word(p.file, 0);
    let s = State::standing(starts, k);
    let g = State::standing(goals, k);
    let mut lists = lists_of(&s, map);
    let next = walk(p, count, map, rows, k, &mut lists)?;
    if next != p.len {
        return Err(PlanFault::Short(count as usize));
    }
    match off_zone(map, &lists, &g) {
        Some(z) => Err(PlanFault::Goal(z)),
        None => Ok(()),
    }
}

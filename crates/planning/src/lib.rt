// A plan with its map and placing, judged and resolved.
#![tactic(auto)]

ghost use Rattle.std.specs.Prelude.{◌≡◌};
ghost use Rattle.planning.specs.Planned.{ClearedIs, JudgedIs, PlannedIs};

use adjacency::Rows;
use answers::Undelivered;
use checking::check_file;
use judge::judge_plan;
use opening::{FiledMap, Yard, check_map, read_yard};
use placing::PlacingTables;
use refusals::Refusal;
use resolve::resolve_plan;
use wire::{FileKind, FiledPayload};

// Reads map, placing and plan, and judges the plan: the map and placing of one that is cleared.
fn read_filed(map: &FiledMap, placed: &[u8], plan: &[u8]) -> Result<Yard, Refusal>
    ensures { ClearedIs map.now.file.now placed.now plan.now result }
{
    let mut rows = Rows::blank();
    let yard = read_yard(map, placed, &mut rows)?;
    let len = check_file(plan, FileKind::Plan).map_err(Refusal::PlanFile)?;
    let PlacingTables {
        robots,
        starts,
        goals,
    } = yard.placing;
    let steps = FiledPayload { file: plan, len };
    judge_plan(
        steps,
        &yard.map,
        rows.words(),
        starts,
        goals,
        robots as usize,
    )?;
    Ok(yard)
}

// Judges a plan with its placing and a map whose blocks have passed.
fn judge_filed(map: &FiledMap, placed: &[u8], plan: &[u8]) -> Result<(), Refusal>
    ensures { JudgedIs map.now.file.now placed.now plan.now result }
{
    read_filed(map, placed, plan)?;
    Ok(())
}

// Judges a plan with its map and placing, in document 01's order of files; for a map that is refused for its blocks no table is made ready.
pub fn judge_files(map: &[u8], placed: &[u8], plan: &[u8]) -> Result<(), Refusal>
    ensures { JudgedIs map.now placed.now plan.now result }
{
    let filed = check_map(map)?;
    judge_filed(&filed, placed, plan)
}

// Judges a plan with its placing and a map whose blocks have passed, and resolves one that is cleared.
fn resolve_filed(
    map: &FiledMap,
    placed: &[u8],
    plan: &[u8],
    out: &mut [u8],
) -> Result<usize, Refusal>
    ensures { PlannedIs map.now.file.now placed.now plan.now out.old result out.new }
{
    let Yard { map, placing } = read_filed(map, placed, plan)?;
    let PlacingTables {
        robots,
        starts,
        goals,
    } = placing;
    let too_long = Refusal::Answer(Undelivered::TooLong);
    resolve_plan(plan, &map, starts, goals, robots as usize, out).map_err(|_| too_long)
}

// Judges a plan with its map and placing, and resolves one that is cleared: its moves are counted, and laid into the buffer after the two bytes of
// the count. As in judging, the map's blocks are asked first.
pub fn resolve_files(
    map: &[u8],
    placed: &[u8],
    plan: &[u8],
    out: &mut [u8],
) -> Result<usize, Refusal>
    ensures { PlannedIs map.now placed.now plan.now out.old result out.new }
{
    let filed = check_map(map)?;
    resolve_filed(&filed, placed, plan, out)
}

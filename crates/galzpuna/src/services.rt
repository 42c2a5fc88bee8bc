// The services, which crates/galzpuna_c gives to C under the same names.
ghost use Rattle.std.specs.Prelude.{◌≡◌, length, []};
ghost use Rattle.spec.specs.Outcome.{u16};
ghost use Rattle.spec.specs.Services.{judging, resolving, drawing, rounds};
ghost use Rattle.wire.specs.Kind.{number_of_file, blocks_of_file};
ghost use Rattle.writer.specs.Laid.{laid_all};
ghost use Rattle.answers.specs.Delivered.{delivered_of};
ghost use Rattle.galzpuna.specs.Services.{answered, told, Small, Served};

use crate::Answer;
use answers::finish_file;
use drawing::draw_moves;
use motion::State;
use opening::{FiledMap, Opened, check_map, open_list};
use planning::{judge_files, resolve_files};
use refusals::Refusal;
use timing::write_rounds;
use wire::FileKind;
use writer::put_word;

// C's answer of what a service comes to: a refusal leaves the whole buffer zero.
fn answer(served: Result<usize, Refusal>, out: &mut [u8]) -> Answer
    requires { Small served }
    ensures { answered result out.new ≡ told served out.old }
{
    match served {
        Ok(bytes) => Answer {
            number: 0,
            place: bytes as u32,
        },
        Err(refusal) => {
            out.fill(0);
            Answer {
                number: refusal.number(),
                place: refusal.place() as u32,
            }
        }
    }
}

// Counts what was laid behind the two bytes of the count, and finishes the file of `len` payload bytes: how many bytes it has.
fn finish(out: &mut [u8], count: usize, kind: FileKind, len: usize) -> Result<usize, Refusal>
    ensures { Served (delivered_of (number_of_file kind) (blocks_of_file kind) len (laid_all out.old 0 (u16 count))) result out.new }
{
    put_word(out, 0, count);
    Ok(finish_file(out, kind, len)?)
}

// Judging: nothing is written.
fn judge(map: &[u8], placing: &[u8], plan: &[u8]) -> Result<usize, Refusal>
    ensures { Served (judging map.now placing.now plan.now) result [] }
{
    judge_files(map, placing, plan)?;
    Ok(0)
}

// Resolving: the bytes of the move list.
fn resolve(map: &[u8], placing: &[u8], plan: &[u8], out: &mut [u8]) -> Result<usize, Refusal>
    ensures { Served (resolving map.now placing.now plan.now (length out.old)) result out.new }
{
    let count = resolve_files(map, placing, plan, out)?;
    finish(out, count, FileKind::Moves, 2 + count * 3)
}

// Drawing, of a map whose blocks have passed: the bytes of the plan.
fn draw_filed(
    map: &FiledMap,
    placing: &[u8],
    moves: &[u8],
    out: &mut [u8],
) -> Result<usize, Refusal>
    ensures { Served (drawing map.now.file.now placing.now moves.now (length out.old)) result out.new }
{
    let Opened { yard, count } = open_list(map, placing, moves)?;
    let state = State::standing(yard.placing.starts, yard.placing.robots as usize);
    let drawn = draw_moves(moves, count, &yard.map, state, out);
    finish(out, drawn.steps, FileKind::Plan, drawn.bytes)
}

// Drawing, of any map; for one that is refused for its blocks no table is made ready.
fn draw(map: &[u8], placing: &[u8], moves: &[u8], out: &mut [u8]) -> Result<usize, Refusal>
    ensures { Served (drawing map.now placing.now moves.now (length out.old)) result out.new }
{
    let filed = check_map(map)?;
    draw_filed(&filed, placing, moves, out)
}

// Rounds, of a map whose blocks have passed: the bytes of the round sheet.
fn time_filed(
    map: &FiledMap,
    placing: &[u8],
    moves: &[u8],
    out: &mut [u8],
) -> Result<usize, Refusal>
    ensures { Served (rounds map.now.file.now placing.now moves.now (length out.old)) result out.new }
{
    let Opened { count, .. } = open_list(map, placing, moves)?;
    write_rounds(moves, count, out);
    finish(
        out,
        count as usize,
        FileKind::Rounds,
        2 + count as usize * 2,
    )
}

// Rounds, of any map, as drawing.
fn time(map: &[u8], placing: &[u8], moves: &[u8], out: &mut [u8]) -> Result<usize, Refusal>
    ensures { Served (rounds map.now placing.now moves.now (length out.old)) result out.new }
{
    let filed = check_map(map)?;
    time_filed(&filed, placing, moves, out)
}

// Judging: is the plan cleared? Nothing is written.
pub fn galzpuna_judge(map: &[u8], placing: &[u8], plan: &[u8]) -> Answer
    ensures { answered result [] ≡ judging map.now placing.now plan.now }
{
    let judged = judge(map, placing, plan);
    answer(judged, &mut [])
}

// Resolving: the move list of a plan that is cleared.
pub fn galzpuna_resolve(map: &[u8], placing: &[u8], plan: &[u8], out: &mut [u8]) -> Answer
    ensures { answered result out.new ≡ resolving map.now placing.now plan.now (length out.old) }
{
    let resolved = resolve(map, placing, plan, out);
    answer(resolved, out)
}

// Drawing: the plan of a move list that is legal and reaches the goals.
pub fn galzpuna_draw(map: &[u8], placing: &[u8], moves: &[u8], out: &mut [u8]) -> Answer
    ensures { answered result out.new ≡ drawing map.now placing.now moves.now (length out.old) }
{
    let drawn = draw(map, placing, moves, out);
    answer(drawn, out)
}

// Rounds: the round sheet of a move list that is legal and reaches the goals.
pub fn galzpuna_rounds(map: &[u8], placing: &[u8], moves: &[u8], out: &mut [u8]) -> Answer
    ensures { answered result out.new ≡ rounds map.now placing.now moves.now (length out.old) }
{
    let timed = time(map, placing, moves, out);
    answer(timed, out)
}

// The controller's services as a C host links them: slices in, a number and a place out, the answer buffer written in place. Each does what
// crates/galzpuna's function of its name does, and says the same. Slices must not overlap the answer buffer: that is the host's duty.
#![tactic(auto)]

ghost use Rattle.std.specs.Prelude.{◌≡◌, length, []};
ghost use Rattle.spec.specs.Services.{judging, resolving, drawing, rounds};
ghost use Rattle.galzpuna.specs.Services.{answered};

use galzpuna::Answer;

// Judging: is the plan cleared? Nothing is written.
#[unsafe(no_mangle)]
pub extern "C" fn galzpuna_judge(map: &[u8], placing: &[u8], plan: &[u8]) -> Answer
    ensures { answered result [] ≡ judging map.now placing.now plan.now }
{
    galzpuna::galzpuna_judge(map, placing, plan)
}

// Resolving: the move list of a plan that is cleared.
#[unsafe(no_mangle)]
pub extern "C" fn galzpuna_resolve(
    map: &[u8],
    placing: &[u8],
    plan: &[u8],
    out: &mut [u8],
) -> Answer
    ensures { answered result out.new ≡ resolving map.now placing.now plan.now (length out.old) }
{
    galzpuna::galzpuna_resolve(map, placing, plan, out)
}

// Drawing: the plan of a move list that is legal and reaches the goals.
#[unsafe(no_mangle)]
pub extern "C" fn galzpuna_draw(map: &[u8], placing: &[u8], moves: &[u8], out: &mut [u8]) -> Answer
    ensures { answered result out.new ≡ drawing map.now placing.now moves.now (length out.old) }
{
    galzpuna::galzpuna_draw(map, placing, moves, out)
}

// Rounds: the round sheet of a move list that is legal and reaches the goals.
#[unsafe(no_mangle)]
pub extern "C" fn galzpuna_rounds(
    map: &[u8],
    placing: &[u8],
    moves: &[u8],
    out: &mut [u8],
) -> Answer
    ensures { answered result out.new ≡ rounds map.now placing.now moves.now (length out.old) }
{
    galzpuna::galzpuna_rounds(map, placing, moves, out)
}

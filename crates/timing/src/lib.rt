// The rounds of a move list: last rounds are kept by robot and by vertex left, so that each move is looked at once.
#![tactic(auto)]

ghost use Rattle.std.specs.Prelude.{◌≡◌, []};
ghost use Rattle.spec.specs.State.{word_bytes, rounds_from};
ghost use Rattle.writer.specs.Laid.{laid_all};
ghost use Rattle.replay.specs.Moves.{moves_by, file_bytes};

// Lays the round of each of the list's first `count` moves, after the two bytes of the count.
pub fn write_rounds(file: &[u8], count: u16, out: &mut [u8])
    ensures { out.new ≡ laid_all out.old 2 (word_bytes (rounds_from [] (moves_by (file_bytes file.now) 0 count))) }
{
    let mut last = [0u32; 256];
    let mut left = [0u32; 256];
    let mut at = 8;
    let mut place = 8;
    for _i in 0..count {
        let x = wire::three_from(file, at);
        let r = x.first as usize;
        let u = x.second as usize;
        let v = x.third as usize;
        let round = (last[r] + 1).max(left[v]);
        last[r] = round;
        left[u] = round;
        writer::put_word_at(out, place, round as u16);
        at = wire::place_after(at);
        place = writer::word_after(place);
    }
}

// The text of three files: MAP, PLACING and PLAN.
ghost use Rattle.std.specs.Prelude.{◌≤◌};
ghost use Rattle.lines.specs.Text.{Put};
ghost use Rattle.lines.specs.Listing.{listing_of};

use galzpuna::Answer;
use lines::{put_moves, put_refusal};

// Puts the listing: the moves that the plan is resolved into with their rounds, or the refusal.
pub fn listing(map: &[u8], placing: &[u8], plan: &[u8], text: &mut [u8]) -> usize
    ensures put { Put text.old 0 (listing_of map.now placing.now plan.now) text.new result }
    ensures upper_bound { result ≤ 387066 }
{
    let mut moves = [0u8; 65536];
    let Answer { number, place } = galzpuna::galzpuna_resolve(map, placing, plan, &mut moves);
    if number != 0 {
        return put_refusal(number, place, text);
    }
    let len = place as usize;
    let mut sheet = [0u8; 65536];
    galzpuna::galzpuna_rounds(map, placing, &moves[..len], &mut sheet);
    let count = wire::payload_word(&moves, 0);
    put_moves(&moves, &sheet, count as usize, text)
}

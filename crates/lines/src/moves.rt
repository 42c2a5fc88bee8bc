// The lines of a listing: its moves with their rounds, or a refusal.
ghost use Rattle.std.specs.Prelude.{◌+◌, ◌*◌, ◌≤◌, ◌++◌};
ghost use Rattle.replay.specs.Moves.{file_bytes};
ghost use Rattle.lines.specs.Text.{Put};
ghost use Rattle.lines.specs.Listing.{moves_word, newline, field, refused_text};
ghost use Rattle.lines.specs.Lines.{line_by, lines_by};

use crate::fields::{put_field, put_word};

// Puts the line of move i: cart, from, to, round.
fn put_line(moves: &[u8], sheet: &[u8], i: usize, text: &mut [u8], at: usize) -> usize
    requires { (at ≤ 4294967000) × (i ≤ 65536) }
    ensures put { Put text.old at (line_by (file_bytes moves.now) (file_bytes sheet.now) i) text.new result }
    ensures upper_bound { result ≤ at + 18 }
{
    let robot = wire::payload_byte(moves, 2 + i * 3);
    let from = wire::payload_byte(moves, 3 + i * 3);
    let to = wire::payload_byte(moves, 4 + i * 3);
    let round = wire::payload_word(sheet, 2 + i * 2);
    let a = put_field(text, at, robot as u32, b' ');
    let b = put_field(text, a, from as u32, b' ');
    let c = put_field(text, b, to as u32, b' ');
    put_field(text, c, round as u32, b'\n')
}

// Puts the lines of all moves.
fn put_lines(moves: &[u8], sheet: &[u8], count: usize, text: &mut [u8], at: usize) -> usize
    requires { (at ≤ 100) × (count ≤ 65536) }
    ensures put { Put text.old at (lines_by (file_bytes moves.now) (file_bytes sheet.now) 0 count) text.new result }
    ensures upper_bound { result ≤ at + count * 18 }
{
    let mut next = at;
    for i in 0..count {
        next = put_line(moves, sheet, i, text, next);
    }
    next
}

// Puts the header with the count, and the lines.
pub fn put_moves(moves: &[u8], sheet: &[u8], count: usize, text: &mut [u8]) -> usize
    requires { count ≤ 21503 }
    ensures put { Put text.old 0 (moves_word ++ field count newline ++ lines_by (file_bytes moves.now) (file_bytes sheet.now) 0 count) text.new result }
    ensures upper_bound { result ≤ 387066 }
{
    let head = put_word(text, b"moves ");
    let at = put_field(text, head, count as u32, b'\n');
    put_lines(moves, sheet, count, text, at)
}

// Puts the line of a refusal.
pub fn put_refusal(number: u32, place: u32, text: &mut [u8]) -> usize
    ensures put { Put text.old 0 (refused_text number place) text.new result }
    ensures upper_bound { result ≤ 387066 }
{
    let head = put_word(text, b"refused ");
    let at = put_field(text, head, number, b' ');
    put_field(text, at, place, b'\n')
}

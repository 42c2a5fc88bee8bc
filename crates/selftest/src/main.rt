// Checks, through the library, document 01's examples that are not proved as rows of one list ("Yards to try", not marked P), and RFC 1071's
// published example. A line for each check: ok, or what came instead; a last line counts them.
//
//     files    the files of the checks
//     report   the lines
#![tactic(auto)]

ghost use Rattle.std.specs.Prelude.{◌≤◌};

mod files;
mod report;

use galzpuna::Answer;
use report::{told, told_number};
use std::io;

// Judging of a hall of n vertices, k robots on their goals and no steps.
fn judged(n: u8, k: u8) -> Answer {
    let mut map = [0u8; 512];
    files::hall_map(&mut map, n);
    let mut placing = [0u8; 512];
    files::at_goals(&mut placing, k);
    let mut plan = [0u8; 512];
    files::no_steps(&mut plan);
    galzpuna::galzpuna_judge(&map, &placing, &plan)
}

// "No carts, no steps: an empty list in one block": resolving of a hall of one vertex.
fn empty_list(out: &mut [u8]) -> Answer {
    let mut map = [0u8; 512];
    files::hall_map(&mut map, 1);
    let mut placing = [0u8; 512];
    files::at_goals(&mut placing, 0);
    let mut plan = [0u8; 512];
    files::no_steps(&mut plan);
    galzpuna::galzpuna_resolve(&map, &placing, &plan, out)
}

// The bytes in which the empty list differs from its block: kind 4, fill 2, checksum FBFD, all else 0.
fn empty_list_differences(out: &[u8; 512]) -> u32 {
    let mut block = [0u8; 512];
    block[0] = 4;
    block[5] = 2;
    block[510] = 0xfb;
    block[511] = 0xfd;
    files::differences(out, &block)
}

// "Outside track at a stack's second point": hall 0, stack 1, 2, edges 0-2 and 1-2.
fn outside_track() -> Answer {
    let mut map = [0u8; 512];
    files::stack_map(&mut map);
    galzpuna::galzpuna_judge(&map, &map, &map)
}

// The answer to a block that begins with the bytes of RFC 1071's example, section 3, and stores this checksum: 12 where it is wrong; where it is
// right the block comes as far as its kind, which is wrong: 13.
fn rfc_block(stored: u16) -> Answer {
    let mut block = [0u8; 512];
    block[..8].copy_from_slice(&[0x00, 0x01, 0xf2, 0x03, 0xf4, 0xf5, 0xf6, 0xf7]);
    block[510..].copy_from_slice(&stored.to_be_bytes());
    galzpuna::galzpuna_judge(&block, &block, &block)
}

// The least stored number that passes as that block's checksum; 65535 where none below it does.
fn rfc_checksum() -> u32 {
    (0..65535u16)
        .find(|stored| rfc_block(*stored).number == 13)
        .map_or(65535, u32::from)
}

fn main(rt: HostRuntime) -> io::Result<()> {
    let mut out = [0u8; 512];
    let a = told(&rt, "no carts, no steps", empty_list(&mut out), 0, 512);
    let b = told_number(
        &rt,
        "bytes that differ from the empty list's block",
        empty_list_differences(&out),
        0,
    );
    let c = told(&rt, "128 points", judged(128, 0), 0, 0);
    let d = told(&rt, "129 points", judged(129, 0), 16, 0);
    let e = told(&rt, "64 carts", judged(128, 64), 0, 0);
    let f = told(&rt, "65 carts", judged(128, 65), 26, 0);
    let g = told(
        &rt,
        "outside track at a stack's second point",
        outside_track(),
        19,
        1,
    );
    let h = told_number(
        &rt,
        "RFC 1071's example, its checksum",
        rfc_checksum(),
        0x220d,
    );
    report::last(&rt, 8, a + b + c + d + e + f + g + h)
}

// The lines that the checks print.
ghost use Rattle.std.specs.Prelude.{◌≤◌};

use galzpuna::Answer;
use std::io;

// The line of an answer that should have this number and place; 1 where it has not, or where the line can't be written.
pub fn told(rt: &impl Print, name: &str, a: Answer, number: u32, place: u32) -> u32
    ensures { result ≤ 1 }
{
    if a == (Answer { number, place }) {
        return said(println!(rt; "{name}: ok"), 0);
    }
    let got = a.number;
    let at = a.place;
    said(
        println!(rt; "{name}: {got} {at} instead of {number} {place}"),
        1,
    )
}

// The line of a number that should be this one; 1 where it is not, or where the line can't be written.
pub fn told_number(rt: &impl Print, name: &str, got: u32, wanted: u32) -> u32
    ensures { result ≤ 1 }
{
    if got == wanted {
        return said(println!(rt; "{name}: ok"), 0);
    }
    said(println!(rt; "{name}: {got} instead of {wanted}"), 1)
}

// How many checks failed, after their line: at least one where it was not written.
fn said(line: io::Result<()>, failed: u32) -> u32
    requires { failed ≤ 1 }
    ensures { result ≤ 1 }
{
    match line {
        Ok(()) => failed,
        Err(_) => 1,
    }
}

// The last line: how many checks there were, and how many failed.
pub fn last(rt: &impl Print, checks: u32, failed: u32) -> io::Result<()> {
    println!(rt; "{checks} checks, {failed} failed")
}

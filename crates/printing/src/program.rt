// The listing program: reads MAP, PLACING and PLAN in the folder it runs in, and prints their listing.
ghost use Rattle.std.specs.Prelude.{◌≤◌, length};

use crate::files::listing;
use std::io::{Read, Write};
use std::rt::Files;
use std::{fs, io};

// Reads a file into the buffer, as far as it goes; a missing file has no bytes.
fn read_file<'b, R: Files>(rt: &R, name: &str, buffer: &'b mut [u8]) -> &'b [u8]
    ensures { length result.now ≤ length buffer.old }
{
    match fs::open(rt, name) {
        Ok(mut file) => {
            let n = read_full(&mut file, buffer);
            &buffer[..n]
        }
        Err(_) => &[],
    }
}

// Reads until the buffer is full, the input ends or a read fails, and answers how many bytes it put at the start of the buffer. A `for` over the
// input's bytes would read them one by one.
fn read_full<R: Read>(input: &mut R, buffer: &mut [u8]) -> usize
    ensures { result ≤ length buffer.new }
{
    let mut done = 0;
    while done < buffer.len() {
        match input.read(&mut buffer[done..]) {
            Ok(0) | Err(_) => break,
            Ok(n) => done += n,
        }
    }
    done
}

// Each file is read one byte further than the longest valid one; the text's buffer holds the longest listing.
pub fn run<R: Files + Print>(rt: &R) -> io::Result<()> {
    let mut map = [0u8; 4609];
    let mut placing = [0u8; 513];
    let mut plan = [0u8; 32769];
    let mut text = [0u8; 387066];
    let n = listing(
        read_file(rt, "MAP", &mut map),
        read_file(rt, "PLACING", &mut placing),
        read_file(rt, "PLAN", &mut plan),
        &mut text,
    );
    io::writer(rt).write_all(&text[..n])
}

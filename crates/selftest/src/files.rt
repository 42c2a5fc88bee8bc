// Block files built in code: payload bytes are put to their places, and the file is finished by the library's own writer.
ghost use Rattle.std.specs.Prelude.{◌≤◌};

use wire::FileKind;

// Finishes the file of `len` payload bytes. One that is not finished is all zero, which its check shows.
fn finish(file: &mut [u8], kind: FileKind, len: usize) {
    let _ = answers::deliver(file, kind, len);
}

// A map of one hall of n vertices, listed in number order.
pub fn hall_map(file: &mut [u8], n: u8) {
    writer::put_byte(file, 0, n);
    writer::put_byte(file, 1, 1);
    writer::put_byte(file, 2, 2);
    writer::put_byte(file, 3, n);
    list_vertices(file, n);
    let m = usize::from(n);
    let edges = put_edges(file, n);
    writer::put_word(file, 4 + m, edges);
    finish(file, FileKind::Map, 6 + m + 2 * edges);
}

// Lists the n vertices of the one zone.
fn list_vertices(file: &mut [u8], n: u8) {
    for i in 0..n {
        writer::put_byte(file, 4 + usize::from(i), i);
    }
}

// Puts an edge between each two neighbours of n vertices, and answers how many there are.
fn put_edges(file: &mut [u8], n: u8) -> usize
    ensures { result ≤ 255 }
{
    let m = usize::from(n);
    for i in 1..n {
        let at = 4 + m + 2 * usize::from(i);
        writer::put_byte(file, at, i - 1);
        writer::put_byte(file, at + 1, i);
    }
    m.saturating_sub(1)
}

// A placing of k robots, each on its goal.
pub fn at_goals(file: &mut [u8], k: u8) {
    writer::put_byte(file, 0, k);
    for i in 0..k {
        let at = 1 + 2 * usize::from(i);
        writer::put_byte(file, at, i);
        writer::put_byte(file, at + 1, i);
    }
    finish(file, FileKind::Placing, 1 + 2 * usize::from(k));
}

// A plan of no steps.
pub fn no_steps(file: &mut [u8]) {
    writer::put_word(file, 0, 0);
    finish(file, FileKind::Plan, 2);
}

// A map of three vertices: hall 0, stack 1, 2, edges 0-2 and 1-2.
pub fn stack_map(file: &mut [u8]) {
    writer::put_three(file, 0, 3, 2, 2);
    writer::put_three(file, 3, 1, 0, 1);
    writer::put_three(file, 6, 2, 1, 2);
    writer::put_word(file, 9, 2);
    writer::put_byte(file, 11, 0);
    writer::put_three(file, 12, 2, 1, 2);
    finish(file, FileKind::Map, 15);
}

// How many bytes of two blocks differ.
pub fn differences(a: &[u8; 512], b: &[u8; 512]) -> u32 {
    a.iter().zip(b).filter(|(x, y)| x != y).count() as u32
}

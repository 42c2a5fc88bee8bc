// A payload read where it stands in the file: 504 bytes of each block, after its head.
ghost use Rattle.std.specs.Prelude.{◌≡◌, ℕ, ◌+◌, ◌-◌, ◌*◌, ◌/◌, ◌%◌, ◌<◌, ◌≤◌, length, get_or};
ghost use Rattle.wire.specs.Payload.{place_of, word_at, ThreeAt, FourAt, Copied};

use crate::{Four, Three};

// Where byte `off` of a payload stands in its file.
pub fn place_of(off: usize) -> usize
    requires { off < 13835058055282163712 }
    ensures { result ≡ place_of off }
{
    off + off / 504 * 8 + 6
}

// Byte `at` of the file; 0 past its end.
pub fn byte_at(file: &[u8], at: usize) -> u8
    ensures { result ≡ get_or file.now at 0 }
{
    file.get(at).copied().unwrap_or(0)
}

// Byte `off` of the payload; 0 past the file's end.
pub fn payload_byte(file: &[u8], off: usize) -> u8
    ensures { result ≡ get_or file.now (place_of off) 0 }
{
    if off < file.len() {
        byte_at(file, place_of(off))
    } else {
        0
    }
}

// The two-byte number at `off` of the payload, its high byte first.
pub fn payload_word(file: &[u8], off: usize) -> u16
    ensures { (result ≡ word_at file.now off) × (result < 65536) }
{
    if off < file.len() {
        let high = u16::from(payload_byte(file, off));
        let low = u16::from(payload_byte(file, off + 1));
        high * 256 + low
    } else {
        0
    }
}

// Where the next payload byte stands: a block's last is its byte 509, and the next block's first is its byte 6.
pub fn next_place(at: usize) -> usize
    requires { at < 13835058055282163712 }
    ensures { (at < result) × (result ≤ at + 9) × ((off : ℕ) → at ≡ place_of off → result ≡ place_of (off + 1)) }
{
    if at % 512 == 509 { at + 9 } else { at + 1 }
}

// Where the payload byte stands that is three after the one at `at`.
pub fn place_after(at: usize) -> usize
    requires { at < 4611686018427387904 }
    ensures { (off : ℕ) → at ≡ place_of off → result ≡ place_of (off + 3) }
{
    if at % 512 < 507 { at + 3 } else { at + 11 }
}

// N bytes of the payload from place `at` of the file on, 0 past its end: at once where one block and the file have all of them.
fn bytes_from<const N: usize>(file: &[u8], at: usize) -> [u8; N]
    requires { N ≤ 504 }
    ensures { (off : ℕ) → at ≡ place_of off → Copied file.now off result N }
{
    let mut bytes = [0; N];
    let inside = at % 512 + N <= 510;
    if inside && N <= file.len() && at <= file.len() - N {
        bytes.copy_from_slice(&file[at..at + N]);
    } else {
        let mut place = at;
        for byte in &mut bytes {
            *byte = byte_at(file, place);
            // Past the file's end any place reads 0.
            if place < file.len() {
                place = next_place(place);
            }
        }
    }
    bytes
}

// Three bytes of the payload from place `at` of the file on, as those of a move.
pub fn three_from(file: &[u8], at: usize) -> Three
    ensures { (off : ℕ) → at ≡ place_of off → ThreeAt file.now off result }
{
    let [first, second, third] = bytes_from::<3>(file, at);
    Three {
        first,
        second,
        third,
    }
}

// Four bytes of the payload from `off` on, as those of a step.
pub fn payload_four(file: &[u8], off: usize) -> Four
    requires { off + 4 ≤ length file.now / 512 * 504 }
    ensures { FourAt file.now off result }
{
    let [first, second, third, fourth] = bytes_from::<4>(file, place_of(off));
    Four {
        first,
        second,
        third,
        fourth,
    }
}

// The same of a step that may not be there: 0 where the file's blocks do not have four bytes from `off` on.
pub fn payload_ahead(file: &[u8], off: usize) -> Four
    requires { off < 13835058055282163712 }
    ensures { (off + 4 ≤ length file.now / 512 * 504 → FourAt file.now off result) × (length file.now / 512 * 504 < off + 4 → (result.first ≡ 0) × (result.second ≡ 0) × (result.third ≡ 0) × (result.fourth ≡ 0)) }
{
    let there = off + 4 <= file.len() / 512 * 504;
    if there {
        payload_four(file, off)
    } else {
        Four::default()
    }
}

// Copies the payload's bytes from `from` on, as many as there is room for: block by block.
pub fn payload_part(file: &[u8], from: usize, out: &mut [u8])
    requires { from + length out.old ≤ length file.now / 512 * 504 }
    ensures { Copied file.now from out.new (length out.old) }
{
    let n = out.len();
    let mut i = 0;
    // Each turn steps by what is left of a block.
    while i < n {
        let at = place_of(from + i);
        let left = 510 - at % 512;
        let e = n.min(i + left);
        out[i..e].copy_from_slice(&file[at..at + (e - i)]);
        i = e;
    }
}

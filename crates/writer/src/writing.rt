// A payload written where it will stand in the buffer: each byte put to its place.
ghost use Rattle.std.specs.Prelude.{◌≡◌, [], ◌∷◌, ℕ, ◌+◌, ◌%◌, ◌<◌, ◌≤◌};
ghost use Rattle.spec.specs.Outcome.{u16};
ghost use Rattle.wire.specs.Payload.{place_of};
ghost use Rattle.writer.specs.Laid.{laid, laid_all};

use wire::place_of;

// Puts byte `off` of a payload to its place, if the buffer has it.
pub fn put_byte(out: &mut [u8], off: usize, b: u8)
    ensures { out.new ≡ laid out.old off b }
{
    if off < out.len() {
        let at = place_of(off);
        if at < out.len() {
            out[at] = b;
        }
    }
}

// The two bytes of n, its high byte first; what is over 65535 is left out.
pub fn word_bytes(n: usize) -> [u8; 2]
    ensures { result ≡ u16 n }
{
    [(n / 256 % 256) as u8, (n % 256) as u8]
}

// Puts bytes to their places from `off` on: at once where one block and the buffer have all of them.
fn put_bytes<const N: usize>(out: &mut [u8], off: usize, bytes: [u8; N])
    requires { N ≤ 504 }
    ensures { out.new ≡ laid_all out.old off bytes.entry }
{
    if off < out.len() {
        let at = place_of(off);
        let inside = at % 512 + N <= 510;
        let whole = inside && at + N <= out.len();
        if whole {
            out[at..at + N].copy_from_slice(&bytes);
        } else {
            for (i, b) in bytes.iter().enumerate() {
                put_byte(out, off + i, *b);
            }
        }
    }
}

// Puts n to its place as the two-byte number at `off` of a payload, its high byte first.
pub fn put_word(out: &mut [u8], off: usize, n: usize)
    ensures { out.new ≡ laid_all out.old off (u16 n) }
{
    put_bytes(out, off, word_bytes(n));
}

// Puts n to place `at` of the buffer as a two-byte number that one block holds.
pub fn put_word_at(out: &mut [u8], at: usize, n: u16)
    ensures { (off : ℕ) → at ≡ place_of off → off % 504 < 503 → out.new ≡ laid_all out.old off (u16 n) }
{
    let [high, low] = word_bytes(usize::from(n));
    if at < out.len() {
        out[at] = high;
        if at + 1 < out.len() {
            out[at + 1] = low;
        }
    }
}

// Where the next two-byte number stands, after one at `at` that one block holds.
pub fn word_after(at: usize) -> usize
    requires { at < 4611686018427387904 }
    ensures { (off : ℕ) → at ≡ place_of off → off % 504 < 503 → result ≡ place_of (off + 2) }
{
    if at % 512 == 508 { at + 10 } else { at + 2 }
}

// Puts three bytes, as those of a move, to their places from `off` on.
pub fn put_three(out: &mut [u8], off: usize, a: u8, b: u8, c: u8)
    ensures { out.new ≡ laid_all out.old off (a ∷ b ∷ c ∷ []) }
{
    put_bytes(out, off, [a, b, c]);
}

// An answer finished in place, in the buffer where its payload stands: heads, fill, padding, checksums (document 01, "Block files").
#![tactic(auto)]

ghost use Rattle.std.specs.Prelude.{◌≡◌, ◌++◌, ◌+◌, ◌-◌, ◌*◌, ◌/◌, ◌≤◌, length, take, drop, replicate, IfOk};
ghost use Rattle.spec.specs.Wire.{block_of, file_of};
ghost use Rattle.wire.specs.Kind.{number_of_file, blocks_of_file};
ghost use Rattle.wire.specs.Payload.{payload};
ghost use Rattle.answers.specs.Delivered.{answered, zeroed, delivered_of, Sized};

use checksum::checksum_of;
use wire::FileKind;
use writer::word_bytes;

// Why an answer is not delivered: it is over its kind's blocks (61), or over the buffer (60).
#[derive(Clone, Copy, Debug, PartialEq, Eq)]
pub enum Undelivered {
    TooLong,
    NoRoom,
}

// Makes block i of the 512 bytes, of which the first `fill` after the head are payload.
// They come as a slice: where the part of a longer slice is lent as an array, no clause of the library says what the slice ends as.
fn seal_block(part: &mut [u8], kind: u8, i: usize, fill: usize)
    requires { (length part.old ≡ 512) × (fill ≤ 504) }
    ensures { part.new ≡ block_of kind i (take fill (drop 6 part.old)) }
{
    let Some(b) = part.as_mut_array::<512>() else {
        unreachable!()
    };
    let [number_high, number_low] = word_bytes(i);
    let [fill_high, fill_low] = word_bytes(fill);
    b[..6].copy_from_slice(&[kind, 0, number_high, number_low, fill_high, fill_low]);
    b[6 + fill..].fill(0);
    let sum = word_bytes(checksum_of(b));
    b[510..].copy_from_slice(&sum);
}

// Makes the file of the first `len` bytes of the payload that stands in the buffer; the rest of the buffer is 0.
fn seal(out: &mut [u8], kind: u8, len: usize)
    requires { (len + 503) / 504 * 512 ≤ length out.old }
    ensures { out.new ≡ file_of kind (take len (payload out.old)) ++ replicate (length out.old - (len + 503) / 504 * 512) 0 }
{
    let n = (len + 503) / 504;
    for i in 0..n {
        let at = i * 512;
        let fill = (len - i * 504).min(504);
        seal_block(&mut out[at..at + 512], kind, i, fill);
    }
    out[n * 512..].fill(0);
}

// How many bytes the file of `len` payload bytes has, where `limit` blocks and a buffer of `room` bytes can hold it.
fn file_size(room: usize, limit: u16, len: usize) -> Result<usize, Undelivered>
    ensures { Sized room limit len result }
{
    let most = 504 * usize::from(limit);
    let over = len > most;
    if over {
        return Err(Undelivered::TooLong);
    }
    let short = len > room / 512 * 504;
    if short {
        return Err(Undelivered::NoRoom);
    }
    Ok((len + 503) / 504 * 512)
}

// Finishes an answer as `finish_file` does, for any number of a kind, and for at most `limit` blocks.
fn finish_kind(out: &mut [u8], kind: u8, limit: u16, len: usize) -> Result<usize, Undelivered>
    ensures answer { zeroed result out.new ≡ delivered_of kind limit len out.old }
    ensures upper_bound { IfOk result (λ n. n ≤ limit * 512) }
{
    let size = file_size(out.len(), limit, len)?;
    seal(out, kind, len);
    Ok(size)
}

// Finishes an answer of `len` payload bytes, and gives the length of its file; where it is not delivered, the buffer is still to be made 0.
pub fn finish_file(out: &mut [u8], kind: FileKind, len: usize) -> Result<usize, Undelivered>
    ensures answer { zeroed result out.new ≡ delivered_of (number_of_file kind) (blocks_of_file kind) len out.old }
    ensures upper_bound { IfOk result (λ n. n ≤ blocks_of_file kind * 512) }
{
    finish_kind(out, kind.number(), kind.most_blocks(), len)
}

// The same, and where it is not delivered, the whole buffer is 0.
pub fn deliver(out: &mut [u8], kind: FileKind, len: usize) -> Result<usize, Undelivered>
    ensures answer { answered result out.new ≡ delivered_of (number_of_file kind) (blocks_of_file kind) len out.old }
    ensures upper_bound { IfOk result (λ n. n ≤ blocks_of_file kind * 512) }
{
    deliver_kind(out, kind.number(), kind.most_blocks(), len)
}

// The same for any number of a kind, and for at most `limit` blocks.
pub fn deliver_kind(out: &mut [u8], kind: u8, limit: u16, len: usize) -> Result<usize, Undelivered>
    ensures answer { answered result out.new ≡ delivered_of kind limit len out.old }
    ensures upper_bound { IfOk result (λ n. n ≤ limit * 512) }
{
    match finish_kind(out, kind, limit, len) {
        Ok(size) => Ok(size),
        Err(fault) => {
            out.fill(0);
            Err(fault)
        }
    }
}

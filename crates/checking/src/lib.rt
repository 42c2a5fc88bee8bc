// What a file is (document 01, "Block files"): each block's checksum, its head, its fill and padding, blocks in order.
#![tactic(auto)]

ghost use Rattle.std.specs.Prelude.{◌≡◌, ℕ, eqb};
ghost use Rattle.spec.specs.Outcome.{all};
ghost use Rattle.spec.specs.Wire.{head_ok, filled, fill_ok, payload_of};
ghost use Rattle.wire.specs.Kind.{number_of_file, blocks_of_file};
ghost use Rattle.checking.specs.Block.{sum_ok};
ghost use Rattle.checking.specs.Checked.{checked_of, Held};

use checksum::{total, word_at};
use wire::FileKind;

// Which of document 01's four refusals a file meets, and at which block.
#[derive(Clone, Copy, Debug, PartialEq, Eq)]
pub enum FileFault {
    Length,
    Checksum(usize),
    Head(usize),
    Fill(usize),
}

// Is the stored checksum that of the block's other bytes? It is where all words sum to a multiple of 65535; but 65535 itself is
// stored for zeros alone.
fn sum_ok(block: &[u8; 512]) -> bool
    ensures { result ≡ sum_ok block.now }
{
    let stored = word_at(block, 510);
    let all_ones = stored == 65535;
    if all_ones {
        return zeros(&block[..510]);
    }
    let s = total(block);
    s != 0 && s % 65535 == 0
}

// Are bytes 0-3 the kind, zero, and the block's number i?
fn head_ok(block: &[u8; 512], i: usize, kind: u8) -> bool
    ensures { result ≡ head_ok kind i block.now }
{
    block[0] == kind && block[1] == 0 && word_at(block, 2) == i
}

// May a block hold n bytes of payload?
fn fill_allowed(n: usize, last: bool) -> bool
    ensures { result ≡ filled last n }
{
    if last {
        let some = 1 <= n;
        some && n <= 504
    } else {
        n == 504
    }
}

// Are all these bytes 0? It has no early exit, so that several are tested at once.
fn zeros(bytes: &[u8]) -> bool
    ensures { result ≡ all (λ x. eqb x 0) bytes.now }
{
    bytes.iter().fold(0, |any, b| any | *b) == 0
}

// Is the fill allowed, and the padding after it zero?
fn fill_ok(block: &[u8; 512], last: bool) -> bool
    ensures { result ≡ fill_ok last block.now }
{
    let n = word_at(block, 4);
    fill_allowed(n, last) && zeros(&block[6 + n..510])
}

// The length of the payload of a file of this kind.
pub fn check_file(file: &[u8], kind: FileKind) -> Result<usize, FileFault>
    ensures by_index { (base : ℕ) → checked_of base file.now result ≡ payload_of base (number_of_file kind) (blocks_of_file kind) file.now }
    ensures held { Held (blocks_of_file kind) file.now result }
{
    check_kind(file, kind.number(), usize::from(kind.most_blocks()))
}

// The same for any number of a kind, and for at most `limit` blocks.
pub fn check_kind(file: &[u8], kind: u8, limit: usize) -> Result<usize, FileFault>
    ensures by_index { (base : ℕ) → checked_of base file.now result ≡ payload_of base kind limit file.now }
    ensures held { Held limit file.now result }
{
    let (blocks, rest) = file.as_chunks::<512>();
    let count = blocks.len();
    if !rest.is_empty() || count < 1 || count > limit {
        return Err(FileFault::Length);
    }
    let mut len = 0;
    for (i, block) in blocks.iter().enumerate() {
        if !sum_ok(block) {
            return Err(FileFault::Checksum(i));
        }
        if !head_ok(block, i, kind) {
            return Err(FileFault::Head(i));
        }
        if !fill_ok(block, i + 1 == count) {
            return Err(FileFault::Fill(i));
        }
        len += word_at(block, 4);
    }
    Ok(len)
}

// The Internet checksum (RFC 1071) of a block: summed in a wide number, folded once at the end.
#![tactic(auto)]

ghost use Rattle.std.specs.Prelude.{◌≡◌, ◌+◌, ◌*◌, ◌<◌, length, take};
ghost use Rattle.spec.specs.Wire.{word, sum_words, checksum};
ghost use Rattle.checksum.specs.Sum.{folded, little};

// The two-byte number at o, its high byte first.
pub fn word_at(file: &[u8], o: usize) -> usize
    requires { o + 1 < length file.now }
    ensures { (result ≡ word file.now o) × (result < 65536) }
{
    usize::from(u16::from_be_bytes([file[o], file[o + 1]]))
}

// The 32-bit number at o, its low byte first.
fn little_at(file: &[u8], o: usize) -> usize
    requires { o + 3 < length file.now }
    ensures { (result ≡ little file.now o) × (result < 4294967296) }
{
    u32::from_le_bytes([file[o], file[o + 1], file[o + 2], file[o + 3]]) as usize
}

// A block's bytes summed with the low byte first, four bytes at once, in two sums that don't wait for each other.
// 256 times the result folds to the sum of the words: the order of the bytes doesn't matter to it (RFC 1071, 2 (B)).
pub fn total(block: &[u8; 512]) -> usize
    ensures { (folded (result * 256) ≡ sum_words block.now) × (result < 1099511627776) }
{
    let mut even = 0;
    let mut odd = 0;
    for i in 0..64 {
        let o = i * 8;
        even += little_at(block, o);
        odd += little_at(block, o + 4);
    }
    even + odd
}

// The checksum of a block's first 510 bytes, where the two bytes after them are 0.
pub fn checksum_of(block: &[u8; 512]) -> usize
    requires { word block.now 510 ≡ 0 }
    ensures { result ≡ checksum (take 510 block.now) }
{
    let s = total(block);
    if s == 0 {
        return 65535;
    }
    65534 - (s * 256 - 1) % 65535
}

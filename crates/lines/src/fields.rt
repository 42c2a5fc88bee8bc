// Text put into a buffer from a place on; what is past the buffer's end is left out.
// Numbers go by no `write!`, whose contract lets it fail, since these functions cannot. `text` and `at` are no struct, since each
// method of one that lends the buffer would also have to promise that it still holds the same buffer.
ghost use Rattle.std.specs.Prelude.{◌≡◌, ◌+◌, ◌≤◌, set};
ghost use Rattle.lines.specs.Text.{decimal, Put};
ghost use Rattle.lines.specs.Listing.{field};

// Puts a byte.
fn put(text: &mut [u8], at: usize, b: u8)
    ensures { text.new ≡ set text.old at b }
{
    if at < text.len() {
        text[at] = b;
    }
}

// Puts the bytes of a word to the front.
pub fn put_word(text: &mut [u8], word: &[u8]) -> usize
    ensures { Put text.old 0 word.now text.new result }
{
    for (i, b) in word.iter().enumerate() {
        put(text, i, *b);
    }
    word.len()
}

// Puts a number in decimal.
fn put_decimal(text: &mut [u8], at: usize, n: u32) -> usize
    requires { at ≤ 4294967296 }
    ensures { Put text.old at (decimal n) text.new result }
{
    if n < 10 {
        put(text, at, (48 + n) as u8);
        return at + 1;
    }
    let next = put_decimal(text, at, n / 10);
    put(text, next, (48 + n % 10) as u8);
    next + 1
}

// Puts a number and the byte after it.
pub fn put_field(text: &mut [u8], at: usize, n: u32, after: u8) -> usize
    requires { at ≤ 4294967296 }
    ensures put { Put text.old at (field n after) text.new result }
    ensures upper_bound { result ≤ at + 11 }
{
    let next = put_decimal(text, at, n);
    put(text, next, after);
    next + 1
}

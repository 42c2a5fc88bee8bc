// A robot sought in a list, eight at a time as far as they go.
ghost use Rattle.std.specs.Prelude.{◌≡◌, ◌||◌, false, fold, ◌+◌, ◌≤◌, length, drop, position, eqb};
ghost use Rattle.spec.specs.Outcome.{index_of};

// Is r one of these? All are looked at, which is quicker than one after the other.
fn is_among(eight: &[u8], r: u8) -> bool
    ensures { result ≡ fold (λ seen x. seen || eqb r x) false eight.now }
{
    eight.iter().fold(false, |seen, x| seen | (r == *x))
}

// From where on r is to be sought in a list: it is none of those before. `chunks_exact` in place of the index is slower.
fn seek_from(list: &[u8], r: u8) -> usize
    ensures { (result ≤ length list.now) × (result + index_of r (drop result list.now) ≡ index_of r list.now) }
{
    for k in 0..list.len() / 8 {
        if is_among(&list[8 * k..8 * k + 8], r) {
            return 8 * k;
        }
    }
    list.len() / 8 * 8
}

// Where in a list is robot r, looked for one after the other?
fn first_in(list: &[u8], r: u8) -> Option<usize>
    ensures { result ≡ position (eqb r) list.now }
{
    list.iter().position(|x| r == *x)
}

// Where in a list is robot r?
pub fn index_in(list: &[u8], r: u8) -> Option<usize>
    ensures { result ≡ position (eqb r) list.now }
{
    let from = seek_from(list, r);
    let t = first_in(&list[from..], r)?;
    Some(from + t)
}

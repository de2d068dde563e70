// Orders in which a name may be held against the record's names. Each has the contract of `find` in crate expression, which has the order that the answer uses;
// the others stand here to be measured beside it and serve nothing else.
#![tactic(auto)]

ghost use Rattle.std.specs.Prelude.{◌≡◌, ◌<◌, ◌≤◌, ◌%◌, Bool, false, length, take, MatchOption};
ghost use Rattle.text.specs.Equal.{equal};
ghost use Rattle.expression.specs.Tables.{first_from};

// What is behind the blocks of N bytes of two strings of one length, or nothing where a block differs.
fn behind_blocks<'a, const N: usize>(a: &'a [u8], b: &'a [u8]) -> Option<(&'a [u8], &'a [u8])>
    requires { (0 < N) × (N ≤ 64) × (length a.now ≡ length b.now) }
    ensures { MatchOption result (false ≡ equal a.now b.now) (λ r. (equal r.0.now r.1.now ≡ equal a.now b.now) × (length r.0.now ≡ length a.now % N) × (length r.1.now ≡ length a.now % N)) }
{
    let (these, rest) = a.as_chunks::<N>();
    let (those, other) = b.as_chunks::<N>();
    for k in 0..these.len() {
        if these[k] != those[k] {
            return None;
        }
    }
    Some((rest, other))
}

// Lengths first, then bytes from the front: the first eight, in which most names differ, then all in blocks of 64, of eight and of one. Names below ten
// bytes are held byte by byte; below a smaller bound the compiler lays that loop out flat, and the search then branches on every length that it reads.
fn same_from_front(a: &[u8], b: &[u8]) -> bool
    ensures { result ≡ equal a.now b.now }
{
    if a.len() != b.len() {
        return false;
    }
    if a.len() < 10 {
        return behind_blocks::<1>(a, b).is_some();
    }
    if !a.starts_with(&b[..8]) {
        return false;
    }
    let Some((a, b)) = behind_blocks::<64>(a, b) else {
        return false;
    };
    let Some((a, b)) = behind_blocks::<8>(a, b) else {
        return false;
    };
    behind_blocks::<1>(a, b).is_some()
}

// The last byte first, then lengths, then as the answer does it.
fn same_from_last(a: &[u8], b: &[u8]) -> bool
    ensures { result ≡ equal a.now b.now }
{
    a.last() == b.last() && text::same_bytes(a, b)
}

// The order used before: lengths, then bytes from the last one on, one by one down to a block's end, then blocks of 64.
fn same_backward(a: &[u8], b: &[u8]) -> bool
    ensures { result ≡ equal a.now b.now }
{
    if a.len() != b.len() {
        return false;
    }
    let low = a.len() / 64 * 64;
    for i in (low..a.len()).rev() {
        if a[i] != b[i] {
            return false;
        }
    }
    text::same_bytes(&a[..low], &b[..low])
}

// The first of the places whose string is this one, as `same` holds the two against each other; their number where none is.
fn find_by<F: Fn(&[u8], &[u8]) -> bool>(s: &[u8], places: &[usize], name: &[u8], same: F) -> usize
    requires callable { F.IsAlwaysCallable same }
    requires decides { (x y : _) (r : Bool) → F.post same x y r → r ≡ equal x.now y.now }
    ensures { result ≡ first_from s.now name.now 0 places.now }
{
    for (i, p) in places.iter().enumerate() {
        if same(text::counted_at(s, *p), name) {
            return i;
        }
    }
    places.len()
}

// The first of the places whose string is this one, by lengths and then from the front; their number where none is.
#[unsafe(no_mangle)]
pub extern "C" fn lampsickle_find_front(s: &[u8], places: &[usize], name: &[u8]) -> usize
    ensures { result ≡ first_from s.now name.now 0 places.now }
{
    find_by(s, places, name, same_from_front)
}

// The same by the last byte first.
#[unsafe(no_mangle)]
pub extern "C" fn lampsickle_find_last(s: &[u8], places: &[usize], name: &[u8]) -> usize
    ensures { result ≡ first_from s.now name.now 0 places.now }
{
    find_by(s, places, name, same_from_last)
}

// The same by the order used before.
#[unsafe(no_mangle)]
pub extern "C" fn lampsickle_find_backward(s: &[u8], places: &[usize], name: &[u8]) -> usize
    ensures { result ≡ first_from s.now name.now 0 places.now }
{
    find_by(s, places, name, same_backward)
}

// The same by the order that the answer uses.
#[unsafe(no_mangle)]
pub extern "C" fn lampsickle_find(s: &[u8], places: &[usize], name: &[u8]) -> usize
    ensures { result ≡ first_from s.now name.now 0 places.now }
{
    expression::name::find(s, places, name)
}

// The buffer of decoded constants: it begins with the two joined texts, each behind its two-byte length.
#![tactic(auto)]

ghost use Rattle.std.specs.Prelude.{◌≡◌, map, min, eqb, length};
ghost use Rattle.text.specs.Choice.{pick};
ghost use Rattle.text.specs.Counted.{counted};
ghost use Rattle.text.specs.Join.{joined};
ghost use Rattle.constants.specs.Constants.{written, counted_into, begun_into};

// The length of the comma before string i: none before the first.
fn comma(i: usize) -> usize
    ensures { result ≡ pick (eqb i 0) 0 1 }
{
    if i == 0 {
        return 0;
    }
    1
}

// The length of the joined text, held at 65,536.
fn joined_length(s: &[u8], places: &[usize]) -> usize
    ensures { result ≡ min (length (joined (map (counted s.now) places.now))) 65536 }
{
    let mut n: usize = 0;
    for (i, p) in places.iter().enumerate() {
        let c = comma(i);
        let k = text::counted_at(s, *p).len();
        if 65535 - n < c {
            return 65536;
        }
        if 65535 - n - c < k {
            return 65536;
        }
        n = n + c + k;
    }
    n
}

// Writes the joined text behind its length, at a place; the place behind it, or 0 where it doesn't fit and nothing is written.
fn write_joined(dst: &mut [u8], at: usize, s: &[u8], places: &[usize]) -> usize
    ensures { written result dst.new ≡ counted_into dst.old at (joined (map (counted s.now) places.now)) }
{
    let n = joined_length(s, places);
    if 65535 < n {
        return 0;
    }
    if dst.len() < at {
        return 0;
    }
    if dst.len() - at < 2 {
        return 0;
    }
    if dst.len() - at - 2 < n {
        return 0;
    }
    text::put_pair(dst, at, n);
    text::join_at(dst, at + 2, s, places);
    at + 2 + n
}

// Begins a buffer of constants with the joined compliance values and the joined requesters: the place behind them, or 0.
pub fn begin(consts: &mut [u8], query: &[u8], values: &[usize], requesters: &[usize]) -> usize
    ensures { written result consts.new ≡ begun_into consts.old (joined (map (counted query.now) values.now)) (joined (map (counted query.now) requesters.now)) }
{
    let at = write_joined(consts, 0, query, values);
    if at == 0 {
        return 0;
    }
    write_joined(consts, at, query, requesters)
}

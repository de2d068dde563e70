// Literals that give their bytes as they stand, told by a test in blocks.
ghost use Rattle.std.specs.Prelude.{◌≡◌, ◌+◌, ◌-◌, ◌≤◌, length, take, drop};
ghost use Rattle.text.specs.All.{all};
ghost use Rattle.naming.specs.Working.Whole.{other, printed, clear, whole};

use lexical::kind;
use lexical::token::Token;
use limits::MOST_IDENTIFIER;

// Is none of the n bytes from i on this one? The loop has no early end, so that many bytes are compared at once.
fn is_without(s: &[u8], i: usize, n: usize, b: u8) -> bool
    requires { i + n ≤ length s.now }
    ensures { result ≡ all (other b) (take n (drop i s.now)) }
{
    let mut none = true;
    for j in 0..n {
        if s[i + j] == b {
            none = false;
        }
    }
    none
}

// Is none of them a control byte? As `is_without`.
fn is_printed(s: &[u8], i: usize, n: usize) -> bool
    requires { i + n ≤ length s.now }
    ensures { result ≡ all printed (take n (drop i s.now)) }
{
    let mut held = true;
    for j in 0..n {
        if s[i + j] < 32 {
            held = false;
        }
    }
    held
}

// Are the n bytes from i on clear: no control byte, quote or backslash?
fn is_clear(s: &[u8], i: usize, n: usize) -> bool
    requires { i + n ≤ length s.now }
    ensures { result ≡ all clear (take n (drop i s.now)) }
{
    let straight = is_without(s, i, n, b'\\');
    let unquoted = is_without(s, i, n, b'"');
    let held = is_printed(s, i, n);
    if straight {
        if unquoted {
            return held;
        }
        return false;
    }
    false
}

// The same of the bytes from i to e, 16 or more, in blocks; the last block ends where they end.
fn is_clear_long(s: &[u8], i: usize, e: usize) -> bool
    requires { (i + 16 ≤ e) × (e ≤ length s.now) }
    ensures { result ≡ all clear (take (e - i) (drop i s.now)) }
{
    let mut a = i;
    // Kept: a turn steps by 16 and the last block may begin anywhere, so there is no range to go over.
    while 16 < e - a {
        if is_clear(s, a, 16) {
            a += 16;
        } else {
            return false;
        }
    }
    is_clear(s, e - 16, 16)
}

fn is_clear_byte(b: u8) -> bool
    ensures { result ≡ clear b }
{
    if b == b'\\' {
        return false;
    }
    if b == b'"' {
        return false;
    }
    32 <= b
}

// The same of a few bytes.
fn is_clear_short(s: &[u8], i: usize, e: usize) -> bool
    requires { (i ≤ e) × (e ≤ length s.now) }
    ensures { result ≡ all clear (take (e - i) (drop i s.now)) }
{
    for a in i..e {
        if !is_clear_byte(s[a]) {
            return false;
        }
    }
    true
}

// The same of any number of them; two blocks of 8 may share some.
fn is_clear_to(s: &[u8], i: usize, e: usize) -> bool
    requires { (i ≤ e) × (e ≤ length s.now) }
    ensures { result ≡ all clear (take (e - i) (drop i s.now)) }
{
    if 16 <= e - i {
        return is_clear_long(s, i, e);
    }
    if e - i < 8 {
        return is_clear_short(s, i, e);
    }
    if is_clear(s, i, 8) {
        return is_clear(s, e - 8, 8);
    }
    false
}

// Is t a literal of 1 to 256 clear bytes? Then it gives them as they stand.
pub fn is_whole(s: &[u8], t: Token) -> bool
    ensures { result ≡ whole s.now t }
{
    if t.kind != kind::LITERAL {
        return false;
    }
    let start = t.start;
    let end = t.end;
    if s.len() < end {
        return false;
    }
    if end <= start {
        return false;
    }
    if end - start < 3 {
        return false;
    }
    if MOST_IDENTIFIER + 2 < end - start {
        return false;
    }
    if s[end - 1] != b'"' {
        return false;
    }
    is_clear_to(s, start + 1, end - 1)
}

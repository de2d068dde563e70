// Principals: the one function that compares two identifiers, and a number that tells most of them apart.
#![tactic(auto)]

ghost use Rattle.std.specs.Prelude.{◌≡◌, ◌+◌, ◌*◌, ◌/◌, ◌%◌, ◌<◌, ◌≤◌, length, take, drop};
ghost use Rattle.principal.specs.Canonical.{fold, folded, front, is_hex};
ghost use Rattle.principal.specs.Principal.{policy, same};
ghost use Rattle.text.specs.Equal.{equal};
ghost use Rattle.principal.specs.Tag.{plain, caseless, group, mixed, mixed_with, tag};

// Where the first ":" stands, or the end.
fn colon_at(id: &[u8]) -> usize
    ensures { result ≡ length (front id.now) }
{
    id.iter().position(|b| *b == b':').unwrap_or(id.len())
}

// The same bytes but for the case of letters?
fn same_folded(a: &[u8], b: &[u8]) -> bool
    ensures { result ≡ equal (folded a.now) (folded b.now) }
{
    a.eq_ignore_ascii_case(b)
}

// An algorithm whose keys are hexadecimal?
fn is_hex(a: &[u8]) -> bool
    ensures { result ≡ is_hex (folded a.now) }
{
    same_folded(a, b"rsa-hex") || same_folded(a, b"dsa-hex")
}

// Are these the same principal? Mostly their bytes are the same, or their lengths differ.
pub fn same_principal(a: &[u8], b: &[u8]) -> bool
    ensures { result ≡ same a.now b.now }
{
    if a.len() != b.len() {
        return false;
    }
    if text::same_bytes(a, b) {
        return true;
    }
    let k = colon_at(a);
    if colon_at(b) != k || a.len() <= k {
        return false;
    }
    let (front_a, rest_a) = a.split_at(k);
    let (front_b, rest_b) = b.split_at(k);
    if !same_folded(front_a, front_b) {
        return false;
    }
    if is_hex(front_a) {
        same_folded(rest_a, rest_b)
    } else {
        text::same_bytes(rest_a, rest_b)
    }
}

// Are these the bytes of POLICY?
pub fn is_policy(b: &[u8]) -> bool
    ensures { result ≡ equal b.now policy }
{
    text::same_bytes(b, b"POLICY")
}

// A byte without the bit in which a capital letter differs from its small one.
fn caseless_byte(b: u8) -> usize
    ensures value { result ≡ plain b }
    ensures upper_bound { result < 128 }
{
    usize::from(b % 32 + 32 * (b / 64 % 4))
}

// The same of the byte at i, which is there. Without a test of that it buys 8 % of equal keys of 40 bytes.
fn byte_at(id: &[u8], i: usize) -> usize
    requires { i < length id.now }
    ensures value { result ≡ caseless id.now i }
    ensures upper_bound { result < 128 }
{
    caseless_byte(id[i])
}

// The same, or 0.
#[tactic(auto, unfolding(crate::specs::Tag::caseless, crate::specs::Tag::plain))]
fn byte_or_none(id: &[u8], i: usize) -> usize
    ensures value { result ≡ caseless id.now i }
    ensures upper_bound { result < 128 }
{
    if i < id.len() { byte_at(id, i) } else { 0 }
}

// Four such as one number.
fn grouped(a: usize, b: usize, c: usize, d: usize) -> usize
    requires { (a < 128) × (b < 128) × (c < 128) × (d < 128) }
    ensures value { result ≡ a + 128 * b + 16384 * c + 2097152 * d }
    ensures upper_bound { result < 268435456 }
{
    a + 128 * b + 16384 * c + 2097152 * d
}

// The four bytes from i on, which are there.
fn group_at(id: &[u8], i: usize) -> usize
    requires { i + 4 ≤ length id.now }
    ensures value { result ≡ group id.now i }
    ensures upper_bound { result < 268435456 }
{
    grouped(
        byte_at(id, i),
        byte_at(id, i + 1),
        byte_at(id, i + 2),
        byte_at(id, i + 3),
    )
}

// A number mixed with one more.
fn mix(h: usize, v: usize) -> usize
    requires { (h < 4294967296) × (v < 268435456) }
    ensures value { result ≡ mixed h v }
    ensures upper_bound { result < 4294967296 }
{
    (h * 2654435761 + v) % 4294967296
}

// With k groups from `from` on, which are there.
fn mix_groups(id: &[u8], k: usize, from: usize, h: usize) -> usize
    requires { (from + 4 * k ≤ length id.now) × (h < 4294967296) }
    ensures value { result ≡ mixed_with id.now k from h }
    ensures upper_bound { result < 4294967296 }
{
    let mut sum = h;
    for j in 0..k {
        sum = mix(sum, group_at(id, from + 4 * j));
    }
    sum
}

// 20 bits of a mixed number.
fn middle(h: usize) -> usize
    requires { h < 4294967296 }
    ensures value { result ≡ h * 2654435761 / 16777216 % 1048576 }
    ensures upper_bound { result < 1048576 }
{
    h * 2654435761 / 16777216 % 1048576
}

// The tag of fewer than four bytes.
fn short_tag(id: &[u8]) -> usize
    requires { length id.now < 4 }
    ensures value { result ≡ tag id.now }
    ensures upper_bound { result < 1048576 }
{
    let v = grouped(
        byte_or_none(id, 0),
        byte_or_none(id, 1),
        byte_or_none(id, 2),
        byte_or_none(id, 3),
    );
    middle(mix(id.len(), v))
}

// A number that the same principal always has.
pub fn tag_of(id: &[u8]) -> usize
    ensures value { result ≡ tag id.now }
    ensures upper_bound { result < 1048576 }
{
    let n = id.len();
    if n < 4 {
        return short_tag(id);
    }
    let last = group_at(id, n - 4);
    if n <= 64 {
        let all = mix_groups(id, n / 4, 0, n);
        return middle(mix(all, last));
    }
    let front = mix_groups(id, 8, 0, n % 4294967296);
    let back = mix_groups(id, 8, n - 32, front);
    middle(mix(back, last))
}

// The nearest 32-bit float to digits / 10 ^ scale, ties to even, in 64-bit integers.
ghost use Rattle.std.specs.Prelude.{◌≡◌};
ghost use Prim.Native.Nat.{◌*◌, ◌<◌, ◌≤◌, compare};
ghost use Rattle.std.specs.Float.{binary32};
ghost use Rattle.std.specs.Float.Ieee.{round, nearest};
ghost use Rattle.float.specs.Nearest.{Nearest};
ghost use Rattle.float.specs.Decimal.{decimal};
ghost use Rattle.float.specs.Working.Converting.{Under, Over, Divided, Found};

use std::cmp::Ordering;

// A fraction below 1 and the place of its leading digit.
#[derive(Clone, Copy)]
pub struct Scaled {
    pub over: u64,
    pub under: u64,
    pub place: u64,
}

// c is doubled until it is above a.
fn under_doubled(a: u64, c: u64) -> Scaled
    requires { (a < 1000000000000000000) × (0 < c) × (c ≤ 1000000000000000000) }
    ensures { Under a c result }
{
    let mut b = c;
    let mut j: u64 = 125;
    // Kept: how often a number doubles is not known before.
    while b <= a {
        b = b * 2;
        j += 1;
    }
    Scaled {
        over: a,
        under: b,
        place: j,
    }
}

// a is doubled until it is half of b or more.
fn over_doubled(from: u64, b: u64, place: u64) -> Scaled
    requires { (0 < from) × (from < b) × (b ≤ 2000000000000000000) × (125 ≤ place) }
    ensures { Over from b place result }
{
    let mut a = from;
    let mut j = place;
    // Kept: how often a number doubles is not known before.
    while a * 2 < b {
        a = a * 2;
        j -= 1;
    }
    Scaled {
        over: a,
        under: b,
        place: j,
    }
}

// 24 digits of a / b, and what is left.
#[derive(Clone, Copy)]
pub struct Cut {
    pub digits: u64,
    pub rest: u64,
}

fn divided(a: u64, b: u64) -> Cut
    requires { (a < b) × (b ≤ 2000000000000000000) }
    ensures { Divided a b result }
{
    let mut q = 0;
    let mut r = a;
    for _ in 0..8u8 {
        let t = r * 8;
        q = q * 8 + t / b;
        r = t % b;
    }
    Cut { digits: q, rest: r }
}

// q, or one more, by how r stands to half of b.
fn rounded(q: u64, r: u64, b: u64) -> u64
    requires { (q < 16777216) × (r < b) × (b ≤ 2000000000000000000) }
    ensures { result ≡ nearest q (compare (r * 2) b) }
{
    match (r * 2).cmp(&b) {
        Ordering::Less => q,
        Ordering::Greater => q + 1,
        Ordering::Equal => q + q % 2,
    }
}

// The bit pattern of the float nearest to a / c.
fn pattern(a: u64, c: u64) -> u32
    requires { (a < 1000000000000000000) × (0 < c) × (c ≤ 1000000000000000000) }
    ensures { Found a c result }
{
    if a == 0 {
        return 0;
    }
    let s = under_doubled(a, c);
    let u = over_doubled(a, s.under, s.place);
    let d = divided(u.over, s.under);
    let m = rounded(d.digits, d.rest, s.under);
    (u.place * 8388608 + m) as u32
}

// The float.
pub(crate) fn nearest_to(negative: bool, digits: u64, scale: u64) -> f32
    requires { (digits < 1000000000000000000) × (scale ≤ 18) }
    ensures { result ≡ decimal negative digits scale }
{
    let c = 10u64.pow(scale as u32);
    let x = f32::from_bits(pattern(digits, c));
    if negative { -x } else { x }
}

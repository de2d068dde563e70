// "&": the float that a text writes, "digits as one integer over a power of ten".
ghost use Rattle.std.specs.Prelude.{◌≡◌, ◌+◌, ◌-◌, ◌^◌, ◌<◌, ◌≤◌, length};
ghost use Rattle.text.specs.Scan.{run};
ghost use Rattle.text.specs.Class.{in_class, digit};
ghost use Rattle.text.specs.Digits.{value_from};
ghost use Rattle.float.specs.Written.{amount_of, with_fraction, unsigned, float_of};
ghost use Rattle.float.specs.Working.Reading.{AllDigits, More};

use crate::decimal::nearest_to;

// The number of the digits behind v, which has `count` digits.
fn more(v: u64, count: usize, digits: &[u8]) -> u64
    requires { (v < 10 ^ count) × (count + length digits.now ≤ 18) × AllDigits digits.now }
    ensures { More v count digits.now result }
{
    let mut n = v;
    for b in digits {
        let d = u64::from(b.saturating_sub(b'0'));
        n = n * 10 + d;
    }
    n
}

// The digits before and behind the point; more than 18 are 0.
fn amount(negative: bool, whole: &[u8], fraction: &[u8]) -> f32
    requires { AllDigits whole.now × AllDigits fraction.now }
    ensures { result ≡ amount_of negative whole.now fraction.now }
{
    if 18 < whole.len().saturating_add(fraction.len()) {
        return 0.0;
    }
    let v = more(0, 0, whole);
    let w = more(v, whole.len(), fraction);
    nearest_to(negative, w, fraction.len() as u64)
}

fn with_fraction(negative: bool, whole: &[u8], digits: &[u8]) -> f32
    requires { AllDigits whole.now }
    ensures { result ≡ with_fraction negative whole.now digits.now }
{
    let j = text::front(digits, text::Class::Digit);
    if j == 0 || j < digits.len() {
        return 0.0;
    }
    amount(negative, whole, digits)
}

fn without_sign(negative: bool, s: &[u8]) -> f32
    ensures { result ≡ unsigned negative s.now }
{
    let k = text::front(s, text::Class::Digit);
    if k == 0 {
        return 0.0;
    }
    if s.len() <= k {
        return amount(negative, s, &[]);
    }
    if s[k] != b'.' {
        return 0.0;
    }
    with_fraction(negative, &s[..k], &s[k + 1..])
}

// The float nearest to what a text writes; 0.0 where it writes none, or one of more than 18 digits.
pub fn to_float(s: &[u8]) -> f32
    ensures { result ≡ float_of s.now }
{
    if 0 < s.len() && s[0] == b'-' {
        return without_sign(true, &s[1..]);
    }
    without_sign(false, s)
}

// The operations on floats: each rounds once, and gives a finite float or an error.
ghost use Rattle.std.specs.Prelude.{◌≡◌};
ghost use Rattle.float.specs.Operations.{is_finite, checked, plus, minus, times, over, negated, raised, power};

// Neither an infinity nor a NaN.
pub fn is_finite(x: f32) -> bool
    ensures { result ≡ is_finite x }
{
    x.is_finite()
}

// "An infinite or not-a-number result is an error": None.
pub fn check(x: f32) -> Option<f32>
    ensures { result ≡ checked x }
{
    if is_finite(x) { Some(x) } else { None }
}

pub fn add(a: f32, b: f32) -> Option<f32>
    ensures { result ≡ plus a b }
{
    check(a + b)
}

pub fn subtract(a: f32, b: f32) -> Option<f32>
    ensures { result ≡ minus a b }
{
    check(a - b)
}

pub fn multiply(a: f32, b: f32) -> Option<f32>
    ensures { result ≡ times a b }
{
    check(a * b)
}

pub fn divide(a: f32, b: f32) -> Option<f32>
    ensures { result ≡ over a b }
{
    check(a / b)
}

pub fn negate(a: f32) -> Option<f32>
    ensures { result ≡ negated a }
{
    check(-a)
}

// 1.0 times x, n times, each product checked.
pub fn raise(x: f32, n: u16) -> Option<f32>
    ensures { result ≡ raised n x }
{
    let mut v = 1.0;
    for _ in 0..n {
        v = check(v * x)?;
    }
    Some(v)
}

// x to the y, for a y whose value is a whole number 0 to 64.
pub fn raise_to(x: f32, y: f32) -> Option<f32>
    ensures { result ≡ power x y }
{
    for n in 0..65u16 {
        if n as f32 == y {
            return raise(x, n);
        }
    }
    None
}

// A float and its bits.
ghost use Rattle.std.specs.Prelude.{◌≡◌};
ghost use Rattle.std.specs.Float.{binary32};
ghost use Rattle.std.specs.Float.Ieee.{to_bits};
ghost use Rattle.float.specs.Bits.{float_at};

// The bits of a float; of a NaN the pattern that the logic writes.
pub fn bits_of(x: f32) -> u64
    ensures { result ≡ to_bits binary32 x }
{
    if x.is_nan() {
        return 0x7fc0_0000;
    }
    u64::from(x.to_bits())
}

// The float of a number: a NaN where it is no float's pattern.
pub fn float_of(n: u64) -> f32
    ensures { result ≡ float_at n }
{
    if n <= 0x7f80_0000 {
        return f32::from_bits(n as u32);
    }
    if 0x8000_0000 <= n && n <= 0xff80_0000 {
        return f32::from_bits(n as u32);
    }
    0.0 / 0.0
}

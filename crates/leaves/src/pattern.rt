// The bits of an f32, and the f32 of any bits. In Rattle all NaNs are one value, and `f32::to_bits` and `f32::from_bits` require that there is none, so these two are
// leaves of their own, and definitions name them.
ghost use Rattle.std.specs.Prelude.{◌≡◌};
ghost use Rattle.leaves.specs.Bits.{bits_of, float_of};

// The NaN's bits are 0x7fc0_0000.
pub fn bits(x: f32) -> u32
    ensures { result ≡ bits_of x }
{
    if x.is_nan() {
        return 0x7fc0_0000;
    }
    f32::to_bits(x)
}

// Every NaN's pattern gives the one NaN.
pub fn from_bits(b: u32) -> f32
    ensures { result ≡ float_of b }
{
    if b % 0x8000_0000 > 0x7f80_0000 {
        return f32::NAN;
    }
    f32::from_bits(b)
}

// The float leaves, for tests and measuring.

ghost use Rattle.std.specs.Prelude.{◌≡◌};
ghost use Rattle.leaves.specs.Fma.{fma32};
ghost use Rattle.leaves.specs.Sqrt.{sqrt32};
ghost use Rattle.leaves.specs.Sixth.{sixth_root_of};
ghost use Rattle.leaves.specs.Pieces.{pieces_of};
ghost use Rattle.leaves.specs.Small.{min_of, max_of, clamp_of, ceil_of};

pub fn kermezhul_fma(a: f32, b: f32, c: f32) -> f32
    ensures { result ≡ fma32 a b c }
{
    leaves::fma(a, b, c)
}

pub fn kermezhul_sqrt(a: f32) -> f32
    ensures { result ≡ sqrt32 a }
{
    leaves::sqrt(a)
}

pub fn kermezhul_sixth_root(q: f32) -> f32
    ensures { result ≡ sixth_root_of q }
{
    leaves::sixth_root(q)
}

pub fn kermezhul_pieces(q: f32, w1: f32, w2: f32) -> u32
    ensures { result ≡ pieces_of q w1 w2 }
{
    leaves::pieces(q, w1, w2)
}

pub fn kermezhul_min(a: f32, b: f32) -> f32
    ensures { result ≡ min_of a b }
{
    leaves::min(a, b)
}

pub fn kermezhul_max(a: f32, b: f32) -> f32
    ensures { result ≡ max_of a b }
{
    leaves::max(a, b)
}

pub fn kermezhul_clamp(a: f32, low: f32, high: f32) -> f32
    ensures { result ≡ clamp_of a low high }
{
    leaves::clamp(a, low, high)
}

pub fn kermezhul_ceil(a: f32) -> f32
    ensures { result ≡ ceil_of a }
{
    leaves::ceil(a)
}

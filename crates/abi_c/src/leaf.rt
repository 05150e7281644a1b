// The float leaves, for tests and measuring.

ghost use Rattle.std.specs.Prelude.{◌≡◌};
ghost use Rattle.leaves.specs.Fma.{fma32};
ghost use Rattle.leaves.specs.Sqrt.{sqrt32};
ghost use Rattle.leaves.specs.Sixth.{sixth_root_of};
ghost use Rattle.leaves.specs.Pieces.{pieces_of};
ghost use Rattle.leaves.specs.Small.{min_of, max_of, clamp_of, ceil_of};

#[unsafe(no_mangle)]
pub extern "C" fn kermezhul_fma(a: f32, b: f32, c: f32) -> f32
    ensures { result ≡ fma32 a b c }
{
    abi::kermezhul_fma(a, b, c)
}

#[unsafe(no_mangle)]
pub extern "C" fn kermezhul_sqrt(a: f32) -> f32
    ensures { result ≡ sqrt32 a }
{
    abi::kermezhul_sqrt(a)
}

#[unsafe(no_mangle)]
pub extern "C" fn kermezhul_sixth_root(q: f32) -> f32
    ensures { result ≡ sixth_root_of q }
{
    abi::kermezhul_sixth_root(q)
}

#[unsafe(no_mangle)]
pub extern "C" fn kermezhul_pieces(q: f32, w1: f32, w2: f32) -> u32
    ensures { result ≡ pieces_of q w1 w2 }
{
    abi::kermezhul_pieces(q, w1, w2)
}

#[unsafe(no_mangle)]
pub extern "C" fn kermezhul_min(a: f32, b: f32) -> f32
    ensures { result ≡ min_of a b }
{
    abi::kermezhul_min(a, b)
}

#[unsafe(no_mangle)]
pub extern "C" fn kermezhul_max(a: f32, b: f32) -> f32
    ensures { result ≡ max_of a b }
{
    abi::kermezhul_max(a, b)
}

#[unsafe(no_mangle)]
pub extern "C" fn kermezhul_clamp(a: f32, low: f32, high: f32) -> f32
    ensures { result ≡ clamp_of a low high }
{
    abi::kermezhul_clamp(a, low, high)
}

#[unsafe(no_mangle)]
pub extern "C" fn kermezhul_ceil(a: f32) -> f32
    ensures { result ≡ ceil_of a }
{
    abi::kermezhul_ceil(a)
}

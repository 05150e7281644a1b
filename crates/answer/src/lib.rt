// The numbered answers.
#![tactic(auto)]

ghost use Rattle.std.specs.Prelude.{◌≡◌};
ghost use Rattle.answer.specs.Number.{number_of, refusal_number_of};

// Each refusal, with its number.
#[derive(Clone, Copy, PartialEq, Eq)]
pub enum Refusal {
    // 1: a coordinate is NaN or beyond ±65,536
    BadCoordinate,
    // 2: a weight is NaN or outside 1/64..64
    BadWeight,
    // 3: the store is unusable
    Unusable,
    // 4: the store can't take all points and commands of the call
    StoreFull,
    // 5: a cubic needs over 1,024 pieces
    TooManyPieces,
    // 6
    QuadsFull,
    // 7: the spline table is full, or holds 4,194,304
    SplinesFull,
    // 8: a spline's running sum would pass 65,536
    SumTooLarge,
    // 9: words or outputs are shorter than the walk
    OutputShort,
    // 10: bad text
    BadText,
    // 11: input over 16,384 bytes
    InputTooLong,
    // 12: a coordinate is NaN or rounds outside -32,768..32,767
    NotPrintable,
    // 13: the buffer for a text or for whole numbers is too short
    BufferShort,
}

// Done, or why not.
pub type Answer = Result<(), Refusal>;

impl From<Refusal> for u32 {
    ghost from_gives = { λ refusal number. number ≡ refusal_number_of refusal };

    // The numbers stand here alone.
    fn from(refusal: Refusal) -> Self {
        match refusal {
            Refusal::BadCoordinate => 1,
            Refusal::BadWeight => 2,
            Refusal::Unusable => 3,
            Refusal::StoreFull => 4,
            Refusal::TooManyPieces => 5,
            Refusal::QuadsFull => 6,
            Refusal::SplinesFull => 7,
            Refusal::SumTooLarge => 8,
            Refusal::OutputShort => 9,
            Refusal::BadText => 10,
            Refusal::InputTooLong => 11,
            Refusal::NotPrintable => 12,
            Refusal::BufferShort => 13,
        }
    }
}

// 0, or the refusal's number. No From, since Answer is the library's Result and u32 the language's own: no crate may write that impl.
pub fn number(a: Answer) -> u32
    ensures { result ≡ number_of a }
{
    match a {
        Ok(()) => 0,
        Err(refusal) => u32::from(refusal),
    }
}

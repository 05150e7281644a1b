// The program's listing: key=value lines in, points out, on slices.
#![tactic(auto)]

ghost use Rattle.std.specs.Prelude.{◌≡◌};
ghost use Rattle.listing.specs.Reading.{bad_text, on_no_line};

use answer::Refusal;

mod commands;
mod fields;
mod grammar;
mod program;
mod reading;
mod writing;

pub use fields::field_at;
pub use program::{LONGEST, listing, told};
pub use writing::refusal;

#[derive(Clone, Copy)]
pub enum Op {
    Move,
    Line,
    Quad,
    RatQuad,
    Cubic,
    RatCubic,
}

// A place in the text, and the number of its line.
#[derive(Clone, Copy)]
pub struct Place {
    pub at: usize,
    pub line: usize,
}

// Why a listing is refused, and on which line.
#[derive(Clone, Copy)]
pub struct Refused {
    pub refusal: Refusal,
    pub line: usize,
}

// Bad text: the line where the wrong or missing byte is due.
#[derive(Clone, Copy)]
pub struct BadLine(pub usize);

impl From<BadLine> for Refused {
    ghost from_gives = { λ bad r. r ≡ bad_text bad };

    fn from(bad: BadLine) -> Refused {
        Refused {
            refusal: Refusal::BadText,
            line: bad.0,
        }
    }
}

// A refusal that is on no line has 0.
impl From<Refusal> for Refused {
    ghost from_gives = { λ refusal r. r ≡ on_no_line refusal };

    fn from(refusal: Refusal) -> Refused {
        Refused { refusal, line: 0 }
    }
}

impl From<flatten::Refused> for Refused {
    ghost from_gives = { λ refused r. r ≡ on_no_line refused.refusal };

    fn from(refused: flatten::Refused) -> Refused {
        Refused::from(refused.refusal)
    }
}

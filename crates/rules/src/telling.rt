// Answers told in document 01's numbers: a refusal by its number and place, and the value answered beside it.
ghost use Rattle.std.specs.Prelude.{◌≡◌};
ghost use Rattle.rules.specs.Told.{told_refusal, told_verdict, told_pair, told_number};

use crate::{NumberTold, PairTold, Refusal, Told};

impl From<Refusal> for Told {
    ghost from_gives = { λ refusal told. told ≡ told_refusal refusal };

    fn from(refusal: Refusal) -> Told {
        Told {
            number: u32::from(refusal.number()),
            place: refusal.place(),
        }
    }
}

impl From<Result<(), Refusal>> for Told {
    ghost from_gives = { λ verdict told. told ≡ told_verdict verdict };

    fn from(verdict: Result<(), Refusal>) -> Told {
        match verdict {
            Ok(()) => Told::default(),
            Err(refusal) => Told::from(refusal),
        }
    }
}

impl From<Result<bool, Refusal>> for PairTold {
    ghost from_gives = { λ answer told. told ≡ told_pair answer };

    fn from(answer: Result<bool, Refusal>) -> PairTold {
        match answer {
            Ok(yes) => PairTold {
                refusal: Told::default(),
                yes,
            },
            Err(refusal) => PairTold {
                refusal: Told::from(refusal),
                yes: false,
            },
        }
    }
}

impl From<Result<u16, Refusal>> for NumberTold {
    ghost from_gives = { λ answer told. told ≡ told_number answer };

    fn from(answer: Result<u16, Refusal>) -> NumberTold {
        match answer {
            Ok(number) => NumberTold {
                refusal: Told::default(),
                number: u32::from(number),
            },
            Err(refusal) => NumberTold {
                refusal: Told::from(refusal),
                number: 0,
            },
        }
    }
}

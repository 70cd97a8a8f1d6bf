// A sum with its answer laid out field by field, for a call that hands it back through memory.
//
// As a `Result` it is copied with the bytes that lie between its fields, seven beside the ternary value: these are read again before the
// stores that left them are done, and a sum of one or two limbs misses its bar.
//
ghost use Rattle.std.specs.Prelude.{◌≡◌};
ghost use Rattle.reports.specs.LaidOut.{sum_in};

use crate::report::{Rounded, Sum, refused};
use checks::{Kind, Number, Place, Refusal, Rule};

// Where it is refused, the number's fields and the ternary value mean nothing; where it is not, the refusal means nothing.
#[derive(Clone, Copy, Debug, PartialEq, Eq)]
pub struct LaidOut {
    pub depth: u64,
    pub first: u64,
    pub second: u64,
    pub precision: u64,
    pub exponent: i32,
    pub negative: bool,
    pub kind: Kind,
    pub ternary: i8,
    pub refusal: Refusal,
    pub is_refused: bool,
}

impl LaidOut {
    // Of a sum.
    #[tactic(auto, unfolding(crate::specs::LaidOut::sum_in))]
    pub fn of(s: Sum) -> LaidOut
        ensures { sum_in result ≡ s }
    {
        match s.answer {
            Ok(rounded) => LaidOut {
                depth: s.depth,
                first: s.first,
                second: s.second,
                precision: rounded.number.precision,
                exponent: rounded.number.exponent,
                negative: rounded.number.negative,
                kind: rounded.number.kind,
                ternary: rounded.ternary,
                refusal: Refusal {
                    rule: Rule::Mode,
                    place: Place::Call,
                },
                is_refused: false,
            },
            Err(refusal) => LaidOut {
                depth: s.depth,
                first: s.first,
                second: s.second,
                precision: 2,
                exponent: 0,
                negative: false,
                kind: Kind::Zero,
                ternary: 0,
                refusal,
                is_refused: true,
            },
        }
    }

    // The sum again.
    #[tactic(auto, unfolding(crate::specs::LaidOut::sum_in, crate::specs::Summed::refused_sum))]
    pub fn sum(self) -> Sum
        ensures { result ≡ sum_in self }
    {
        if self.is_refused {
            return refused(self.refusal, self.depth, self.first, self.second);
        }
        let number = Number {
            negative: self.negative,
            kind: self.kind,
            precision: self.precision,
            exponent: self.exponent,
        };
        Sum {
            depth: self.depth,
            first: self.first,
            answer: Ok(Rounded {
                number,
                ternary: self.ternary,
            }),
            second: self.second,
        }
    }
}

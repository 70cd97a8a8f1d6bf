// The four modes. What a mode selects: definitions in specs/, that they are the paper's in proofs/.
#![tactic(auto)]

ghost use Rattle.std.specs.Prelude.{◌≡◌, ◌≤◌, ◌<◌, MatchResult};
ghost use Rattle.rounding.specs.Mode.{mode_of};
ghost use Rattle.rounding.specs.declared.Mode.{Mode};

// To nearest with ties to the even last digit, toward zero, toward plus and toward minus infinity: numbers 0 to 3.
#[derive(Clone, Copy, Debug, PartialEq, Eq)]
pub enum Mode {
    Nearest,
    Zeroward,
    Upward,
    Downward,
}

impl Mode {
    // The mode of a number. Above 3 it is Downward, for a caller that has no refusal for such a number.
    #[tactic(auto, unfolding(crate::specs::Mode::mode_of))]
    pub fn numbered(number: u8) -> Mode
        ensures { result ≡ mode_of number }
    {
        match number {
            0 => Mode::Nearest,
            1 => Mode::Zeroward,
            2 => Mode::Upward,
            _ => Mode::Downward,
        }
    }
}

// A number above 3, which is no mode.
#[derive(Clone, Copy, Debug, PartialEq, Eq)]
pub struct UnknownMode(pub u8);

impl TryFrom<u8> for Mode {
    type Error = UnknownMode;

    ghost try_from_gives = { λ number result. MatchResult result (λ mode. (number ≤ 3) × (mode ≡ mode_of number)) (λ _. 3 < number) };

    #[tactic(auto, unfolding(crate::specs::Mode::mode_of))]
    fn try_from(number: u8) -> Result<Mode, UnknownMode> {
        match number {
            0 => Ok(Mode::Nearest),
            1 => Ok(Mode::Zeroward),
            2 => Ok(Mode::Upward),
            3 => Ok(Mode::Downward),
            _ => Err(UnknownMode(number)),
        }
    }
}

// What a caller may hand over for a mode: the mode, or its number, where one above 3 counts as 3.
pub trait AsMode {
    ghost mode_in: { Self → Mode };

    fn as_mode(self) -> Mode
        ensures { result ≡ mode_in self };
}

impl AsMode for Mode {
    ghost mode_in = { λ mode. mode };

    fn as_mode(self) -> Mode {
        self
    }
}

impl AsMode for u8 {
    ghost mode_in = { mode_of };

    fn as_mode(self) -> Mode {
        Mode::numbered(self)
    }
}

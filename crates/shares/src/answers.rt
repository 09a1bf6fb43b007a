// What the call answers: the length of a list, or why there is none.
ghost use Rattle.std.specs.Prelude.{◌≡◌, Err};
ghost use Rattle.shares.specs.Numbers.{plan_number};

/// Why there is no list: the first of these that fits.
#[derive(Clone, Copy, PartialEq, Eq, Debug)]
pub enum PlanError {
    NoRoom,
    OutsideAddress,
    NamedTwice,
    WrongTotal,
    NoSuchList,
}

impl From<PlanError> for u32 {
    ghost from_gives = { λ error number. number ≡ plan_number (Err error) };

    /// The number by which C knows the refusal.
    fn from(error: PlanError) -> u32 {
        match error {
            PlanError::NoRoom => 9,
            PlanError::OutsideAddress => 1,
            PlanError::NamedTwice => 2,
            PlanError::WrongTotal => 3,
            PlanError::NoSuchList => 4,
        }
    }
}

// Why a call is refused: one reason for each row of the table of refusals.
ghost use Rattle.std.specs.Prelude.{◌≡◌};
ghost use Rattle.sizes.specs.Refusals.{refusal_number};

// Each with its number in the table.
#[derive(Clone, Copy, Debug, PartialEq, Eq)]
pub enum Refusal {
    SetUp = 1,
    NoPriority = 2,
    Complete = 3,
    Sizes = 4,
    Part = 5,
    NotLoose = 6,
    Full = 7,
    NoSession = 8,
    Record = 9,
}

impl From<Refusal> for u32 {
    ghost from_gives = { λ why n. n ≡ refusal_number why };

    fn from(why: Refusal) -> u32 {
        why as u32
    }
}

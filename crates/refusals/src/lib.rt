// Why a call is refused: document 01's numbers 1 to 5, each by its name. specs/Numbers.antt has the table.
// What may be refused answers a Result; its number is 0 where nothing is refused.
#![tactic(auto)]

ghost use Rattle.std.specs.Prelude.{◌≡◌};
ghost use Rattle.refusals.specs.Numbers.{number_of};

#[derive(Clone, Copy, Debug, PartialEq, Eq)]
pub enum Refusal {
    // A length above 32.
    TooLong,
    // Nothing covers, or not stored.
    Missing,
    // A lent slice of another length, or a pool size outside its range.
    WrongSlice,
    // No room.
    NoRoom,
    // Broken memory.
    Broken,
}

impl Refusal {
    // Its number.
    pub fn number(self) -> u32
        ensures { result ≡ number_of self }
    {
        match self {
            Refusal::TooLong => 1,
            Refusal::Missing => 2,
            Refusal::WrongSlice => 3,
            Refusal::NoRoom => 4,
            Refusal::Broken => 5,
        }
    }
}

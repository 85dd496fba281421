// The verbs and their numbers.
ghost use Rattle.std.specs.Prelude.{◌≡◌};
ghost use Rattle.request.specs.Verbs.{verb_of};

use crate::broken::Broken;

#[derive(Clone, Copy, Debug, PartialEq, Eq)]
pub enum Verb {
    Resolve = 1,
    // An entry into the program's session.
    Enter = 2,
    // The same without entering it.
    Preview = 3,
    // The latest accepted entry of that session taken back.
    Withdraw = 4,
    // The text of a name, by its number.
    NameText = 5,
    // Bytes looked for in a list of names.
    FindName = 6,
    // The order of a sheet's units.
    OrderUnits = 7,
    // A sheet stored by column, and taken back.
    ToColumns = 9,
    FromColumns = 10,
}

impl TryFrom<u32> for Verb {
    type Error = Broken;

    ghost try_from_gives = { λ n r. r ≡ verb_of n };

    fn try_from(number: u32) -> Result<Verb, Broken> {
        Ok(match number {
            1 => Verb::Resolve,
            2 => Verb::Enter,
            3 => Verb::Preview,
            4 => Verb::Withdraw,
            5 => Verb::NameText,
            6 => Verb::FindName,
            7 => Verb::OrderUnits,
            9 => Verb::ToColumns,
            10 => Verb::FromColumns,
            _ => return Err(Broken::Verb),
        })
    }
}

ghost use Rattle.std.specs.Prelude.{◌≡◌};
ghost use Rattle.commands.specs.Commands.{command, by_letter};

use crate::fields::Fields;
use crate::refusal::Refusal;

// What a line of a chart file asks for.
#[derive(Clone, Copy, Debug, PartialEq, Eq)]
pub enum Command {
    AddNode(u16),
    RemoveNode(u8),
    Clear,
}

impl TryFrom<&[u8]> for Command {
    type Error = Refusal;

    ghost try_from_gives = { λ line r. r ≡ command line.now };

    fn try_from(line: &[u8]) -> Result<Command, Refusal> {
        match line {
            [letter, b',', rest @ ..] => by_letter(*letter, Fields::new(rest)),
            [letter] => by_letter(*letter, Fields::none()),
            _ => Err(Refusal::BadLetter),
        }
    }
}

// The letter comes first, then the count of fields, then their numbers.
fn by_letter(letter: u8, mut fields: Fields) -> Result<Command, Refusal>
    ensures { result ≡ by_letter letter fields.entry }
{
    match letter {
        b'N' => {
            fields.expect(1)?;
            Ok(Command::AddNode(fields.number(2)?))
        }
        b'R' => {
            fields.expect(1)?;
            Ok(Command::RemoveNode(fields.number(2)?))
        }
        b'C' => {
            fields.expect(0)?;
            Ok(Command::Clear)
        }
        _ => Err(Refusal::BadLetter),
    }
}

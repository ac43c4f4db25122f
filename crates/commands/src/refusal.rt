ghost use Rattle.std.specs.Prelude.{◌≡◌};
ghost use Rattle.commands.specs.Refusals.{field, number};
ghost use Rattle.commands.specs.declared.refusal.Refusal.TheVariants.{Graph, LineLong};

use errors::MatrixError;
use lines::TooLong;

// Why a line of a chart file is refused.
#[derive(Clone, Copy, Debug, PartialEq, Eq)]
pub enum Refusal {
    // The line has more than 40 bytes.
    LineLong,
    // The first field is no letter of this chart.
    BadLetter,
    // This field is missing, or is one too many.
    FieldCount(u8),
    // This field is no number within its limits.
    BadNumber(u8),
    // The first line names no kind of chart.
    BadKind,
    // The graph refused the call.
    Graph(MatrixError),
}

impl Refusal {
    // The field at which the line is refused, from 1; 0 where the graph refused. The format prints it.
    pub fn field(&self) -> u8
        ensures { result ≡ field self.now }
    {
        match self {
            Refusal::LineLong | Refusal::BadLetter | Refusal::BadKind => 1,
            Refusal::FieldCount(at) | Refusal::BadNumber(at) => *at,
            Refusal::Graph(_) => 0,
        }
    }

    // The format prints it.
    pub fn number(&self) -> u8
        ensures { result ≡ number self.now }
    {
        match self {
            Refusal::LineLong => 21,
            Refusal::BadLetter => 22,
            Refusal::FieldCount(_) => 23,
            Refusal::BadNumber(_) => 24,
            Refusal::BadKind => 25,
            Refusal::Graph(error) => error.number(),
        }
    }
}

impl From<MatrixError> for Refusal {
    ghost from_gives = { λ e r. r ≡ Graph e };

    fn from(refused: MatrixError) -> Refusal {
        Self::Graph(refused)
    }
}

impl From<TooLong> for Refusal {
    ghost from_gives = { λ e r. r ≡ LineLong };

    fn from(_: TooLong) -> Refusal {
        Self::LineLong
    }
}

ghost use Rattle.std.specs.Prelude.{◌≡◌, ok_or};
ghost use Rattle.commands.specs.Commands.{kind};
ghost use Rattle.commands.specs.declared.refusal.Refusal.TheVariants.{BadKind};

use crate::refusal::Refusal;

// What a chart keeps: staggers in a square, or ties in a triangle.
#[derive(Clone, Copy, Debug, PartialEq, Eq)]
pub enum Kind {
    Square,
    Triangle,
}

// The kind that the first line of a chart file names.
impl TryFrom<&[u8]> for Kind {
    type Error = Refusal;

    ghost try_from_gives = { λ line r. r ≡ ok_or (kind line.now) BadKind };

    fn try_from(line: &[u8]) -> Result<Kind, Refusal> {
        // By `==`: a `match` on byte strings was tried, and three goals stayed open, which know of lengths alone.
        if line == b"chart,square".as_slice() {
            Ok(Kind::Square)
        } else if line == b"chart,triangle".as_slice() {
            Ok(Kind::Triangle)
        } else {
            Err(Refusal::BadKind)
        }
    }
}

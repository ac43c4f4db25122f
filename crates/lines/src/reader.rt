// The machine that finds lines, from byte to byte.
ghost use Rattle.std.specs.Prelude.{◌≡◌, []};
ghost use Rattle.lines.specs.Lines.{GivesLines, Room, Short, completed, filling, finished, stepped};
ghost use Rattle.lines.specs.Readers.{lent};
ghost use Rattle.lines.specs.States.{meant};

use arrayvec::ArrayVec;
use std::error::Error;
use std::fmt;
use std::marker::Model;

// The most bytes that a line may have, without the newline that ends it.
pub const LINE_MAX: usize = 40;

// The line has more than `LINE_MAX` bytes.
#[derive(Clone, Copy, Debug, PartialEq, Eq)]
pub struct TooLong;

impl fmt::Display for TooLong {
    ghost use Rattle.std.specs.Prelude.{◌++◌, Some, codes};
    ghost use Rattle.std.specs.Fmt.{decimal};

    ghost output = { λ _. Some (codes "the line has more than " ++ decimal 40 ++ codes " bytes") };

    fn fmt<W: fmt::Write>(&self, f: &mut fmt::Formatter<W>) -> fmt::Result {
        write!(f, "the line has more than {LINE_MAX} bytes")
    }
}

impl Error for TooLong {}

type Line = ArrayVec<u8, LINE_MAX>;

#[derive(Debug, Drop)]
enum State {
    Filling(Line),
    // the line is too long, and the rest of it is left out
    Skipping,
    // none for a line that was too long: with a `Result<Line, TooLong>` here, a step took up to twice as long
    Ended(Option<Line>),
}

#[derive(Debug, Drop)]
pub struct LineReader {
    state: State,
    ghost room: { Room (meant state) },
}

// That its line has room goes with the value, so that it is known of every reader, also of one behind a reference.
impl Model for LineReader {
    ghost use Rattle.lines.specs.Lines.{Held};
    ghost use Rattle.lines.specs.States.{meant};

    ghost Value = { Held };

    ghost view = { λ r. record { reading = meant r.state; room = r.room } };
}

impl LineReader {
    #[tactic(auto, using(crate::proofs::Giving::gives_lines))]
    pub fn new() -> LineReader
        ensures empty { result.reading ≡ filling [] }
        ensures gives { GivesLines result.reading }
    {
        LineReader {
            state: State::Filling(Line::new()),
        }
    }

    // Takes the next byte of the input.
    pub fn step(&mut self, b: u8)
        ensures after { self.new.reading ≡ stepped self.old.reading b }
        ensures room { Room self.new.reading }
    {
        match (&mut self.state, b) {
            (State::Filling(line), b'\n') => self.state = State::Ended(Some(line.take())),
            (State::Skipping, b'\n') => self.state = State::Ended(None),
            (State::Ended(_), b'\n') => self.state = State::Ended(Some(Line::new())),
            (State::Filling(line), _) => {
                if line.try_push(b).is_err() {
                    self.state = State::Skipping;
                }
            }
            (State::Skipping, _) => {}
            (State::Ended(_), _) => {
                let mut line = Line::new();
                line.push(b);
                self.state = State::Filling(line);
            }
        }
    }

    // The line that the last byte ended, if it did.
    pub fn completed(&self) -> Option<Result<&[u8], TooLong>>
        ensures line { lent result ≡ completed self.now.reading }
        ensures short { Short (lent result) }
    {
        match &self.state {
            State::Ended(Some(line)) => Some(Ok(line.as_slice())),
            State::Ended(None) => Some(Err(TooLong)),
            State::Filling(_) | State::Skipping => None,
        }
    }

    // The line that the input's end would end, if any.
    pub fn finished(&self) -> Option<Result<&[u8], TooLong>>
        ensures line { lent result ≡ finished self.now.reading }
        ensures short { Short (lent result) }
    {
        match &self.state {
            State::Filling(line) if !line.is_empty() => Some(Ok(line.as_slice())),
            State::Skipping => Some(Err(TooLong)),
            State::Filling(_) | State::Ended(_) => None,
        }
    }
}

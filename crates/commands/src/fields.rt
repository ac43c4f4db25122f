ghost use Rattle.std.specs.Prelude.{◌≡◌, ◌<◌, ◌==◌, [], length, position};
ghost use Rattle.std.specs.Iterator.{YieldsFirstBy, item_count};
ghost use Rattle.commands.specs.Commands.{expected, NumberBy};
ghost use Rattle.commands.specs.Fields.{fields, first, others};

use crate::refusal::Refusal;
use numbers::read_number;
use std::marker::Model;

// The fields of a line that are yet to be read. Not the library's `split`: the type of its closure would stand in
// every signature, and `expect` counts the fields before they are read.
#[derive(Debug, Drop)]
pub(crate) struct Fields<'a> {
    rest: Option<&'a [u8]>,
}

impl<'a> Model for Fields<'a> {
    ghost use Rattle.std.specs.Prelude.{ℕ, List};

    ghost Value = { List (List ℕ) };

    ghost use Rattle.commands.specs.Fields.{fields_of};

    ghost view = { λ f. fields_of f.rest };
}

impl<'a> Fields<'a> {
    pub(crate) fn new(rest: &'a [u8]) -> Fields<'a>
        ensures { result ≡ fields rest.now }
    {
        Fields { rest: Some(rest) }
    }

    pub(crate) fn none() -> Fields<'a>
        ensures { result ≡ [] }
    {
        Fields { rest: None }
    }

    // How many fields are left.
    pub(crate) fn len(&self) -> usize
        ensures { result ≡ length self.now }
    {
        self.rest.map_or(0, count)
    }

    // That just so many fields are left; else the first missing or surplus field, where these begin at field 2.
    pub(crate) fn expect(&self, wanted: usize) -> Result<(), Refusal>
        requires { wanted < 100 }
        ensures { result ≡ expected wanted self.now }
    {
        let found = self.len();
        if found != wanted {
            // Exact, by the bound on `wanted`; `try_from` is no plainer: it adds an error that can't occur.
            return Err(Refusal::FieldCount((found.min(wanted) + 2) as u8));
        }
        Ok(())
    }

    // The number in the next field, as a `T`; `at` is the field's own number.
    pub(crate) fn number<T: TryFrom<i32, Error: Drop>>(&mut self, at: u8) -> Result<T, Refusal>
        ensures value { NumberBy T.try_from_gives at (first self.old) result }
        ensures after { self.new ≡ others self.old }
    {
        let refusal = Refusal::BadNumber(at);
        let field = self.next().ok_or(refusal)?;
        let number = read_number(field, i32::MIN, i32::MAX).ok_or(refusal)?;
        T::try_from(number).map_err(|_| refusal)
    }
}

impl<'a> Iterator for Fields<'a> {
    type Item = &'a [u8];

    ghost next_gives = { YieldsFirstBy (λ f. f.now) (λ s. s) };

    ghost remaining = { item_count (λ s. s) };

    #[tactic(auto, using(crate::proofs::Parting::cuts))]
    fn next(&mut self) -> Option<&'a [u8]> {
        let bytes = self.rest?;
        match comma(bytes) {
            Some(at) => {
                self.rest = Some(&bytes[at + 1..]);
                Some(&bytes[..at])
            }
            None => self.rest.take(),
        }
    }
}

// How many fields some bytes hold.
fn count(bytes: &[u8]) -> usize
    ensures { result ≡ length (fields bytes.now) }
{
    // Not by `filter` and `count`, which go byte by byte: reading a line of 39 commas took 455 instructions in place of 62.
    let mut commas = 0;
    for b in bytes {
        if *b == b',' {
            commas += 1;
        }
    }
    commas + 1
}

// Where the first comma stands.
fn comma(bytes: &[u8]) -> Option<usize>
    ensures { result ≡ position (λ b. b == 44) bytes.now }
{
    bytes.iter().position(|b| *b == b',')
}

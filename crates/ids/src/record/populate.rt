// Adding nodes until two ids are live.
ghost use Rattle.std.specs.Prelude.{◌≡◌};
ghost use Rattle.ids.specs.Populating.{both_live, populated, vacancies};
ghost use Rattle.ids.specs.Record.{ids};

use super::IdStorage;
use errors::MatrixError;

impl IdStorage {
    // Nodes of this weight, until both ids are live or one more node is refused.
    #[tactic(auto, using(crate::proofs::Populating::populates))]
    pub fn populate<N: Copy>(
        &mut self,
        places: &mut [N],
        a: u8,
        b: u8,
        weight: N,
    ) -> Result<(), MatrixError>
        ensures { record { answer = result; ids = ids self.new; places = places.new } ≡ populated (vacancies (ids self.old)) a b weight (ids self.old) places.old }
    {
        while !self.are_live(a, b) {
            self.add(places, weight)?;
        }
        Ok(())
    }

    fn are_live(&self, a: u8, b: u8) -> bool
        ensures { result ≡ both_live (ids self.now) a b }
    {
        self.is_live(a) && self.is_live(b)
    }
}

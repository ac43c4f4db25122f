// Handing out and vacating ids, with the places of their weights.
ghost use Rattle.std.specs.Prelude.{◌≡◌, ◌<◌, true, Ok, slice_set};
ghost use Rattle.ids.specs.Calls.{added, crowded, next, removed, room, taken, vacated};
ghost use Rattle.ids.specs.Ids.{count, live, none};
ghost use Rattle.ids.specs.Record.{ids};
ghost use Rattle.ids.specs.Series.{SeriesKeep};

use super::IdStorage;
use errors::MatrixError;

impl IdStorage {
    // The next id, with this weight at its place.
    #[tactic(auto, using(crate::proofs::Series::series_keep))]
    pub fn add<N: Copy>(&mut self, places: &mut [N], weight: N) -> Result<u8, MatrixError>
        ensures outcome { record { answer = result; ids = ids self.new; places = places.new } ≡ added (ids self.old) places.old weight }
        ensures series { SeriesKeep N }
    {
        self.check_room(places)?;
        Ok(self.place(places, weight))
    }

    // The weight of a live id, which is vacated. Its place keeps the weight.
    pub fn remove<N: Copy>(&mut self, places: &[N], id: u8) -> Result<N, MatrixError>
        ensures { record { answer = result; ids = ids self.new; places = places.now } ≡ removed (ids self.old) places.now id }
    {
        let weight = self.get(places, id)?.ok_or(MatrixError::NodeMissed(id))?;
        self.vacate(id);
        Ok(weight)
    }

    // No ids: what was live is not, and nothing is stacked.
    pub fn clear(&mut self)
        ensures { ids self.new ≡ none }
    {
        *self = IdStorage::new();
    }

    // Whether a node can be added.
    fn check_room<N>(&self, places: &[N]) -> Result<(), MatrixError>
        ensures { result ≡ room (ids self.now) places.now }
    {
        if self.is_short(places) {
            return Err(MatrixError::ShortMemory);
        }
        if self.len() == 255 {
            return Err(MatrixError::NodeIxLimit);
        }
        if self.is_crowded(places) {
            return Err(MatrixError::NoSpace(self.node_bound() + 1));
        }
        Ok(())
    }

    // No id to use again, and no place for a new one.
    fn is_crowded<N>(&self, places: &[N]) -> bool
        ensures { result ≡ crowded (ids self.now) places.now }
    {
        self.removed_ids.is_empty() && self.node_bound() == places.len()
    }

    // Hands out an id, and writes the weight at its place.
    #[tactic(auto, using(crate::proofs::Adding::room_enough))]
    fn place<N: Copy>(&mut self, places: &mut [N], weight: N) -> u8
        requires { room (ids self.old) places.old ≡ Ok tt }
        ensures value { result ≡ next (ids self.old) }
        ensures after { ids self.new ≡ taken (ids self.old) }
        ensures places { places.new ≡ slice_set places.old result weight }
    {
        let id = self.take_next();
        places[usize::from(id)] = weight;
        id
    }

    // Hands out the top of the stack, or the upper bound where the stack is empty.
    fn take_next(&mut self) -> u8
        requires { count (ids self.old) < 255 }
        ensures value { result ≡ next (ids self.old) }
        ensures after { ids self.new ≡ taken (ids self.old) }
        ensures within { result < self.new.upper_bound }
    {
        let id = match self.removed_ids.pop() {
            Some(id) => id,
            None => {
                // Exact, as every id below the bound is live here, and fewer than 255 are.
                // `try_from` is no plainer: it adds an error that can't occur.
                let id = self.upper_bound as u8;
                self.upper_bound += 1;
                id
            }
        };
        self.is_live[usize::from(id)] = true;
        id
    }

    // Vacates a live id: the one just below the upper bound lowers it, any other goes on the stack.
    #[tactic(auto, using(crate::proofs::Vacating::vacates))]
    fn vacate(&mut self, id: u8)
        requires { live (ids self.old) id ≡ true }
        ensures { ids self.new ≡ vacated (ids self.old) id }
    {
        let index = usize::from(id);
        self.is_live[index] = false;
        if index + 1 == self.upper_bound {
            self.upper_bound -= 1;
        } else {
            self.removed_ids.push(id);
        }
    }
}

// What the record of ids tells, and places read by it.
ghost use Rattle.std.specs.Prelude.{◌≡◌, ◌≤◌};
ghost use Rattle.ids.specs.Calls.{got, replaced, short};
ghost use Rattle.ids.specs.Ids.{count, live, none};
ghost use Rattle.ids.specs.Record.{ids};

use super::IdStorage;
use crate::stack::Stack;
use errors::MatrixError;

impl IdStorage {
    pub fn new() -> IdStorage
        ensures { ids result ≡ none }
    {
        IdStorage {
            upper_bound: 0,
            removed_ids: Stack::new(),
            is_live: [false; 256],
        }
    }

    // Above every live id.
    pub fn node_bound(&self) -> usize
        ensures value { result ≡ (ids self.now).bound }
        ensures bound { result ≤ 255 }
    {
        self.upper_bound
    }

    // How many ids are live.
    pub fn len(&self) -> usize
        ensures value { result ≡ count (ids self.now) }
        ensures bound { result ≤ 255 }
    {
        self.node_bound() - self.removed_ids.len()
    }

    pub fn is_live(&self, id: u8) -> bool
        ensures { result ≡ live (ids self.now) id }
    {
        self.is_live[usize::from(id)]
    }

    // The weight of a live id.
    pub fn get<N: Copy>(&self, places: &[N], id: u8) -> Result<Option<N>, MatrixError>
        ensures { result ≡ got (ids self.now) places.now id }
    {
        if self.is_short(places) {
            return Err(MatrixError::ShortMemory);
        }
        if !self.is_live(id) {
            return Ok(None);
        }
        Ok(Some(places[usize::from(id)]))
    }

    // Another weight for a live id: its old weight.
    pub fn replace<N: Copy>(
        &self,
        places: &mut [N],
        id: u8,
        weight: N,
    ) -> Result<Option<N>, MatrixError>
        ensures { record { answer = result; ids = ids self.now; places = places.new } ≡ replaced (ids self.now) places.old id weight }
    {
        let old = self.get(places, id)?;
        if old.is_some() {
            places[usize::from(id)] = weight;
        }
        Ok(old)
    }

    // Fewer places than are in use.
    pub fn is_short<N>(&self, places: &[N]) -> bool
        ensures { result ≡ short (ids self.now) places.now }
    {
        places.len() < self.node_bound()
    }
}

// Lists in memory of a fixed size.
ghost use Rattle.std.specs.Prelude.{◌≡◌, ◌≤◌, ◌<◌, ◌↔◌, [], ◌∷◌, ◌++◌, length as size, map, replicate, IsTrue, MatchOption};

use crate::change::{Change, change_all};
use std::alloc::AllocError;

// A list of at most N things: the first of the places hold it, and what stands in the others has no meaning, so no equality is derived. It can be copied, as a
// task and an account are; a vector of fixed memory cannot.
pub struct Table<T, const N: usize> {
    // how many of the places hold the list
    used: usize,
    places: [T; N],
    ghost few: { used ≤ N },
    ghost full: { size places ≡ N },
}

// Written out, since a derive of `Clone` does not serve a generic struct with ghost fields.
impl<T: Copy, const N: usize> Clone for Table<T, N> {
    ghost is_clone = { λ t copy. copy ≡ t };

    ghost is_infallible = { λ _. Unit {0} };

    fn clone(&self) -> Result<Table<T, N>, AllocError> {
        Ok(*self)
    }
}

impl<T: Copy, const N: usize> Copy for Table<T, N> {}

impl<T: Copy + Default, const N: usize> Table<T, N> {
    ghost use Rattle.layout.specs.Tables.{listed};

    // The empty list.
    pub fn new() -> Table<T, N>
        ensures { listed result ≡ [] }
    {
        Table {
            used: 0,
            places: [T::default(); N],
        }
    }

    // The list of these things, or None where they are more than N.
    pub fn from_slice(things: &[T]) -> Option<Table<T, N>>
        ensures { MatchOption result (N < size things.now) (λ t. listed t ≡ things.now) }
    {
        if things.len() > N {
            return None;
        }
        let mut places = [T::default(); N];
        places[..things.len()].copy_from_slice(things);
        Some(Table {
            used: things.len(),
            places,
        })
    }
}

impl<T: Copy, const N: usize> Table<T, N> {
    ghost use Rattle.layout.specs.Tables.{listed};

    // The list.
    pub fn as_slice(&self) -> &[T]
        ensures { result.now ≡ listed self.now }
    {
        &self.places[..self.used]
    }

    // Puts a thing after the others, and answers whether there was room for it.
    pub fn push(&mut self, thing: T) -> bool
        ensures answer { IsTrue result ↔ (size (listed self.old) < N) }
        ensures added { size (listed self.old) < N → listed self.new ≡ listed self.old ++ thing ∷ [] }
        ensures full { N ≤ size (listed self.old) → self.new ≡ self.old }
    {
        if self.used == N {
            return false;
        }
        self.places[self.used] = thing;
        self.used += 1;
        true
    }

    // Writes a thing over each of the list.
    #[tactic(auto, using(crate::proofs::Tables::fronts))]
    pub fn fill(&mut self, thing: T)
        ensures { listed self.new ≡ replicate (size (listed self.old)) thing }
    {
        let places = [thing; N];
        self.places = places;
    }

    // The list with each thing changed.
    #[tactic(auto, using(crate::proofs::Tables::fronts))]
    pub fn changed<C: Change<T>>(mut self, by: &C) -> Table<T, N>
        ensures { listed result ≡ map (C.Change.changed by.now) (listed self) }
    {
        change_all(&mut self.places, by);
        self
    }
}

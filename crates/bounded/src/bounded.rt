// A list of at most N entries.
ghost use Rattle.std.specs.Prelude.{◌≡◌, ◌+◌, ◌<◌, ◌≤◌, [], ◌∷◌, ◌++◌, length, take, drop, ⊤};
ghost use Rattle.bounded.specs.Lists.{pushing, pushed};

use std::alloc::AllocError;

/// The answer of a list that has no room for one entry more.
#[derive(Clone, Copy, PartialEq, Eq, Debug)]
pub struct Full;

// Kept: a buffer with a count, since nothing is allocated where questions run, and paths and places are copied; the kit's `ArrayVec` is no `Copy`.

/// At most N entries, in the order in which they were put.
pub struct Bounded<T, const N: usize> {
    entries: [T; N],
    count: usize,
    ghost whole: { length entries ≡ N },
    ghost fits: { count ≤ N },
}

// Kept: written out, since `Clone` cannot be derived for a generic struct with ghost fields.
impl<T: Copy, const N: usize> Copy for Bounded<T, N> {}

impl<T: Copy, const N: usize> Clone for Bounded<T, N> {
    ghost is_clone = { λ list copy. copy ≡ list };

    ghost is_infallible = { λ _. ⊤ };

    fn clone(&self) -> Result<Bounded<T, N>, AllocError> {
        Ok(*self)
    }
}

impl<T: Copy + Default, const N: usize> Bounded<T, N> {
    /// No entries.
    pub fn new() -> Bounded<T, N>
        ensures { take result.count result.entries ≡ [] }
    {
        Bounded::over([T::default(); N])
    }
}

impl<T: Copy, const N: usize> Bounded<T, N> {
    /// No entries yet in a buffer.
    fn over(entries: [T; N]) -> Bounded<T, N>
        ensures { result.count ≡ 0 }
    {
        Bounded { entries, count: 0 }
    }

    /// Puts one entry more, for which there is room.
    pub fn push(&mut self, entry: T)
        requires { self.old.count < N }
        ensures entries { take self.new.count self.new.entries ≡ take self.old.count self.old.entries ++ entry ∷ [] }
        ensures count { self.new.count ≡ self.old.count + 1 }
    {
        self.entries[self.count] = entry;
        self.count += 1;
    }

    /// Puts one entry more, or refuses it where there is no room.
    pub fn try_push(&mut self, entry: T) -> Result<(), Full>
        ensures answer { result ≡ pushing N (take self.old.count self.old.entries) }
        ensures after { take self.new.count self.new.entries ≡ pushed N (take self.old.count self.old.entries) entry }
    {
        if self.count == N {
            return Err(Full);
        }
        self.push(entry);
        Ok(())
    }

    /// The entries after the first few, as a list of their own.
    pub fn after(&self, passed: usize) -> Bounded<T, N>
        ensures { take result.count result.entries ≡ drop passed (take self.now.count self.now.entries) }
    {
        let mut rest = Bounded::over(self.entries);
        // Kept: a `for` over entries; the library has no call that puts them into a list of another kind.
        for entry in &self.as_slice()[passed.min(self.count)..] {
            rest.push(*entry);
        }
        rest
    }

    /// The entries.
    pub fn as_slice(&self) -> &[T]
        ensures { result.now ≡ take self.now.count self.now.entries }
    {
        &self.entries[..self.count]
    }
}

// What a stack of at most N entries answers, and what changes it.
ghost use Rattle.std.specs.Prelude.{◌≡◌, ◌≤◌, [], reverse, length, drop};
ghost use Rattle.std.specs.List.{slice_get};
ghost use Rattle.stacks.specs.Entries.{room_for_one, entered, lowest, with_top};

use crate::stack::{Full, Stack};

impl<T: Copy, const N: usize> Stack<T, N> {
    // The filler stands in the free places, and is never seen.
    pub fn new(filler: T) -> Stack<T, N>
        ensures { result ≡ [] }
    {
        Stack {
            entries: [filler; N],
            len: 0,
        }
    }

    pub fn depth(&self) -> usize
        ensures value { result ≡ length self.now }
        ensures bound { result ≤ N }
    {
        self.len
    }

    // The entries, lowest first: read from the end, they are the stack from the top down.
    pub fn lowest_first(&self) -> &[T]
        ensures { reverse result.now ≡ self.now }
    {
        &self.entries[..self.len]
    }

    // The n-th entry from the top, which is the 0th.
    pub fn peek(&self, n: usize) -> Option<T>
        ensures { result ≡ slice_get self.now n }
    {
        let below = self.len.checked_sub(n)?;
        self.entries[..below].last().copied()
    }

    // Refused exactly when the stack is full, and then nothing changes.
    #[tactic(auto, using(crate::proofs::Fronts::fronts))]
    pub fn push(&mut self, entry: T) -> Result<(), Full>
        ensures answer { result ≡ room_for_one N self.old }
        ensures state { self.new ≡ entered N entry self.old }
    {
        if self.len >= N {
            return Err(Full);
        }
        self.entries[self.len] = entry;
        self.len += 1;
        Ok(())
    }

    // Takes the top entry off.
    #[tactic(auto, using(crate::proofs::Fronts::fronts))]
    pub fn pop(&mut self) -> Option<T>
        ensures answer { result ≡ slice_get self.old 0 }
        ensures state { self.new ≡ drop 1 self.old }
    {
        self.len = self.len.checked_sub(1)?;
        Some(self.entries[self.len])
    }

    // Another entry for the top one. Nothing changes where there is none.
    #[tactic(auto, using(crate::proofs::Fronts::fronts))]
    pub fn set_top(&mut self, entry: T)
        ensures { self.new ≡ with_top entry self.old }
    {
        if self.len > 0 {
            self.entries[self.len - 1] = entry;
        }
    }

    // Keeps the lowest entries, as many as asked for. Nothing changes where there are no more.
    #[tactic(auto, using(crate::proofs::Fronts::fronts))]
    pub fn truncate(&mut self, depth: usize)
        ensures { self.new ≡ lowest depth self.old }
    {
        self.len = self.len.min(depth);
    }
}

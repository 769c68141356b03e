// A stack of at most N entries in fixed memory: the frames, the dictionaries.
use std::marker::Model;

#[derive(Drop)]
pub struct Stack<T, const N: usize> {
    // the lowest entry first; what stands in the free places is never seen
    // Kept: an array and how many are in use, since `ArrayVec` would ask for a default of every entry.
    pub(crate) entries: [T; N],
    pub(crate) len: usize,
}

// Clauses see the entries, top first.
impl<T, const N: usize> Model for Stack<T, N> {
    ghost use Rattle.std.specs.Prelude.{◌≡◌, ◌≤◌, List, reverse, take, length};
    ghost use Rattle.std.specs.Coded.{coded_list};

    ghost Value = { List T };

    ghost coded = { coded_list T.code };

    ghost view = { λ s. reverse (take s.len s.entries) };

    ghost invariant = { λ s. (s.len ≤ N) × (length s.entries ≡ N) };
}

// There was no room for one more entry.
#[derive(Clone, Copy, PartialEq, Eq, Debug)]
pub struct Full;

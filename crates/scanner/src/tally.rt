// How many elements a token has so far: in procedures that are closed, and in those that are open, of which there are `depth`.
ghost use Rattle.std.specs.Prelude.{◌+◌, ◌≤◌};

#[derive(Clone, Copy)]
pub struct Tally {
    pub done: u16,
    pub pending: u16,
    pub depth: u16,
    ghost room: { done + pending ≤ 512 },
    ghost deep: { depth ≤ 16 },
}

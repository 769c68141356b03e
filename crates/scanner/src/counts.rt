// The counters of the scratch: how many string bytes and elements the token has so far. Between tokens all are zero.
use crate::tally::Tally;

#[derive(Clone, Copy)]
pub struct Counts {
    pub strings: u16,
    pub tally: Tally,
}

impl Counts {
    pub const NONE: Counts = Counts {
        strings: 0,
        tally: Tally {
            done: 0,
            pending: 0,
            depth: 0,
        },
    };
}

// On every way out of a token the counters stand as before it: the guard puts them back as it goes.
ghost use Rattle.std.specs.Prelude.{◌≡◌};

use crate::counts::Counts;

pub struct Guard<'c> {
    pub counts: &'c mut Counts,
    pub before: Counts,
}

// Kept: written by hand, since it does something: a derived one would only let the loan go.
impl Drop for Guard<'_> {
    fn drop(self)
        ensures { self.exit.0.now ≡ self.entry.before }
    {
        *self.counts = self.before;
        let Guard {
            counts: _,
            before: _,
        } = self;
    }
}

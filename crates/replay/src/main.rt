// The incident, replayed on each keeper: two nested saves, several writes to the phase, and two ways back.
#![tactic(auto)]

use crate::replay::replay;
use crate::stop::Stop;
use keepers::copy::CopyKeeper;
use keepers::journal::Journal;
use keepers::note::Note;
use objects::object::Object;

mod column;
mod moves;
mod outing;
mod phase;
mod replay;
mod scene;
mod stop;

// A phase and a modifier.
const SLOTS: usize = 2;

// Room for the outer save and the inner one.
const SECOND: usize = 4;

// The replay on a keeper of this type, with this blank place of second memory.
macro_rules! replay_on {
    ($rt:expr; $keeper:ident, $blank:expr, $named:literal) => {{
        let mut slots = [Object::BLANK; SLOTS];
        let mut bytes = [0u8; 1];
        let mut second = [$blank; SECOND];
        let mut keeper = $keeper::new(&mut slots, &mut bytes, &mut second);
        replay($rt, $named, &mut keeper)
    }};
}

fn main(rt: HostRuntime) -> Result<(), Stop> {
    replay_on!(&rt; Journal, Note::BLANK, "journal keeper")?;
    replay_on!(&rt; CopyKeeper, Object::BLANK, "copy keeper")
}

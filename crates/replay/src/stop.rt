// Why the replay stops early: it cannot print, or a keeper refuses a move.
use objects::fault::Fault;
use std::io;

#[derive(Debug, Drop)]
pub enum Stop {
    Io(io::Error),
    Refused(Fault),
}

impl From<io::Error> for Stop {
    fn from(error: io::Error) -> Stop {
        Stop::Io(error)
    }
}

impl From<Fault> for Stop {
    fn from(fault: Fault) -> Stop {
        Stop::Refused(fault)
    }
}

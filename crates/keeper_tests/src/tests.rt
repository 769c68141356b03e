// Every check on each keeper, over memory of the sizes that it wants.
use crate::edges::{one_slot, opens_exactly, outside, without_slots};
use crate::levels::{back_one_by_one, back_straight, bytes_stay, closed_levels, quiet_levels};
use crate::pair::same_moves;
use keepers::copy::CopyKeeper;
use keepers::journal::Journal;
use keepers::note::Note;
use objects::object::Object;
use std::process::Abort;
use std::test::*;

// Runs a check on a keeper of this type, with this many slots, bytes and blank places of second memory.
macro_rules! on_keeper {
    ($rt:expr; $keeper:ident, $blank:expr, $slots:literal, $bytes:literal, $second:literal, $check:ident $(, $more:expr)*) => {{
        let mut slots = [Object::BLANK; $slots];
        let mut bytes = [0u8; $bytes];
        let mut second = [$blank; $second];
        let mut keeper = $keeper::new(&mut slots, &mut bytes, &mut second);
        $check($rt, &mut keeper $(, $more)*)
    }};
}

macro_rules! on_copies {
    ($rt:expr; $($rest:tt)*) => { on_keeper!($rt; CopyKeeper, Object::BLANK, $($rest)*) };
}

macro_rules! on_journal {
    ($rt:expr; $($rest:tt)*) => { on_keeper!($rt; Journal, Note::BLANK, $($rest)*) };
}

// Kept: a test for each check on each keeper, so that one that fails is told by its name.
#[test]
fn copy_back_one_by_one(rt: HostRuntime) -> Result<(), Fail> {
    on_copies!(&rt; 3, 2, 9, back_one_by_one)
}

#[test]
fn copy_back_straight(rt: HostRuntime) -> Result<(), Fail> {
    on_copies!(&rt; 3, 2, 9, back_straight)
}

#[test]
fn copy_quiet_levels(rt: HostRuntime) -> Result<(), Fail> {
    on_copies!(&rt; 3, 2, 9, quiet_levels)
}

#[test]
fn copy_bytes_stay(rt: HostRuntime) -> Result<(), Fail> {
    on_copies!(&rt; 3, 2, 9, bytes_stay)
}

#[test]
fn copy_closed_levels(rt: HostRuntime) -> Result<(), Fail> {
    on_copies!(&rt; 3, 2, 9, closed_levels)
}

#[test]
fn copy_outside(rt: HostRuntime) -> Result<(), Fail> {
    on_copies!(&rt; 3, 2, 9, outside)
}

#[test]
fn copy_without_slots(rt: HostRuntime) -> Result<(), Fail> {
    on_copies!(&rt; 0, 1, 4, without_slots)
}

#[test]
fn copy_one_slot(rt: HostRuntime) -> Result<(), Fail> {
    on_copies!(&rt; 1, 0, 3, one_slot)
}

#[test]
fn copy_one_short_of_a_multiple(rt: HostRuntime) -> Result<(), Fail> {
    on_copies!(&rt; 4, 0, 11, opens_exactly, 2)
}

#[test]
fn copy_at_a_multiple(rt: HostRuntime) -> Result<(), Fail> {
    on_copies!(&rt; 4, 0, 12, opens_exactly, 3)
}

#[test]
fn copy_no_second_memory(rt: HostRuntime) -> Result<(), Fail> {
    on_copies!(&rt; 4, 0, 0, opens_exactly, 0)
}

#[test]
fn copy_at_most_fifteen(rt: HostRuntime) -> Result<(), Fail> {
    on_copies!(&rt; 1, 0, 20, opens_exactly, 15)
}

#[test]
fn journal_back_one_by_one(rt: HostRuntime) -> Result<(), Fail> {
    on_journal!(&rt; 3, 2, 9, back_one_by_one)
}

#[test]
fn journal_back_straight(rt: HostRuntime) -> Result<(), Fail> {
    on_journal!(&rt; 3, 2, 9, back_straight)
}

#[test]
fn journal_quiet_levels(rt: HostRuntime) -> Result<(), Fail> {
    on_journal!(&rt; 3, 2, 9, quiet_levels)
}

#[test]
fn journal_bytes_stay(rt: HostRuntime) -> Result<(), Fail> {
    on_journal!(&rt; 3, 2, 9, bytes_stay)
}

#[test]
fn journal_closed_levels(rt: HostRuntime) -> Result<(), Fail> {
    on_journal!(&rt; 3, 2, 9, closed_levels)
}

#[test]
fn journal_outside(rt: HostRuntime) -> Result<(), Fail> {
    on_journal!(&rt; 3, 2, 9, outside)
}

#[test]
fn journal_without_slots(rt: HostRuntime) -> Result<(), Fail> {
    on_journal!(&rt; 0, 1, 4, without_slots)
}

#[test]
fn journal_one_slot(rt: HostRuntime) -> Result<(), Fail> {
    on_journal!(&rt; 1, 0, 3, one_slot)
}

#[test]
fn journal_one_short_of_a_multiple(rt: HostRuntime) -> Result<(), Fail> {
    on_journal!(&rt; 4, 0, 11, opens_exactly, 2)
}

#[test]
fn journal_at_a_multiple(rt: HostRuntime) -> Result<(), Fail> {
    on_journal!(&rt; 4, 0, 12, opens_exactly, 3)
}

#[test]
fn journal_no_second_memory(rt: HostRuntime) -> Result<(), Fail> {
    on_journal!(&rt; 4, 0, 0, opens_exactly, 0)
}

#[test]
fn journal_at_most_fifteen(rt: HostRuntime) -> Result<(), Fail> {
    on_journal!(&rt; 1, 0, 20, opens_exactly, 15)
}

// Both keepers get the same moves, over five slots, six bytes and room for four levels.
fn same_on_both(rt: &impl Abort, seed: u32) {
    let mut slots = [Object::BLANK; 5];
    let mut bytes = [0u8; 6];
    let mut copies = [Object::BLANK; 20];
    let mut copy_keeper = CopyKeeper::new(&mut slots, &mut bytes, &mut copies);
    let mut other_slots = [Object::BLANK; 5];
    let mut other_bytes = [0u8; 6];
    let mut notes = [Note::BLANK; 20];
    let mut journal = Journal::new(&mut other_slots, &mut other_bytes, &mut notes);
    same_moves(rt, &mut copy_keeper, &mut journal, seed);
}

#[test]
fn both_answer_the_same(rt: HostRuntime) {
    same_on_both(&rt, 1);
    same_on_both(&rt, 2024);
    same_on_both(&rt, 77777);
}

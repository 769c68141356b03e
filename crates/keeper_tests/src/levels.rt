// Nested levels, over a keeper with at least three slots, a byte and room for three levels.
use crate::short::{hold, put, refused};
use keepers::keeper::Keeper;
use std::process::Abort;
use std::test::*;

// Opens a level, and then changes slot 0 once, slot 1 never and slot 2 twice.
fn deeper<K: Keeper>(keeper: &mut K, value: i32) -> Result<(), Fail> {
    keeper.open_level()?;
    put(keeper, 0, value)?;
    put(keeper, 2, 0)?;
    put(keeper, 2, value)
}

fn three_levels<K: Keeper>(rt: &impl Abort, keeper: &mut K) -> Result<(), Fail> {
    put(keeper, 0, 10)?;
    put(keeper, 1, 20)?;
    put(keeper, 2, 30)?;
    deeper(keeper, 100)?;
    deeper(keeper, 200)?;
    deeper(keeper, 300)?;
    assert_eq!(rt; keeper.open_levels(), 3);
    hold(rt, keeper, 300, 20, 300)
}

pub fn back_one_by_one<K: Keeper>(rt: &impl Abort, keeper: &mut K) -> Result<(), Fail> {
    three_levels(rt, keeper)?;
    keeper.back_to(2)?;
    hold(rt, keeper, 200, 20, 200)?;
    assert_eq!(rt; keeper.open_levels(), 2);
    keeper.back_to(1)?;
    hold(rt, keeper, 100, 20, 100)?;
    assert_eq!(rt; keeper.open_levels(), 1);
    keeper.back_to(0)?;
    hold(rt, keeper, 10, 20, 30)?;
    assert_eq!(rt; keeper.open_levels(), 0);
    Ok(())
}

pub fn back_straight<K: Keeper>(rt: &impl Abort, keeper: &mut K) -> Result<(), Fail> {
    three_levels(rt, keeper)?;
    keeper.back_to(1)?;
    hold(rt, keeper, 100, 20, 100)?;
    assert_eq!(rt; keeper.open_levels(), 1);
    keeper.back_to(0)?;
    three_levels(rt, keeper)?;
    keeper.back_to(0)?;
    hold(rt, keeper, 10, 20, 30)?;
    assert_eq!(rt; keeper.open_levels(), 0);
    Ok(())
}

// A level in which nothing was put is the slots themselves.
pub fn quiet_levels<K: Keeper>(rt: &impl Abort, keeper: &mut K) -> Result<(), Fail> {
    put(keeper, 0, 1)?;
    put(keeper, 1, 2)?;
    put(keeper, 2, 3)?;
    keeper.open_level()?;
    keeper.open_level()?;
    put(keeper, 1, 9)?;
    keeper.open_level()?;
    keeper.back_to(2)?;
    hold(rt, keeper, 1, 9, 3)?;
    keeper.back_to(0)?;
    hold(rt, keeper, 1, 2, 3)
}

// Bytes are as last put, whatever returns.
pub fn bytes_stay<K: Keeper>(rt: &impl Abort, keeper: &mut K) -> Result<(), Fail> {
    keeper.put_byte(0, 7)?;
    keeper.open_level()?;
    keeper.put_byte(0, 8)?;
    keeper.back_to(0)?;
    assert_eq!(rt; keeper.byte(0)?, 8);
    Ok(())
}

pub fn closed_levels<K: Keeper>(rt: &impl Abort, keeper: &mut K) -> Result<(), Fail> {
    refused(rt, keeper.back_to(0), 10)?;
    three_levels(rt, keeper)?;
    refused(rt, keeper.back_to(3), 10)?;
    refused(rt, keeper.back_to(usize::MAX), 10)?;
    hold(rt, keeper, 300, 20, 300)?;
    assert_eq!(rt; keeper.open_levels(), 3);
    keeper.back_to(1)?;
    refused(rt, keeper.back_to(1), 10)?;
    hold(rt, keeper, 100, 20, 100)?;
    assert_eq!(rt; keeper.open_levels(), 1);
    Ok(())
}

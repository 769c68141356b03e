// Sizes, limits and refusals.
use crate::short::{hold, holds, put, refused};
use keepers::keeper::Keeper;
use objects::object::Object;
use std::process::Abort;
use std::test::*;

// Opens levels up to the limit, which is expected to be this, and then one too many.
pub fn opens_exactly<K: Keeper>(rt: &impl Abort, keeper: &mut K, limit: usize) -> Result<(), Fail> {
    assert_eq!(rt; keeper.level_limit(), limit);
    for _ in 0..limit {
        keeper.open_level()?;
    }
    refused(rt, keeper.open_level(), 5)?;
    assert_eq!(rt; keeper.open_levels(), limit);
    assert_eq!(rt; keeper.level_limit(), limit);
    Ok(())
}

// Over a keeper without slots and with one byte.
pub fn without_slots<K: Keeper>(rt: &impl Abort, keeper: &mut K) -> Result<(), Fail> {
    assert_eq!(rt; keeper.slot_count(), 0);
    assert_eq!(rt; keeper.byte_count(), 1);
    refused(rt, keeper.slot(0), 4)?;
    refused(rt, keeper.put_slot(0, Object::from(1)), 4)?;
    refused(rt, keeper.back_to(0), 10)?;
    opens_exactly(rt, keeper, 0)?;
    keeper.put_byte(0, 255)?;
    assert_eq!(rt; keeper.byte(0)?, 255);
    Ok(())
}

// Over a keeper with one slot and room for three levels.
pub fn one_slot<K: Keeper>(rt: &impl Abort, keeper: &mut K) -> Result<(), Fail> {
    put(keeper, 0, 5)?;
    keeper.open_level()?;
    put(keeper, 0, 6)?;
    put(keeper, 0, 7)?;
    keeper.open_level()?;
    put(keeper, 0, 8)?;
    keeper.back_to(1)?;
    holds(rt, keeper, 0, 7)?;
    keeper.back_to(0)?;
    holds(rt, keeper, 0, 5)?;
    opens_exactly(rt, keeper, 3)
}

// Over a keeper with three slots and two bytes.
pub fn outside<K: Keeper>(rt: &impl Abort, keeper: &mut K) -> Result<(), Fail> {
    put(keeper, 0, 1)?;
    put(keeper, 1, 2)?;
    put(keeper, 2, 3)?;
    keeper.put_byte(1, 4)?;
    refused(rt, keeper.slot(3), 4)?;
    refused(rt, keeper.slot(usize::MAX), 4)?;
    refused(rt, keeper.put_slot(3, Object::from(9)), 4)?;
    refused(rt, keeper.put_slot(usize::MAX, Object::from(9)), 4)?;
    refused(rt, keeper.byte(2), 4)?;
    refused(rt, keeper.put_byte(2, 9), 4)?;
    refused(rt, keeper.put_byte(usize::MAX, 9), 4)?;
    hold(rt, keeper, 1, 2, 3)?;
    assert_eq!(rt; keeper.byte(0)?, 0);
    assert_eq!(rt; keeper.byte(1)?, 4);
    assert_eq!(rt; keeper.open_levels(), 0);
    Ok(())
}

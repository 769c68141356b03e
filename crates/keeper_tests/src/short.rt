// The checks' own words: numbers in slots, and refusals by number.
use keepers::keeper::Keeper;
use objects::fault::Fault;
use objects::object::Object;
use std::process::Abort;
use std::test::*;

pub fn put<K: Keeper>(keeper: &mut K, at: usize, value: i32) -> Result<(), Fail> {
    keeper.put_slot(at, Object::from(value))?;
    Ok(())
}

pub fn holds<K: Keeper>(rt: &impl Abort, keeper: &K, at: usize, value: i32) -> Result<(), Fail> {
    let object = keeper.slot(at)?;
    assert!(rt; object == Object::from(value));
    Ok(())
}

// Slots 0, 1 and 2 hold these numbers.
pub fn hold<K: Keeper>(
    rt: &impl Abort,
    keeper: &K,
    first: i32,
    second: i32,
    third: i32,
) -> Result<(), Fail> {
    holds(rt, keeper, 0, first)?;
    holds(rt, keeper, 1, second)?;
    holds(rt, keeper, 2, third)
}

// The answer is a refusal, and this one.
// Kept: a refusal by its number, which is what reports and replies carry (docs/REFUSALS.md).
pub fn refused<T: Drop>(rt: &impl Abort, answer: Result<T, Fault>, with: u8) -> Result<(), Fail> {
    match answer {
        Ok(_) => Err(Fail::new("not refused")),
        Err(fault) => {
            assert_eq!(rt; fault.number(), with);
            Ok(())
        },
    }
}

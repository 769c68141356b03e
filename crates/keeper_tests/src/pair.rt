// Two keepers given the same moves.
use keepers::keeper::Keeper;
use objects::object::Object;
use std::process::Abort;

// A linear congruential generator; the highest byte of its state is what it throws.
#[derive(Clone, Copy)]
struct Dice {
    state: u32,
}

impl Dice {
    fn throw(&mut self) -> u8 {
        self.state = self.state.wrapping_mul(1664525).wrapping_add(1013904223);
        (self.state >> 24) as u8
    }
}

// One move out of six kinds, some of them outside or at a closed level.
// Kept: a throw decides the kind: an enum would have to be made of the same eight numbers.
fn same_move<A: Keeper, B: Keeper>(rt: &impl Abort, a: &mut A, b: &mut B, dice: &mut Dice) {
    let kind = dice.throw() % 8;
    let at = usize::from(dice.throw() % 7);
    let byte = dice.throw();
    let object = Object::from(i32::from(byte));
    match kind {
        0 => assert_eq!(rt; a.slot(at), b.slot(at)),
        1 => assert_eq!(rt; a.byte(at), b.byte(at)),
        2 => assert_eq!(rt; a.put_byte(at, byte), b.put_byte(at, byte)),
        3 => assert_eq!(rt; a.open_level(), b.open_level()),
        4 => assert_eq!(rt; a.back_to(at), b.back_to(at)),
        _ => assert_eq!(rt; a.put_slot(at, object), b.put_slot(at, object)),
    }
}

fn same_now<A: Keeper, B: Keeper>(rt: &impl Abort, a: &A, b: &B) {
    assert_eq!(rt; a.slot_count(), b.slot_count());
    assert_eq!(rt; a.byte_count(), b.byte_count());
    assert_eq!(rt; a.level_limit(), b.level_limit());
    assert_eq!(rt; a.open_levels(), b.open_levels());
    // Kept: places by number, since a keeper is asked by number and hands out no list to go over.
    for at in 0..a.slot_count() {
        assert_eq!(rt; a.slot(at), b.slot(at));
    }
    for at in 0..a.byte_count() {
        assert_eq!(rt; a.byte(at), b.byte(at));
    }
}

// Kept: the two keepers as two parameters: a struct of both would be made in one test only.
pub fn same_moves<A: Keeper, B: Keeper>(rt: &impl Abort, a: &mut A, b: &mut B, seed: u32) {
    let mut dice = Dice { state: seed };
    for _ in 0..200 {
        same_move(rt, a, b, &mut dice);
        same_now(rt, a, b);
    }
}

// The two slots that the story is about.
ghost use Rattle.std.specs.Prelude.{◌≡◌, Some};
ghost use Rattle.replay.specs.Turns.{phase_object, number_in};
ghost use Rattle.replay.specs.declared.phase.Phase.{Phase};

use crate::phase::Phase;
use keepers::keeper::Keeper;
use objects::fault::Fault;
use objects::object::{Object, Value};

pub const PHASE: usize = 0;

pub const MODIFIER: usize = 1;

#[derive(Clone, Copy, PartialEq)]
pub struct Scene {
    pub phase: Object,
    pub modifier: Object,
}

impl Scene {
    pub const BLANK: Scene = Scene {
        phase: Object::BLANK,
        modifier: Object::BLANK,
    };

    pub fn read<K: Keeper>(keeper: &K) -> Result<Scene, Fault> {
        let phase = keeper.slot(PHASE)?;
        let modifier = keeper.slot(MODIFIER)?;
        Ok(Scene { phase, modifier })
    }

    // The phase, if slots hold one.
    pub fn phase(self) -> Option<Phase>
        ensures { (p : Phase) → (self.phase ≡ phase_object p → result ≡ Some p) × (result ≡ Some p → self.phase.value ≡ (phase_object p).value) }
    {
        Phase::try_from(self.phase).ok()
    }

    // The modifier, if the slot holds an integer.
    pub fn modifier(self) -> Option<i32>
        ensures { result ≡ number_in self.modifier.value }
    {
        match self.modifier.value {
            Value::Integer(number) => Some(number),
            _ => None,
        }
    }
}

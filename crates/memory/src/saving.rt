// Making a save, and going back to one.
ghost use Rattle.std.specs.Prelude.{◌≡◌, ◌≤◌, length};
ghost use Rattle.objects.specs.Outcomes.{after, heard, answered};
ghost use Rattle.memory.specs.Saves.{Saving, GoingBack};
ghost use Rattle.memory.specs.Saving.{next_number, save_made, can_save, saved_as, back_to_save};

use crate::memory::Memory;
use crate::saves::Saved;
use keepers::keeper::Keeper;
use objects::fault::Fault;

impl<K: Keeper> Memory<'_, K> {
    // Opens a level and records both tops under the next number.
    pub fn save(&mut self) -> Result<u16, Fault>
        ensures answer { result ≡ answered (save_made self.old) (next_number self.old) }
        ensures state { self.new ≡ after (save_made self.old) self.old }
        ensures numbered { Saving self.old self.new result }
    {
        if self.saves.made == u16::MAX || self.saves.open.is_full() {
            return Err(Fault::LimitCheck);
        }
        self.keeper.open_level()?;
        self.saves.add(self.slot_top, self.byte_top);
        Ok(self.saves.made)
    }

    // Whether a save could be made. At most 15 are open at once, and at most 65,535 were ever made.
    pub fn can_save(&self) -> bool
        ensures value { result ≡ can_save self.now }
        ensures within { length self.now.saves ≤ 15 }
        ensures made { self.now.made ≤ 65535 }
    {
        let made = self.saves.made;
        !self.saves.open.is_full()
            && made < u16::MAX
            && self.keeper.open_levels() < self.keeper.level_limit()
    }

    // What the open save with the number recorded.
    pub fn saved(&self, number: u16) -> Option<Saved>
        ensures { result ≡ saved_as number self.now.saves }
    {
        let place = self.saves.place(number)?;
        Some(self.saves.open[place])
    }

    // Goes back to the level of the save with the number, and returns both tops.
    pub fn back_to_save(&mut self, number: u16) -> Result<(), Fault>
        ensures answer { result ≡ heard (back_to_save number self.old) }
        ensures state { self.new ≡ after (back_to_save number self.old) self.old }
        ensures returned { GoingBack self.old self.new number result }
    {
        let place = self.saves.place(number).ok_or(Fault::InvalidRestore)?;
        self.keeper.back_to(place)?;
        let saved = self.saves.open[place];
        self.slot_top = saved.slot_top;
        self.byte_top = saved.byte_top;
        self.saves.open.truncate(place);
        Ok(())
    }
}

// What a table asks of the memory that a studio lends it.
ghost use Rattle.std.specs.Prelude.{◌≡◌, length};
ghost use Rattle.objects.specs.Outcomes.{after, heard};
ghost use Rattle.keepers.specs.Kept.{Kept, get_slot, get_byte, put_slot, put_byte, open_level, back_to};

use objects::fault::Fault;
use objects::object::Object;

// A keeper stands for slots, bytes and a list of levels, each the slots as they once were. `kept` says for which.
// A refusal changes nothing; sizes and limit never change.
// Kept: slots and bytes have functions of their own, since a level keeps the slots alone: a slot put is undone on the way back, a byte put is not.
pub trait Keeper {
    ghost kept: { Self → Kept };

    fn slot(&self, at: usize) -> Result<Object, Fault>
        ensures { result ≡ get_slot at (kept self.now) };

    fn byte(&self, at: usize) -> Result<u8, Fault>
        ensures { result ≡ get_byte at (kept self.now) };

    fn put_slot(&mut self, at: usize, object: Object) -> Result<(), Fault>
        ensures answer { result ≡ heard (put_slot at object (kept self.old)) }
        ensures state { kept self.new ≡ after (put_slot at object (kept self.old)) (kept self.old) };

    fn put_byte(&mut self, at: usize, byte: u8) -> Result<(), Fault>
        ensures answer { result ≡ heard (put_byte at byte (kept self.old)) }
        ensures state { kept self.new ≡ after (put_byte at byte (kept self.old)) (kept self.old) };

    fn slot_count(&self) -> usize
        ensures { result ≡ length (kept self.now).slots };

    fn byte_count(&self) -> usize
        ensures { result ≡ length (kept self.now).bytes };

    fn level_limit(&self) -> usize
        ensures { result ≡ (kept self.now).limit };

    fn open_levels(&self) -> usize
        ensures { result ≡ length (kept self.now).levels };

    // Adds the present slots as the newest level.
    fn open_level(&mut self) -> Result<(), Fault>
        ensures answer { result ≡ heard (open_level (kept self.old)) }
        ensures state { kept self.new ≡ after (open_level (kept self.old)) (kept self.old) };

    // Makes the slots those of a level, counted from 0 for the oldest, and closes it and all above it.
    fn back_to(&mut self, level: usize) -> Result<(), Fault>
        ensures answer { result ≡ heard (back_to level (kept self.old)) }
        ensures state { kept self.new ≡ after (back_to level (kept self.old)) (kept self.old) };
}

// One element read from a place of a lent slice, or stored there. Past the end it is a rangecheck.
ghost use Rattle.std.specs.Prelude.{◌≡◌, slice_get, slice_set};
ghost use Rattle.std.specs.Option.{ok_or};
ghost use Rattle.objects.specs.Places.{within};
ghost use Rattle.objects.specs.declared.fault.Fault.TheVariants.{RangeCheck};

use crate::fault::Fault;

pub fn load<T: Copy>(places: &[T], at: usize) -> Result<T, Fault>
    ensures { result ≡ ok_or (slice_get places.now at) RangeCheck }
{
    places.get(at).copied().ok_or(Fault::RangeCheck)
}

// The one copying rule: it stores what keepers are given, the copies in a second memory, and the bytes of names. A refusal stores nothing.
// Kept: a test and an index, since over `get_mut` two goals about the place that was written stay open.
pub fn store<T: Copy>(places: &mut [T], at: usize, element: T) -> Result<(), Fault>
    ensures after { places.new ≡ slice_set places.old at element }
    ensures stored { result ≡ within places.old at }
{
    if at >= places.len() {
        return Err(Fault::RangeCheck);
    }
    places[at] = element;
    Ok(())
}

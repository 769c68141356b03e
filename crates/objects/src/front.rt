// The front of a slice.
ghost use Rattle.std.specs.Prelude.{◌≡◌, take};

// The first `count` places, or all of them if there are fewer.
pub fn front<T>(places: &[T], count: usize) -> &[T]
    ensures { result.now ≡ take count places.now }
{
    places.get(..count).unwrap_or(places)
}

//! An element of a list by its place.

ghost use Rattle.std.specs.Prelude.{◌≡◌, option_copied, slice_get};

/// The element in that place, if there is one: `get`, with the one clause that the contracts of this crate ask for.
#[inline(always)]
pub fn at<T>(list: &[T], place: usize) -> Option<&T>
    ensures { option_copied result ≡ slice_get list.now place }
{
    list.get(place)
}

//! What a slice has at a place.

ghost use Rattle.std.specs.Prelude.{◌≡◌, false, None, slice_get, slice_index_or, unwrap_or};

/// The flag at the place. It is false past the end.
pub fn flag_at(flags: &[bool], place: u32) -> bool
    ensures { result ≡ slice_index_or flags.now place false }
{
    match flags.get(place as usize) {
        Some(flag) => *flag,
        None => false,
    }
}

/// The number at the place. It is 0 past the end.
pub fn number_at(numbers: &[u32], place: u32) -> u32
    ensures { result ≡ slice_index_or numbers.now place 0 }
{
    match numbers.get(place as usize) {
        Some(number) => *number,
        None => 0,
    }
}

/// What the slice holds at the place, if it holds anything there. Past the end it holds nothing.
pub fn value_at<T: Copy>(values: &[Option<T>], place: usize) -> Option<T>
    ensures { result ≡ unwrap_or (slice_get values.now place) None }
{
    match values.get(place) {
        Some(value) => *value,
        None => None,
    }
}

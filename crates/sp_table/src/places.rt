//! Places of points among the cells of some widths.

ghost use Rattle.std.specs.Prelude.{◌≡◌, ◌≢◌, ◌%◌, ◌<◌, ◌^◌, length, slice_index, slice_set, IfSome};
ghost use Rattle.sp_dd.specs.Points.{product, place, point_at};

/// How many cells there are, where the number is small enough.
pub(crate) fn count_of(widths: &[u64]) -> Option<usize>
    ensures value { IfSome result (λ n. n ≡ product widths.now) }
    ensures fits { IfSome result (λ n. n < 2 ^ 63) }
{
    let mut count = 1usize;
    let mut i = widths.len();
    while i > 0 {
        i -= 1;
        count = count.checked_mul(widths[i] as usize)?;
        if count >= 1 << 63 {
            return None;
        }
    }
    Some(count)
}

/// The place of a point among the cells of these widths.
pub(crate) fn place_in(widths: &[u64], point: &[u64]) -> usize
    requires lengths { length widths.now ≡ length point.now }
    requires some { 0 < product widths.now }
    requires fits { product widths.now < 2 ^ 63 }
    ensures value { result ≡ place widths.now point.now }
    ensures within { result < product widths.now }
{
    let mut at = 0usize;
    let mut stride = 1usize;
    let mut i = widths.len();
    while i > 0 {
        i -= 1;
        let width = widths[i] as usize;
        at += point[i] as usize % width * stride;
        stride *= width;
    }
    at
}

/// The place among the cells of these widths of the point at a place among others.
pub(crate) fn moved(widths: &[u64], from: &[u64], k: usize) -> usize
    requires lengths { length widths.now ≡ length from.now }
    requires some { 0 < product widths.now }
    requires fits { product widths.now < 2 ^ 63 }
    requires some_from { 0 < product from.now }
    requires fits_from { product from.now < 2 ^ 63 }
    ensures value { result ≡ place widths.now (point_at from.now k) }
    ensures within { result < product widths.now }
{
    let mut at = 0usize;
    let mut stride = 1usize;
    let mut rest = k;
    let mut i = widths.len();
    while i > 0 {
        i -= 1;
        let width = widths[i] as usize;
        let other = from[i] as usize;
        at += rest % other % width * stride;
        rest /= other;
        stride *= width;
    }
    at
}

/// The same, with another value in one slot.
pub(crate) fn moved_with(widths: &[u64], from: &[u64], k: usize, slot: usize, value: usize) -> usize
    requires lengths { length widths.now ≡ length from.now }
    requires some { 0 < product widths.now }
    requires fits { product widths.now < 2 ^ 63 }
    requires some_from { 0 < product from.now }
    requires fits_from { product from.now < 2 ^ 63 }
    ensures value { result ≡ place widths.now (slice_set (point_at from.now k) slot value) }
    ensures within { result < product widths.now }
{
    let mut at = 0usize;
    let mut stride = 1usize;
    let mut rest = k;
    let mut i = widths.len();
    while i > 0 {
        i -= 1;
        let width = widths[i] as usize;
        let other = from[i] as usize;
        let digit = digit_at(i, slot, value, rest, other);
        at += digit % width * stride;
        rest /= other;
        stride *= width;
    }
    at
}

/// The digit of a slot in the point at a place.
pub(crate) fn digit_of(widths: &[u64], k: usize, slot: usize) -> usize
    requires slot { slot < length widths.now }
    requires some { 0 < product widths.now }
    ensures value { result ≡ slice_index (point_at widths.now k) slot }
    ensures within { result < slice_index widths.now slot }
{
    let mut rest = k;
    let mut i = widths.len();
    while i > slot + 1 {
        i -= 1;
        rest /= widths[i] as usize;
    }
    rest % widths[slot] as usize
}

/// The digit of a slot, or the value where it is that slot.
fn digit_at(i: usize, slot: usize, value: usize, rest: usize, width: usize) -> usize
    requires { 0 < width }
    ensures same { i ≡ slot → result ≡ value }
    ensures other { i ≢ slot → result ≡ rest % width }
{
    if i == slot { value } else { rest % width }
}

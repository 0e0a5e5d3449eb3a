//! Lists that are cut into parts, as many lists are laid into one. Where a part ends takes 32 bits.
ghost use Rattle.std.specs.Prelude.{◌≡◌, ◌<◌, ◌≤◌, Some, length, slice_get};
ghost use Rattle.std.specs.List.{slice_range};
ghost use Rattle.hz_lists.specs.Parts.{parts_from, part_start, EndsAt};

/// The part with a number of a list that is cut at these ends. Parts are numbered from 0, and the first begins at 0.
pub fn part_at<'a, T>(list: &'a [T], ends: &[u32], number: usize) -> &'a [T]
    requires ends { EndsAt 0 ends.now (length list.now) }
    requires number { number < length ends.now }
    ensures { slice_get (parts_from 0 ends.now list.now) number ≡ Some result.now }
{
    let start = start_at(ends, number);
    let end = ends[number] as usize;
    part(list, start, end)
}

// Where a part begins: where the one before it ends.
fn start_at(ends: &[u32], number: usize) -> usize
    requires { number < length ends.now }
    ensures { result ≡ part_start 0 ends.now number }
{
    if number == 0 {
        0
    } else {
        ends[number - 1] as usize
    }
}

/// The part of a list from a start up to an end.
pub fn part<T>(list: &[T], start: usize, end: usize) -> &[T]
    requires ordered { start ≤ end }
    requires inside { end ≤ length list.now }
    ensures { result.now ≡ slice_range list.now start end }
{
    &list[start..end]
}

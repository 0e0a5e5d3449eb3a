//! Numbers and marks that are read and set without a fault: what is not there is 0 or unmarked, and stays away.
ghost use Rattle.std.specs.Prelude.{◌≡◌, false, slice_index_or};
ghost use Rattle.hz_net.specs.Network.{bit_at};

/// A number of a list, or 0.
pub(crate) fn number_at(list: &[u32], at: u32) -> u32
    ensures { result ≡ slice_index_or list.now at 0 }
{
    match list.get(at as usize) {
        Some(number) => *number,
        None => 0,
    }
}

/// Sets a number of a list, if it is there.
pub(crate) fn set_number(list: &mut [u32], at: u32, number: u32) {
    let place = at as usize;
    if place < list.len() {
        list[place] = number;
    }
}

/// A mark of a list, or none.
pub(crate) fn is_marked(list: &[bool], at: u32) -> bool
    ensures { result ≡ bit_at list.now at }
{
    match list.get(at as usize) {
        Some(mark) => *mark,
        None => false,
    }
}

/// Sets or takes away a mark, if it is there.
pub(crate) fn set_mark(list: &mut [bool], at: u32, mark: bool) {
    let place = at as usize;
    if place < list.len() {
        list[place] = mark;
    }
}

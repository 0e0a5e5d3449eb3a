//! Numbers that are read and set without a fault: what is not there is 0, and stays away.

/// A number of a list, or 0.
pub(crate) fn number_at(list: &[u32], at: u32) -> u32 {
    match list.get(at as usize) {
        Some(number) => *number,
        None => 0,
    }
}

/// Sets a number of a list, if it is there.
pub(crate) fn set_number(list: &mut [u32], at: u32, number: u32) {
    let place = at as usize;
    if place < list.len() {
        list[place] = number;
    }
}

/// A mark of a list, or none.
pub(crate) fn is_marked(list: &[bool], at: u32) -> bool {
    match list.get(at as usize) {
        Some(mark) => *mark,
        None => false,
    }
}

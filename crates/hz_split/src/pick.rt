//! Which of the unstable variables flips in a turn.

/// Which of the unstable variables flips in a turn.
#[derive(Clone, Copy, Debug)]
pub(crate) enum Pick {
    Least,
    Greatest,
}

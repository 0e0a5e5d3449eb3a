// The keywords of scripts with assumptions of time.

/// What a statement begins with.
#[derive(Clone, Copy, Debug)]
pub(crate) enum TimedKeyword {
    Order,
    Ideal,
    Start,
    Change,
}

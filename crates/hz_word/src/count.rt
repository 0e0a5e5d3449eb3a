ghost use Rattle.std.specs.Prelude.{◌≡◌, ◌≤◌};
ghost use Rattle.hz_word.specs.Capped.{capped_count, IsWithinCap};
ghost use Rattle.hz_word.specs.Pairs.{sum_count};
ghost use Rattle.hz_word.specs.Capped.{greatest_cap};

/// How often a word changes: an exact number, or more often than the cap allows to count.
#[derive(Clone, Copy, Debug, PartialEq, Eq)]
pub enum Count {
    Exact(u64),
    Many,
}

impl Count {
    // A number under a cap.
    pub(crate) fn capped(changes: u64, cap: u64) -> Count
        ensures value { result ≡ capped_count cap changes }
        ensures counted { IsWithinCap cap result }
    {
        if changes <= cap {
            Count::Exact(changes)
        } else {
            Count::Many
        }
    }

    // The sum under a cap.
    pub(crate) fn plus(self, other: Count, cap: u64) -> Count
        requires counted { IsWithinCap cap self }
        requires counted_other { IsWithinCap cap other }
        requires cap_high { cap ≤ greatest_cap }
        ensures value { result ≡ sum_count cap self other }
        ensures counted { IsWithinCap cap result }
    {
        match (self, other) {
            (Count::Exact(changes), Count::Exact(more)) => Count::capped(changes + more, cap),
            (Count::Exact(_), Count::Many) => Count::Many,
            (Count::Many, Count::Exact(_)) => Count::Many,
            (Count::Many, Count::Many) => Count::Many,
        }
    }
}

//! The lesser of two numbers that may be there.
ghost use Rattle.std.specs.Prelude.{◌≡◌};
ghost use Rattle.hz_lists.specs.Least.{option_min};

/// The lesser of two numbers, or the one that is there.
pub fn lesser(one: Option<u32>, other: Option<u32>) -> Option<u32>
    ensures { result ≡ option_min one other }
{
    match (one, other) {
        (Some(one), Some(other)) => Some(one.min(other)),
        (Some(one), None) => Some(one),
        (None, other) => other,
    }
}

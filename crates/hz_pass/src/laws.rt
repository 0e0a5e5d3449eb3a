//! What holds of the starts of all circuits.
ghost use Rattle.hz_pass.specs.Decided.{StartsAreDecided};

/// Every listing that lists each input that is no cut is open, unstable or accepted, and exactly one of these. So what a
/// listing comes to is known to be there before it is completed.
pub fn starts_are_decided()
    ensures { StartsAreDecided }
{}

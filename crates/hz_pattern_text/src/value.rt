//! Patterns as a value.

ghost use Rattle.std.specs.Prelude.{◌≡◌, ◌+◌, ◌*◌, ◌<◌, ◌≤◌, length, slice_get, take, drop, Some};
ghost use Rattle.std.specs.Option.{option_map};
ghost use Rattle.std.specs.List.{flat_map};
ghost use Rattle.hz_pattern_text.specs.PatternInside.{patterns_in};
ghost use Rattle.hz_pattern_text.specs.PatternValue.{bits_of_pattern};

use std::marker::Model;

/// The most patterns of a text.
pub const MAX_PATTERNS: usize = 65_536;

/// Patterns of a circuit. Each is the bits of all inputs, cuts included, before a change and after it. They share what is
/// held: some gates, each with its bit at the start of each pattern.
///
/// The bits of all patterns lie in one vector, a byte each.
#[derive(Debug, Drop)]
pub struct Patterns {
    held: Vec<Option<bool>>,
    inputs: usize,
    count: usize,
    bits: Vec<bool>,
}

impl Model for Patterns {
    ghost use Rattle.hz_pattern_text.specs.PatternValue.{PatternsOf};

    ghost Value = { PatternsOf };

    ghost use Rattle.hz_pattern_text.specs.PatternInside.{patterns_of, HoldsPatterns};

    ghost view = { patterns_of };

    ghost invariant = { HoldsPatterns };
}

impl Patterns {
    // So many patterns of a circuit with so many inputs: what is held, and for each pattern the bits before its change and
    // then those after it.
    pub(crate) fn of(
        held: Vec<Option<bool>>,
        inputs: usize,
        count: usize,
        bits: Vec<bool>,
    ) -> Patterns
        requires { length bits.items ≡ count * (2 * inputs) }
        ensures { result
            ≡ record { held = held.items; patterns = patterns_in count inputs bits.items } }
    {
        Patterns {
            held,
            inputs,
            count,
            bits,
        }
    }

    /// For each node, in order, its bit, if it is held.
    pub fn held(&self) -> &[Option<bool>]
        ensures { result.now ≡ self.now.held }
    {
        self.held.as_slice()
    }

    /// The number of patterns.
    pub fn count(&self) -> usize
        ensures { result ≡ length self.now.patterns }
    {
        self.count
    }

    /// The bits of the inputs before the change of a pattern. Patterns are numbered from 0.
    pub fn from(&self, number: usize) -> &[bool]
        requires { number < length self.now.patterns }
        ensures { option_map (λ pattern. pattern.from) (slice_get self.now.patterns number)
            ≡ Some result.now }
    {
        let (from, _) = pattern_at(self.bits.as_slice(), self.inputs, self.count, number);
        from
    }

    /// The bits of the inputs after the change of a pattern. Patterns are numbered from 0.
    pub fn to(&self, number: usize) -> &[bool]
        requires { number < length self.now.patterns }
        ensures { option_map (λ pattern. pattern.to) (slice_get self.now.patterns number)
            ≡ Some result.now }
    {
        let (_, to) = pattern_at(self.bits.as_slice(), self.inputs, self.count, number);
        to
    }

    /// The bits of so many patterns, of each those before its change and then those after it. Patterns are numbered from 0.
    pub fn bits(&self, first: usize, count: usize) -> &[bool]
        requires { first + count ≤ length self.now.patterns }
        ensures { result.now
            ≡ flat_map bits_of_pattern (take count (drop first self.now.patterns)) }
    {
        bits_between(self.bits.as_slice(), self.inputs, self.count, first, count)
    }
}

// The bits of some of so many patterns of so many inputs, from one on.
fn bits_between(bits: &[bool], inputs: usize, all: usize, first: usize, count: usize) -> &[bool]
    requires whole { length bits.now ≡ all * (2 * inputs) }
    requires count { first + count ≤ all }
    ensures { result.now
        ≡ flat_map bits_of_pattern (take count (drop first (patterns_in all inputs bits.now))) }
{
    if count == 0 {
        return &[];
    }
    let start = first * (2 * inputs);
    &bits[start..start + count * (2 * inputs)]
}

// The bits before the change of a pattern and those after it, of so many patterns of so many inputs.
fn pattern_at<'a>(
    bits: &'a [bool],
    inputs: usize,
    count: usize,
    number: usize,
) -> (&'a [bool], &'a [bool])
    requires whole { length bits.now ≡ count * (2 * inputs) }
    requires number { number < count }
    ensures { slice_get (patterns_in count inputs bits.now) number
        ≡ Some (record { from = result.0.now; to = result.1.now }) }
{
    let start = number * (2 * inputs);
    let middle = start + inputs;
    (&bits[start..middle], &bits[middle..middle + inputs])
}

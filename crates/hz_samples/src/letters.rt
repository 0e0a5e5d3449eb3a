//! Values as letters, 0, 1 and X, and lists of numbers.

use hz_core::Tri;
use std::test::Fail;

/// The letter of a value.
pub fn letter_of(value: Tri) -> char {
    match value {
        Tri::Zero => '0',
        Tri::One => '1',
        Tri::Unknown => 'X',
    }
}

/// The value of a letter.
pub fn value_of(letter: char) -> Tri {
    match letter {
        '0' => Tri::Zero,
        '1' => Tri::One,
        _ => Tri::Unknown,
    }
}

/// Adds a letter for each value.
pub fn push_values(text: &mut String, values: &[Tri]) -> Result<(), Fail> {
    for value in values {
        text.push(letter_of(*value))?;
    }
    Ok(())
}

/// Adds each number and a space.
pub fn push_numbers(text: &mut String, numbers: &[u32]) -> Result<(), Fail> {
    let alloc = *text.allocator();
    for number in numbers {
        text.push_str(format!(in alloc; "{number} ")?.as_str())?;
    }
    Ok(())
}

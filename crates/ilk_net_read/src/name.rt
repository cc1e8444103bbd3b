ghost use Rattle.std.specs.Prelude.{◌≡◌};
ghost use Rattle.std.specs.List.{list_all};
ghost use Rattle.ilk_plant.specs.Name as name;

use ilk_plant::{MAX_NAME, Text};

/// Returns whether `number` is from `low` to `high`, both included.
pub fn is_between(low: usize, high: usize, number: usize) -> bool
    ensures { result ≡ name.is_between low high number }
{
    low <= number && number <= high
}

fn is_name_character(byte: u8) -> bool
    ensures { result ≡ name.is_name_character byte }
{
    matches!(byte, b'0'..=b'9' | b'a'..=b'z' | b'A'..=b'Z') || byte == b'_' || byte == b'-'
}

/// Returns whether a text is a name: 1 to `MAX_NAME` of the characters `A-Z a-z 0-9 _ -`.
pub fn is_name(text: &Text) -> bool
    ensures { result ≡ name.is_name text.now }
{
    let bytes = text.as_str().as_bytes();
    is_between(1, MAX_NAME as usize, bytes.len()) && has_name_characters(bytes)
}

fn has_name_characters(bytes: &[u8]) -> bool
    ensures { result ≡ list_all name.is_name_character bytes.now }
{
    bytes.iter().all(|byte| is_name_character(*byte))
}

/// Returns whether an optional text is missing, or is a name by `is_name`.
pub fn is_name_if_given(text: &Option<Text>) -> bool
    ensures { result ≡ name.is_name_if_given text.now }
{
    match text {
        Some(text) => is_name(text),
        None => true,
    }
}

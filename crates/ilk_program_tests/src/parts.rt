ghost use Rattle.std.specs.Prelude.{◌≡◌, IfOk};

use ilk_plant::Text;
use std::alloc::{AllocError, Global};

/// Creates a text with the characters of `name`.
pub(crate) fn text(alloc: Global, name: &str) -> Result<Text, AllocError>
    ensures { IfOk result (λ text. text ≡ name.now) }
{
    Ok(Text::of(String::from_str(alloc, name)?))
}

/// Splits a command line into its arguments.
pub(crate) fn words(alloc: Global, line: &str) -> Result<Vec<String>, AllocError> {
    let mut words = Vec::new(alloc);
    for word in line.split(' ') {
        words.push(String::from_str(alloc, word)?)?;
    }
    Ok(words)
}

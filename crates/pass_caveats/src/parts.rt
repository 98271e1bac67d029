//! Splits a text at its commas.

ghost use Rattle.std.specs.{Option.option_copied, Prelude.{◌≡◌, ◌↔◌, ◌∷◌, IsTrue, All, Contains}};
ghost use Rattle.std.specs.Prelude.{length};
ghost use Rattle.club_values.specs.Name.{IsName};
ghost use Rattle.pass_caveats.specs.Choices.{comma_parts, parts_left, Skips};

use club_values::Name;

/// Returns the number of parts between the commas of a text.
pub(crate) fn count_of_parts(text: &[u8]) -> usize
    ensures { result ≡ length (comma_parts text.now) }
{
    text.split(|byte| *byte == b',').count()
}

/// Returns whether each part between the commas of a text is a name.
pub(crate) fn are_all_names(text: &[u8]) -> bool
    ensures { IsTrue result ↔ All IsName (comma_parts text.now) }
{
    text.split(|byte| *byte == b',').all(Name::is_name)
}

/// Returns whether one of the parts between the commas of a text equals the name.
pub(crate) fn has_part(text: &[u8], name: &[u8]) -> bool
    ensures { IsTrue result ↔ Contains (comma_parts text.now) name.now }
{
    text.split(|byte| *byte == b',').any(|part| part == name)
}

/// Returns the part before the first comma and the text after this comma. A text without a comma is
/// a single part.
fn first_part(text: &[u8]) -> (&[u8], Option<&[u8]>)
    ensures { comma_parts text.now ≡ result.0.now ∷ parts_left (option_copied result.1) }
{
    match text.iter().position(|byte| *byte == b',') {
        Some(comma) => (&text[..comma], Some(&text[comma + 1..])),
        None => (text, None),
    }
}

/// Compares the next part of a comma-separated list with a word. If the part equals the word,
/// returns true and the text after the part. Otherwise returns false and the unchanged text.
pub(crate) fn skip<'a>(rest: Option<&'a [u8]>, word: &[u8]) -> (bool, Option<&'a [u8]>)
    ensures { Skips word.now (parts_left (option_copied rest.entry)) result.0
        (parts_left (option_copied result.1)) }
{
    let Some(text) = rest else {
        return (false, None);
    };
    let (part, after) = first_part(text);
    if part == word {
        (true, after)
    } else {
        (false, rest)
    }
}

//! Finds the fields of a head by their names.

ghost use Rattle.std.specs.Prelude.{◌≡◌, ◌∷◌, [], length, All, MatchOption};
ghost use Rattle.httparse.specs.Spans.{IsHeaderWithin, header_bytes};
ghost use Rattle.http_request.specs.Fields.{same_word, values_in_head, ClassifiesValues};

use httparse::spans::HeaderSpan;

/// The values of the fields with a certain name.
#[derive(Clone, Copy)]
pub(crate) enum Values<'a> {
    None,
    One(&'a [u8]),
    More,
}

fn is_named(head: &[u8], field: &HeaderSpan, name: &[u8]) -> bool
    requires { IsHeaderWithin (length head.now) field.now }
    ensures { result ≡ same_word (header_bytes head.now field.now).0 name.now }
{
    field.name.of(head).eq_ignore_ascii_case(name)
}

/// Returns the value of the first field with the given name, and the fields after that field.
fn next_value<'a, 'b>(
    head: &'a [u8],
    fields: &'b [HeaderSpan],
    name: &[u8],
) -> Option<(&'a [u8], &'b [HeaderSpan])>
    requires { All (IsHeaderWithin (length head.now)) fields.now }
    ensures { MatchOption result
        (values_in_head head.now name.now fields.now ≡ [])
        (λ found. (values_in_head head.now name.now fields.now
        ≡ found.0.now ∷ values_in_head head.now name.now found.1.now)
        × All (IsHeaderWithin (length head.now)) found.1.now) }
{
    for (i, field) in fields.iter().enumerate() {
        if is_named(head, field, name) {
            return Some((field.value.of(head), &fields[i + 1..]));
        }
    }
    None
}

/// Returns the values of the fields with the given name. Upper and lower case don't matter in
/// names.
pub(crate) fn values_of<'a>(head: &'a [u8], fields: &[HeaderSpan], name: &[u8]) -> Values<'a>
    requires { All (IsHeaderWithin (length head.now)) fields.now }
    ensures { ClassifiesValues (values_in_head head.now name.now fields.now) result }
{
    let Some((value, others)) = next_value(head, fields, name) else {
        return Values::None;
    };
    if next_value(head, others, name).is_some() {
        return Values::More;
    }
    Values::One(value)
}

//! Laws about the definitions in `specs/`. Each law is the contract of a function. The body of the
//! function only calls the laws that its proof needs.

ghost use Rattle.pass_json.specs.{Json.SpellsJson, Laws.{AnyFormReadsBack, OneReadingEachText}};
ghost use Rattle.pass_json.specs.Laws.{OneTextEachForm, OneWritingEachForm, ReadsAnyFormExactly};
ghost use Rattle.pass_json.specs.Laws.{ReadsWhatIsWrapped, RefusesWhatWrapsNothing};
ghost use Rattle.pass_json.specs.Laws.{WritesAnyFormExactly, JsonReadsBack, WritesJsonExactly};
ghost use Rattle.pass_json.specs.computed.JsonReading.{reading_json, wide_json};
ghost use Rattle.pass_forms.specs.Laws.{ComputesSpelled, OnePassEach, ReadsExactly};

use pass_forms::laws::{
    answers_exactly, computes_v1, computes_v2, from_base64_is_base64, reads_texts_exactly,
    texts_read_back, wraps_one, writes_exactly,
};

/// In JSON, a list of bytes encodes at most one `WidePass`.
pub fn one_pass_for_each_json()
    ensures { OnePassEach SpellsJson }
{
    from_base64_is_base64();
}

/// `wide_json` returns a `WidePass` if and only if the bytes encode this `WidePass` in JSON.
pub fn computes_json()
    ensures { ComputesSpelled SpellsJson wide_json }
{
    from_base64_is_base64();
}

/// For each list of bytes, `reading_json` returns the only result that `IsReadAs` allows for JSON.
#[tactic(auto, using(crate::proofs::ExactLemmas::reading_json_exact))]
pub fn reads_json_exactly()
    ensures { ReadsExactly SpellsJson reading_json }
{
    from_base64_is_base64();
    answers_exactly();
}

/// If each element of a text is a byte, `reading` returns the only result that `IsAnyReading`
/// allows.
#[tactic(auto, using(crate::proofs::ExactLemmas::reading_exact))]
pub fn reads_any_form_exactly()
    ensures { ReadsAnyFormExactly }
{
    computes_v1();
    computes_v2();
    computes_json();
    reads_texts_exactly();
}

/// Suppose that unwrapping a text gives a form and bytes, and the number of bytes is within the
/// limit. Then reading the text gives the same result as reading the bytes in this form.
#[tactic(auto, using(crate::proofs::ExactLemmas::reads_wrapped))]
pub fn reads_what_is_wrapped()
    ensures { ReadsWhatIsWrapped }
{
    wraps_one();
}

/// If unwrapping a text fails, reading the text fails with the same fault.
#[tactic(auto, using(crate::proofs::ExactLemmas::refused_wrapping))]
pub fn refuses_what_wraps_nothing()
    ensures { RefusesWhatWrapsNothing }
{}

/// Reading a text that `write_json` wrote gives the same pass again.
pub fn json_reads_back()
    ensures { JsonReadsBack }
{}

/// Suppose that each part of a pass is a list of bytes, and the signature has 32 bytes. Then
/// `writing_json` returns the only result that `IsWriting` allows for the pass.
#[tactic(auto, using(crate::proofs::WrittenLemmas::exact_json))]
pub fn writes_json_exactly()
    ensures { WritesJsonExactly }
{
    from_base64_is_base64();
}

/// A pass has at most one text in each form.
#[tactic(auto, using(crate::proofs::ExactLemmas::one_text))]
pub fn one_text_for_each_form()
    ensures { OneTextEachForm }
{}

/// Reading a written text gives the same form and the same pass again.
#[tactic(auto, using(crate::proofs::ExactLemmas::in_any_form))]
pub fn any_form_reads_back()
    ensures { AnyFormReadsBack }
{
    texts_read_back();
    json_reads_back();
}

/// Suppose that each part of a pass is a list of bytes, and the signature has 32 bytes. Then
/// `writing` returns the only result that `IsWriting` allows for the pass.
#[tactic(auto, using(crate::proofs::ExactLemmas::exact_in_any_form))]
pub fn writes_any_form_exactly()
    ensures { WritesAnyFormExactly }
{
    writes_exactly();
    writes_json_exactly();
}

/// Reading a text has at most one result. The result is the form and the pass, or a fault.
#[tactic(auto, using(crate::proofs::ExactLemmas::one_reading))]
pub fn one_reading_for_each_text()
    ensures { OneReadingEachText }
{
    computes_v1();
    computes_v2();
    computes_json();
    reads_texts_exactly();
}

/// Writing a pass in a form has at most one result. The result is the text or a fault.
pub fn one_writing_for_each_form()
    ensures { OneWritingEachForm }
{
    one_text_for_each_form();
}

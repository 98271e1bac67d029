//! Laws about the definitions in `specs/`. Each law is the contract of a function with an empty
//! body.

ghost use Rattle.pass_forms.specs.Laws.{FromBase64IsBase64, UnwrappedIsTheAnswer, WrapsBytes};
ghost use Rattle.pass_forms.specs.Laws.{WrapsOne, DecidesSigned, AnswersExactly, ComputesSpelled};
ghost use Rattle.pass_forms.specs.Laws.{OnePassEach, ReadsExactly, ReadsTextsExactly};
ghost use Rattle.pass_forms.specs.Laws.{NarrowedStaysSigned, TextsReadBack, WritesExactly};
ghost use Rattle.pass_forms.specs.{V1.SpellsV1, V2.SpellsV2};
ghost use Rattle.pass_forms.specs.computed.V1Reading as v1;
ghost use Rattle.pass_forms.specs.computed.V2Reading as v2;

/// A pass text has at most one form, and wraps at most one list of bytes.
pub fn wraps_one()
    ensures { WrapsOne }
{}

/// If each element of a pass text is a byte, each element of the list that the text wraps is also a
/// byte.
pub fn wraps_bytes()
    ensures { WrapsBytes }
{}

/// `from_base64` returns a list of bytes if and only if the text is a base64 encoding of these
/// bytes.
pub fn from_base64_is_base64()
    ensures { FromBase64IsBase64 }
{}

/// For each text, `unwrapping` returns the only result that `IsUnwrapped` allows.
#[tactic(auto, using(crate::proofs::Base64Lemmas::unwrapped_is))]
pub fn unwrapped_is_the_answer()
    ensures { UnwrappedIsTheAnswer }
{}

/// In V1, a list of bytes encodes at most one `WidePass`.
pub fn one_pass_for_each_v1()
    ensures { OnePassEach SpellsV1 }
{}

/// In V1, `wide_at` returns a `WidePass` if and only if the bytes encode this `WidePass`.
pub fn computes_v1()
    ensures { ComputesSpelled SpellsV1 v1.wide_at }
{}

/// For each list of bytes, `reading_v1` returns the only result that `IsReadAs` allows for V1.
#[tactic(auto, using(crate::proofs::WholeV1::reads_v1))]
pub fn reads_v1_exactly()
    ensures { ReadsExactly SpellsV1 v1.reading_v1 }
{}

/// In V2, a list of bytes encodes at most one `WidePass`.
pub fn one_pass_for_each_v2()
    ensures { OnePassEach SpellsV2 }
{}

/// In V2, `wide_at` returns a `WidePass` if and only if the bytes encode this `WidePass`.
pub fn computes_v2()
    ensures { ComputesSpelled SpellsV2 v2.wide_at }
{}

/// For each list of bytes, `reading_v2` returns the only result that `IsReadAs` allows for V2.
#[tactic(auto, using(crate::proofs::WholeV2::reads_v2))]
pub fn reads_v2_exactly()
    ensures { ReadsExactly SpellsV2 v2.reading_v2 }
{}

/// `reading_of` returns the only result that `IsReadAs` allows. `reading_of` takes the length of a
/// text, and either the `WidePass` that the text encodes or `None`.
#[tactic(auto, using(crate::proofs::ReadingLemmas::exactly))]
pub fn answers_exactly()
    ensures { AnswersExactly }
{}

/// For each text, `text_reading` returns the only result that `IsTextReading` allows. The parameter
/// `wide_at` of the law decodes the bytes of each form.
#[tactic(auto, using(crate::proofs::ReadingLemmas::text_reading_exact))]
pub fn reads_texts_exactly()
    ensures { ReadsTextsExactly }
{}

/// For a pass with a signature of 32 bytes, `writing_v1` and `writing_v2` return the only results
/// that `IsWriting` allows.
#[tactic(auto, using(crate::proofs::WrittenLemmas::exact_v1, crate::proofs::WrittenLemmas::exact_v2))]
pub fn writes_exactly()
    ensures { WritesExactly }
{}

/// Reading a text that `write_v1` or `write_v2` wrote gives the same form and the same pass.
#[tactic(auto, using(crate::proofs::WrittenLemmas::law_v1, crate::proofs::WrittenLemmas::law_v2))]
pub fn texts_read_back()
    ensures { TextsReadBack }
{}

/// A pass that is signed under a root stays signed under this root when a caveat is added.
pub fn narrowed_stays_signed()
    ensures { NarrowedStaysSigned }
{}

/// `is_signed` returns true if and only if the pass is signed under the root.
#[tactic(auto, unfolding(crate::specs::computed::Reading::is_signed))]
pub fn decides_signed()
    ensures { DecidesSigned }
{}

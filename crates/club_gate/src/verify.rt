//! The verifier: computes the verdict on a request. The verifier has four steps:
//!
//! 1. Read only the row of the key that the pass names.
//! 2. Check the signature. Read the key's older root if the pass isn't signed under the current
//!   root.
//! 3. Read the rows that the caveats depend on, and check the caveats.
//! 4. Read the rows that the decision depends on.

ghost use Rattle.std.specs.Prelude.{◌≡◌, ◌≢◌, ◌≤◌, ℕ, List, length, IfOk, IsSomeAnd, None, Some};
ghost use Rattle.std.specs.Prelude.{Ok, Err, drop, option_map};
ghost use Rattle.club_core.specs.{Answer.{form_refusal, verdict_in}, Store.{KeepsClub, ReadsStore}};
ghost use Rattle.club_core.specs.{Store.Returns, Verdict.refusal_verdict};
ghost use Rattle.club_gate.specs.{DecodedPass.{fault_of, key_in}, Served.IsJson, Verify.OfItsPass};
ghost use Rattle.club_gate.specs.Verify.{ReadsOrLacksMemory, RefusesText, signer_of};
ghost use Rattle.club_gate.specs.computed.DecodedPass.{machine_pass, decoded_words, words_in_form};
ghost use Rattle.club_laws.specs.SingleRequest.{words_with};
ghost use Rattle.club_rows.specs.Rows.{row_of_key};
ghost use Rattle.pass_forms.specs.{Envelope.IsUnwrapped, FieldSource.pass_fields, Pass.Plain};
ghost use Rattle.pass_forms.specs.{Reading.max_text_len, computed.Reading.in_form};
ghost use Rattle.pass_forms.specs.declared.fault.FormFault.{FormFault as FaultOfForm};
ghost use Rattle.pass_forms.specs.declared.fault.FormFault.TheVariants.{Memory};
ghost use Rattle.pass_forms.specs.declared.form.Form.{Form as FormOfBytes, TheVariants.Json};
ghost use Rattle.pass_json.specs.computed.AnyForm.{reading, reading_in_form};
ghost use Rattle.club_core.specs.declared.store.StoreFault.TheVariants as store;

use crate::desk::{Desk, are_bytes};
use crate::identifier::key_name_in;
use club_core::laws::own_bookings_suffice;
use club_core::{ClubStore, PassFault, Refusal, Request, SentWords, StoreFault, Verdict, answer};
use club_rows::KeyRow;
use club_values::Moment;
use pass_forms::laws::{reads_v1_exactly, reads_v2_exactly};
use pass_forms::{Field, FieldSource, Form, FormFault, MAX_BYTES, V1Fields, V2Fields, unwrap_text};
use pass_json::laws::{
    reads_any_form_exactly, reads_json_exactly, reads_what_is_wrapped, refuses_what_wraps_nothing,
};
use pass_json::{JsonFields, read_json};

// If `unwrap_text` finds the bytes of a pass in a text, reading the text gives the result of
// reading these bytes. If `unwrap_text` fails, reading the text gives the same fault.
fn reads_by_bytes(text: &[u8])
    ensures wrapped { (form : FormOfBytes) (bytes : List ℕ)
        → IsUnwrapped text.now (Ok (form, bytes)) → length bytes ≤ max_text_len
        → reading text.now ≡ in_form form (reading_in_form form bytes) }
    ensures refused { (fault : FaultOfForm) → IsUnwrapped text.now (Err fault)
        → reading text.now ≡ Err fault }
{
    are_bytes(text);
    reads_v1_exactly();
    reads_v2_exactly();
    reads_json_exactly();
    reads_any_form_exactly();
    reads_what_is_wrapped();
    refuses_what_wraps_nothing();
}

/// Takes the first two fields of a pass from the source: the location and the identifier. Returns
/// the identifier.
fn identifier_from<'a, F: FieldSource<'a>>(source: &mut F) -> Option<&'a [u8]>
    ensures { (pass : Plain) → F.left source.old ≡ pass_fields pass
        → IsSomeAnd result (λ identifier. identifier.now ≡ pass.identifier)
        × (F.left source.new ≡ drop 2 (pass_fields pass)) }
{
    let Some(Field::Location(_)) = source.next() else {
        return None;
    };
    match source.next() {
        Some(Field::Identifier(identifier)) => Some(identifier),
        _ => None,
    }
}

/// Returns the verdict on a text that isn't a pass. Fails if parsing the text ran out of memory.
fn verdict_of_fault(fault: FormFault) -> Result<Verdict, StoreFault>
    ensures memory { fault ≡ Memory → result ≡ Err store.Memory }
    ensures refused { fault ≢ Memory
        → result ≡ Ok (refusal_verdict (form_refusal (fault_of fault))) }
    ensures unchanged { IfOk result (λ verdict. verdict.change ≡ None) }
{
    let fault = match fault {
        FormFault::TooLong => PassFault::TooLong,
        FormFault::Malformed => PassFault::Malformed,
        FormFault::ThirdParty => PassFault::ThirdParty,
        FormFault::TooMany => PassFault::TooMany,
        FormFault::Memory => return Err(StoreFault::Memory),
    };
    Ok(Verdict::refuse(fault.refusal()))
}

impl<S: ClubStore> Desk<S> {
    /// Returns the row of the key that an identifier names, or `None` if the club has no such key.
    fn key_row(&mut self, identifier: &[u8]) -> Result<Option<KeyRow>, StoreFault>
        ensures { ReadsStore S.ghosts self.old self.new result
            (λ club row. row ≡ option_map row_of_key (key_in club identifier.now)) }
    {
        match key_name_in(identifier) {
            Some(name) => self.store.key_row(&name),
            None => Ok(None),
        }
    }

    /// Returns the row of the key that a pass names. Returns a refusal if the club has no such key,
    /// the pass isn't signed under this key, or the key is revoked. Reads no other row of the club,
    /// except the older root if the pass isn't signed under the current root. An unknown key and a
    /// wrong signature get the same refusal.
    fn signer<'a, F: FieldSource<'a> + Drop>(
        &mut self,
        source: &F,
        moment: Moment,
    ) -> Result<Result<KeyRow, Refusal>, StoreFault>
        ensures { ReadsStore S.ghosts self.old self.new result
            (λ club signer. (pass : Plain) → F.left source.now ≡ pass_fields pass
            → signer ≡ signer_of pass moment (key_in club pass.identifier)) }
    {
        let mut fields = source.again();
        let Some(identifier) = identifier_from(&mut fields) else {
            return Ok(Err(Refusal::NotVerified));
        };
        let Some(row) = self.key_row(identifier)? else {
            return Ok(Err(Refusal::NotVerified));
        };
        if !self.is_signed(&fields, identifier, &row, moment)? {
            return Ok(Err(Refusal::NotVerified));
        }
        if row.revoked {
            return Ok(Err(Refusal::KeyRevoked));
        }
        Ok(Ok(row))
    }

    /// Returns the verdict on a request with a pass that is signed under this key. If a caveat
    /// refuses the request, the call reads at most two sums: the points that the member has used,
    /// and the points that the key has spent. The call reads these sums only if a caveat depends on
    /// the points that the key has spent.
    fn verdict_under<'a, F: FieldSource<'a> + Drop>(
        &mut self,
        key: &KeyRow,
        source: &F,
        request: &Request,
        moment: Moment,
    ) -> Result<Verdict, StoreFault>
        ensures { ReadsStore S.ghosts self.old self.new result
            (λ club verdict. OfItsPass (F.left source.now) (λ pass.
            signer_of pass moment (key_in club pass.identifier) ≡ Ok key.now
            → verdict ≡ verdict_in club (words_with (machine_pass pass) request.now) moment)) }
    {
        own_bookings_suffice();
        let view = self.first_view(source, key, request)?;
        let fault = self.caveat_fault(source, key, &view.ask(request, moment))?;
        if fault.is_some() {
            return Ok(answer(Some(&view), true, fault, request, moment));
        }
        let view = self.last_view(view, request, moment)?;
        Ok(answer(view.as_ref(), true, None, request, moment))
    }

    /// Returns the verdict on a request with a pass. The source yields the fields of the pass.
    /// First scans the fields to check the signature. Scans the fields again to check the caveats
    /// only if the pass is signed.
    fn verdict_of<'a, F: FieldSource<'a> + Drop>(
        &mut self,
        source: &F,
        request: &Request,
        moment: Moment,
    ) -> Result<Verdict, StoreFault>
        ensures { ReadsStore S.ghosts self.old self.new result
            (λ club verdict. OfItsPass (F.left source.now) (λ pass.
            verdict ≡ verdict_in club (words_with (machine_pass pass) request.now) moment)) }
    {
        match self.signer(source, moment)? {
            Ok(key) => self.verdict_under(&key, source, request, moment),
            Err(refusal) => Ok(Verdict::refuse(refusal)),
        }
    }

    /// Returns the verdict on a request. `bytes` contains the pass in the form `form`. A pass in
    /// JSON is parsed first, which needs memory. In the other forms, the fields of the pass are
    /// slices of the bytes.
    fn verdict_on(
        &mut self,
        form: Form,
        bytes: &[u8],
        request: &Request,
        moment: Moment,
    ) -> Result<Verdict, StoreFault>
        ensures was_clean { S.ghosts.is_clean self.new → S.ghosts.is_clean self.old }
        ensures kept { S.ghosts.is_clean self.new →
            KeepsClub S.ghosts.represents self.old self.new }
        ensures returned { S.ghosts.is_clean self.new → Returns S.ghosts.represents self.old result
            (λ club verdict.
            verdict ≡ verdict_in club (words_in_form form bytes.now request.now) moment) }
        ensures refused { (fault : FaultOfForm) → reading_in_form form bytes.now ≡ Err fault
            → RefusesText self.old self.new (form ≢ Json) fault result }
        ensures failed { S.ghosts.is_clean self.new
            → ReadsOrLacksMemory S.ghosts (form ≡ Json) self.old self.new result }
    {
        reads_v1_exactly();
        reads_v2_exactly();
        match form {
            Form::V1 => match V1Fields::open(bytes) {
                Ok(fields) => self.verdict_of(&fields, request, moment),
                Err(fault) => verdict_of_fault(fault),
            },
            Form::V2 => match V2Fields::open(bytes) {
                Ok(fields) => self.verdict_of(&fields, request, moment),
                Err(fault) => verdict_of_fault(fault),
            },
            Form::Json => match read_json(self.alloc, bytes) {
                Ok(pass) => self.verdict_of(&JsonFields::over(&pass), request, moment),
                Err(fault) => verdict_of_fault(fault),
            },
        }
    }

    /// Returns the verdict on a request at a moment. A verdict is a reply and an optional change of
    /// the club. The function doesn't call the store if the text isn't a pass.
    pub(crate) fn verdict(
        &mut self,
        words: &SentWords,
        moment: Moment,
    ) -> Result<Verdict, StoreFault>
        ensures was_clean { S.ghosts.is_clean self.new → S.ghosts.is_clean self.old }
        ensures kept { S.ghosts.is_clean self.new →
            KeepsClub S.ghosts.represents self.old self.new }
        ensures returned { S.ghosts.is_clean self.new → Returns S.ghosts.represents self.old result
            (λ club verdict. verdict
            ≡ verdict_in club (decoded_words words.now.pass.now words.now.request) moment) }
        ensures refused { (fault : FaultOfForm) → reading words.now.pass.now ≡ Err fault
            → RefusesText self.old self.new (¬ IsJson words.now.pass.now) fault result }
        ensures failed { S.ghosts.is_clean self.new
            → ReadsOrLacksMemory S.ghosts (IsJson words.now.pass.now) self.old self.new result }
    {
        reads_by_bytes(words.pass);
        let mut room = [0; MAX_BYTES];
        match unwrap_text(words.pass, &mut room) {
            Ok(unwrapped) => {
                let bytes = unwrapped.bytes(words.pass, &room);
                self.verdict_on(unwrapped.form, bytes, &words.request, moment)
            }
            Err(fault) => verdict_of_fault(fault),
        }
    }
}

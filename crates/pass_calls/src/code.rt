//! The numbers of forms and faults in C.

ghost use Rattle.std.specs.Prelude.{◌≡◌};
ghost use Rattle.club_values.specs.Number.{Reads};
ghost use Rattle.pass_calls.specs.Ask.{verdict_code, verdict_number};
ghost use Rattle.pass_calls.specs.Code as spec;

use pass_caveats::CaveatFault;
use pass_forms::{Form, FormFault};

/// The call succeeded.
pub const OK: u32 = 0;

/// The text has, or would have, more than 8,192 bytes.
pub const TOO_LONG: u32 = 1;

/// The text isn't a pass.
pub const MALFORMED: u32 = 2;

/// The pass has a third-party caveat.
pub const THIRD_PARTY: u32 = 3;

/// The pass has, or would have, more than 64 caveats.
pub const TOO_MANY: u32 = 4;

/// Memory ran out, or the object has no room for the pass.
pub const MEMORY: u32 = 5;

/// The caller's buffer is too short for the output.
pub const SHORT_BUFFER: u32 = 6;

/// The pass has no caveat with this index.
pub const NO_CAVEAT: u32 = 7;

/// No form has this number.
pub const NO_FORM: u32 = 8;

/// A value of an ask is outside its range.
pub const BAD_ASK: u32 = 9;

/// A caveat isn't understood.
pub const NOT_UNDERSTOOD: u32 = 10;

/// A caveat denies the ask.
pub const DENIED: u32 = 11;

/// The value of the field `form` in an empty object.
pub const NO_TEXT: u32 = 0;

const V1: u32 = 1;

const V2: u32 = 2;

const JSON: u32 = 3;

/// Returns the number of a form.
pub fn form_number(form: Form) -> u32
    ensures { result ≡ spec.number_of_form form }
{
    match form {
        Form::V1 => V1,
        Form::V2 => V2,
        Form::Json => JSON,
    }
}

/// Returns the form with this number.
pub fn form_of(number: u32) -> Option<Form>
    ensures { Reads (λ form. number ≡ spec.number_of_form form) result }
{
    match number {
        V1 => Some(Form::V1),
        V2 => Some(Form::V2),
        JSON => Some(Form::Json),
        _ => None,
    }
}

/// Returns the code of a fault, from 1 to 5.
pub fn fault_code(fault: FormFault) -> u32
    ensures { result ≡ spec.fault_code fault }
{
    match fault {
        FormFault::TooLong => TOO_LONG,
        FormFault::Malformed => MALFORMED,
        FormFault::ThirdParty => THIRD_PARTY,
        FormFault::TooMany => TOO_MANY,
        FormFault::Memory => MEMORY,
    }
}

/// Returns the code for the result of a call: 0 for success, or the code of the fault.
pub fn code_of(ended: Result<(), FormFault>) -> u32
    ensures code { result ≡ spec.code_of ended }
    ensures back { spec.result_of result ≡ ended }
{
    match ended {
        Ok(()) => OK,
        Err(fault) => fault_code(fault),
    }
}

/// Returns the code of a fault, and the position of the faulty caveat, counted from 1. If there is
/// no fault, both numbers are 0.
pub fn verdict_of(fault: Option<CaveatFault>) -> (u32, usize)
    ensures code { result.0 ≡ verdict_code fault }
    ensures number { result.1 ≡ verdict_number fault }
{
    match fault {
        None => (OK, 0),
        Some(CaveatFault::NotUnderstood(number)) => (NOT_UNDERSTOOD, number),
        Some(CaveatFault::Denied(number)) => (DENIED, number),
    }
}

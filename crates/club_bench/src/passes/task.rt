//! The measured tasks. Each task works on one pass.

use pass_forms::{
    Field, FieldSource, Form, FormFault, MAX_BYTES, V1Fields, V2Fields, read_v1, read_v2,
    unwrap_text,
};
use pass_json::read_any;
use pass_mac::{Chain, same};
use std::alloc::Global;

pub(crate) const ROOT: &[u8] = b"this is our super secret key; only we should know it";

pub(crate) static CAVEATS: [&[u8]; 3] = [
    b"kind = court",
    b"until < 2026-05-01T18:00",
    b"spend <= 600",
];

/// A task that works on a pass in V1 or V2.
#[derive(Clone, Copy)]
pub(crate) enum Task {
    /// Computes the signature of the pass.
    Sign,
    /// Parses the bytes into a `Pass`.
    ReadWhole,
    /// Parses the bytes field by field.
    ReadFields,
    /// Parses the text into a `Pass`, and checks the signature of the pass.
    VerifyWhole,
    /// Checks the signature while parsing the fields of the text.
    VerifyFields,
}

/// The text of a pass in V1 or V2, and the bytes that the text encodes.
#[derive(Clone, Copy)]
pub(crate) struct Written<'a> {
    pub(crate) form: Form,
    pub(crate) text: &'a [u8],
    pub(crate) bytes: &'a [u8],
}

impl Task {
    /// Runs the task once. Returns a byte that depends on the result, so that the compiler can't
    /// remove the work.
    pub(crate) fn once(self, alloc: Global, written: &Written<'_>) -> Result<u8, FormFault> {
        match self {
            Task::Sign => Ok(sign()),
            Task::ReadWhole => read_whole(alloc, written.form, written.bytes),
            Task::ReadFields => with_fields(written.form, written.bytes, Step::Read),
            Task::VerifyWhole => verify_whole(alloc, written.text),
            Task::VerifyFields => verify_fields(written.text),
        }
    }
}

fn sign() -> u8 {
    let mut chain = Chain::start(ROOT, b"key:amy-1");
    for caveat in &CAVEATS {
        chain.add(caveat);
    }
    chain.signature()[0]
}

fn read_whole(alloc: Global, form: Form, bytes: &[u8]) -> Result<u8, FormFault> {
    let pass = match form {
        Form::V1 => read_v1(alloc, bytes)?,
        _ => read_v2(alloc, bytes)?,
    };
    Ok(pass.signature()[0])
}

fn verify_whole(alloc: Global, text: &[u8]) -> Result<u8, FormFault> {
    let (_, pass) = read_any(alloc, text)?;
    Ok(u8::from(pass.is_signed(ROOT)))
}

fn verify_fields(text: &[u8]) -> Result<u8, FormFault> {
    let mut buffer = [0; MAX_BYTES];
    let unwrapped = unwrap_text(text, &mut buffer)?;
    with_fields(unwrapped.form, unwrapped.bytes(text, &buffer), Step::Verify)
}

// The work on each field.
#[derive(Clone, Copy)]
enum Step {
    Read,
    Verify,
}

fn with_fields(form: Form, bytes: &[u8], step: Step) -> Result<u8, FormFault> {
    Ok(match form {
        Form::V1 => walk(&mut V1Fields::open(bytes)?, step),
        _ => walk(&mut V2Fields::open(bytes)?, step),
    })
}

fn walk<'a, S: FieldSource<'a>>(fields: &mut S, step: Step) -> u8 {
    match step {
        Step::Read => fold(fields),
        Step::Verify => u8::from(is_signed(fields)),
    }
}

// Combines the first bytes of all fields by exclusive or.
fn fold<'a, S: FieldSource<'a>>(fields: &mut S) -> u8 {
    let mut folded = 0;
    while let Some(field) = fields.next() {
        folded ^= match field {
            Field::Location(bytes) | Field::Identifier(bytes) | Field::Caveat(bytes) => {
                bytes.first().copied().unwrap_or(0)
            }
            Field::Signature(bytes) => bytes[0],
        };
    }
    folded
}

// Returns true if the signature is correct for the identifier and the caveats.
fn is_signed<'a, S: FieldSource<'a>>(fields: &mut S) -> bool {
    let mut chain: Option<Chain> = None;
    while let Some(field) = fields.next() {
        match field {
            Field::Location(_) => {}
            Field::Identifier(identifier) => chain = Some(Chain::start(ROOT, identifier)),
            Field::Caveat(caveat) => {
                if let Some(begun) = &mut chain {
                    begun.add(caveat);
                }
            }
            Field::Signature(signature) => {
                return chain.is_some_and(|signed| same(&signed.signature(), &signature));
            }
        }
    }
    false
}

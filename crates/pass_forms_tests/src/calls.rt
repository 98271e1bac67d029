//! Wrappers of the tested functions. A wrapper has no contract, so the proof of a test that calls a
//! wrapper takes much less time.

use pass_forms::{Form, FormFault, MAX_BYTES, Pass, Unwrapped, V1Fields, V2Fields};
use std::alloc::Global;

pub(crate) fn hmac(key: &[u8], text: &[u8]) -> [u8; 32] {
    pass_mac::hmac(key, text)
}

pub(crate) fn unwrap_text(text: &[u8], room: &mut [u8; MAX_BYTES]) -> Result<Unwrapped, FormFault> {
    pass_forms::unwrap_text(text, room)
}

pub(crate) fn read(alloc: Global, form: Form, bytes: &[u8]) -> Result<Pass, FormFault> {
    match form {
        Form::V1 => pass_forms::read_v1(alloc, bytes),
        Form::V2 => pass_forms::read_v2(alloc, bytes),
        Form::Json => pass_json::read_json(alloc, bytes),
    }
}

pub(crate) fn read_any(alloc: Global, text: &[u8]) -> Result<(Form, Pass), FormFault> {
    pass_json::read_any(alloc, text)
}

pub(crate) fn open_v1(bytes: &[u8]) -> Result<V1Fields<'_>, FormFault> {
    V1Fields::open(bytes)
}

pub(crate) fn open_v2(bytes: &[u8]) -> Result<V2Fields<'_>, FormFault> {
    V2Fields::open(bytes)
}

pub(crate) fn write(alloc: Global, form: Form, pass: &Pass) -> Result<String, FormFault> {
    match form {
        Form::V1 => pass_forms::write_v1(alloc, pass),
        Form::V2 => pass_forms::write_v2(alloc, pass),
        Form::Json => pass_json::write_json(alloc, pass),
    }
}

pub(crate) fn write_any(alloc: Global, form: Form, pass: &Pass) -> Result<String, FormFault> {
    pass_json::write_any(alloc, form, pass)
}

pub(crate) fn narrow(alloc: Global, pass: &mut Pass, caveat: &[u8]) -> Result<(), FormFault> {
    pass_forms::narrow(alloc, pass, caveat)
}

//! `tests/desk/refused_memory_tests.py` refuses one allocation per run, so a second call succeeds.

use crate::calls::{read_any, write_any};
use crate::rows::{Host, expect_eq};
use crate::texts::{BARE, EXAMPLE, FORMS, KNOWN};
use pass_forms::{Form, FormFault, Pass};

pub(crate) fn read_in(rt: &impl Host, form: Form, text: &str) -> Pass {
    let found = match read_any(rt.alloc(), text.as_bytes()) {
        Err(FormFault::Memory) => read_any(rt.alloc(), text.as_bytes()),
        found => found,
    };
    let (detected, pass) = found.expect(rt, "a pass");
    expect_eq(rt, detected, form, &text);
    pass
}

fn written_text(rt: &impl Host, form: Form, pass: &Pass) -> String {
    let text = match write_any(rt.alloc(), form, pass) {
        Err(FormFault::Memory) => write_any(rt.alloc(), form, pass),
        text => text,
    };
    text.expect(rt, "a text")
}

pub(crate) fn is_written(rt: &impl Host, pass: &Pass, texts: &[&str; 3]) {
    for (place, form) in FORMS.iter().enumerate() {
        let text = written_text(rt, *form, pass);
        expect_eq(rt, text.as_str(), texts[place], form);
    }
}

pub(crate) fn convert(rt: &impl Host, texts: &[&str; 3]) {
    for (place, form) in FORMS.iter().enumerate() {
        is_written(rt, &read_in(rt, *form, texts[place]), texts);
    }
}

#[test]
fn known_passes(rt: HostRuntime) {
    for texts in [&KNOWN, &BARE, &EXAMPLE] {
        convert(&rt, texts);
    }
}

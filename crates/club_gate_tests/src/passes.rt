//! Passes, as plain values.

use crate::prelude::*;
use club_gate::{LOCATION, key_signature, minted};
use pass_forms::{Form, Pass, narrow};
use pass_json::write_any;
use test_kit::drawn::Asking;

pub(crate) static FORMS: [Form; 3] = [Form::V1, Form::V2, Form::Json];

#[derive(Clone, Copy)]
pub(crate) enum PresentedPass {
    /// The pass that the office makes for this key under this root, narrowed by these caveats.
    Of(&'static str, &'static [u8], &'static [&'static str]),
    /// Amy's pass with a wrong signature.
    Changed,
    /// A pass whose identifier is `amy-1` without the prefix `key:`.
    Unnamed,
}

fn narrowed_pass(rt: &impl Host, key: &str, root_bytes: &[u8], caveats: &[&str]) -> Pass {
    let name = name(rt, key);
    let signature = key_signature(&name, &root(rt, root_bytes));
    let mut pass = minted(rt.alloc(), &name, signature).expect(rt, "memory");
    for caveat in caveats {
        narrow(rt.alloc(), &mut pass, caveat.as_bytes()).expect(rt, "a narrower pass");
    }
    pass
}

fn changed_pass(rt: &impl Host) -> Pass {
    let name = name(rt, "amy-1");
    let mut signature = key_signature(&name, &root(rt, ROOT));
    signature[31] ^= 1;
    minted(rt.alloc(), &name, signature).expect(rt, "memory")
}

fn unnamed_pass(rt: &impl Host) -> Pass {
    let root = root(rt, ROOT);
    Pass::mint(rt.alloc(), root.as_bytes(), LOCATION, b"amy-1").expect(rt, "memory")
}

impl PresentedPass {
    fn pass(&self, rt: &impl Host) -> Pass {
        match *self {
            PresentedPass::Of(key, root, caveats) => narrowed_pass(rt, key, root, caveats),
            PresentedPass::Changed => changed_pass(rt),
            PresentedPass::Unnamed => unnamed_pass(rt),
        }
    }

    pub fn text(&self, rt: &impl Host, form: Form) -> String {
        write_any(rt.alloc(), form, &self.pass(rt)).expect(rt, "the text of a pass")
    }
}

pub(crate) fn text_of_asking(rt: &impl Host, asking: &Asking) -> String {
    PresentedPass::Of(asking.key, asking.root, asking.caveats).text(rt, asking.form)
}

pub(crate) const AMY: PresentedPass = PresentedPass::Of("amy-1", ROOT, &[]);

pub(crate) const BOB: PresentedPass = PresentedPass::Of("bob-1", ROOT, &[]);

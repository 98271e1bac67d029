//! Defines a parsed pass, and a request with a parsed pass.

ghost use Rattle.std.specs.{Option.option_copied, Prelude.◌≡◌};
ghost use Rattle.club_core.specs.Request as rules;

use crate::laws::models_words;
use club_core::{KeyView, PassFault, Request, Verdict, answer};
use club_rows::{Key, Root};
use club_values::{Moment, Name};
use pass_caveats::{Ask, CaveatFault, first_fault};

/// The parts of a parsed pass that the club's rules read.
#[derive(Drop)]
pub struct Pass {
    /// The name of the key in the identifier, or `None` if the identifier names no key.
    pub key: Option<Name>,
    /// The texts of the caveats, in the pass's order.
    pub caveats: Vec<Vec<u8>>,
    /// The roots that sign the pass.
    pub roots: Vec<Root>,
}

/// A request with its parsed pass. If the pass's text has a fault, `pass` contains the fault. The
/// value doesn't record in which form (V1, V2 or JSON) the pass was written.
#[derive(Drop)]
pub struct Words {
    pub pass: Result<Pass, PassFault>,
    pub request: Request,
}

impl Pass {
    ghost use Rattle.club_core.specs.Request.{is_signed_under};
    ghost use Rattle.club_reference.specs.computed.Words.{pass_model};
    ghost use Rattle.pass_caveats.specs.Fault.{first_fault_of};

    /// Returns true if this root signs the pass.
    fn is_signed(&self, root: &Root) -> bool
        ensures { result ≡ (pass_model self.now).is_signed root.now }
    {
        self.roots.iter().any(|signing| *signing == *root)
    }

    /// Returns true if a root of the key signs the pass and is valid at the moment.
    pub fn is_signed_under(&self, key: &Key, moment: Moment) -> bool
        ensures { result ≡ is_signed_under (pass_model self.now) key.now moment }
    {
        if self.is_signed(&key.root) {
            return true;
        }
        match key.older_root_at(moment) {
            Some(older) => self.is_signed(older),
            None => false,
        }
    }

    /// Returns the fault of the first caveat that isn't understood or that denies the request.
    /// Returns `None` if every caveat allows the request.
    pub fn first_fault(&self, ask: &Ask) -> Option<CaveatFault>
        ensures { result ≡ first_fault_of (pass_model self.now).caveats ask.now }
    {
        first_fault(&self.caveats, ask)
    }
}

impl Words {
    ghost use Rattle.club_core.specs.Basis.{key_of};
    ghost use Rattle.club_reference.specs.Words.{IsModelOf, answer_seen};
    ghost use Rattle.club_reference.specs.computed.Words.{words_model};

    /// Returns the name of the key in the pass. Returns `None` if the pass's text has a fault, or
    /// if the pass's identifier names no key.
    pub fn key(&self) -> Option<Name>
        ensures { result ≡ key_of (words_model self.now).pass }
    {
        match &self.pass {
            Ok(pass) => pass.key,
            Err(_) => None,
        }
    }

    /// Returns the reply to the request, and the change that the request makes. `seen` contains the
    /// key that the pass names and the view of the request, or is `None` if the club doesn't have
    /// this key.
    pub fn answer(&self, seen: Option<&KeyView>, moment: Moment) -> Verdict
        ensures { (model : rules.Words) × IsModelOf self.now model
            × (result ≡ answer_seen model.pass model.request moment (option_copied seen.entry)) }
    {
        models_words();
        self.verdict(seen, moment)
    }

    /// Returns the same verdict as `answer`. The contract of this function uses the model that
    /// `words_model` computes.
    pub(crate) fn verdict(&self, seen: Option<&KeyView>, moment: Moment) -> Verdict
        ensures { result
            ≡ answer_seen (words_model self.now).pass self.now.request moment
            (option_copied seen.entry) }
    {
        match &self.pass {
            Err(fault) => Verdict::refuse(fault.refusal()),
            Ok(pass) => match seen {
                None => answer(None, false, None, &self.request, moment),
                Some(KeyView { key, view }) => {
                    let is_signed = pass.is_signed_under(key, moment);
                    let fault = pass.first_fault(&view.ask(&self.request, moment));
                    answer(Some(view), is_signed, fault, &self.request, moment)
                }
            },
        }
    }
}

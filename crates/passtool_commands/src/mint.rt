//! The command `mint`, which makes a new pass.

ghost use Rattle.std.specs.Prelude.{◌≡◌, IfOk};
ghost use Rattle.pass_forms.specs.Reading.{UnlessMemory};
ghost use Rattle.passtool_commands.specs.Answer as spec;

use crate::answer::Answer;
use crate::caveats::Caveats;
use crate::narrow::narrowed_pass;
use crate::output::written;
use command_line::Root;
use pass_forms::{Form, FormFault, Pass};
use std::alloc::{AllocError, Global};
use std::marker::Model;

/// The values from which `mint` makes a pass.
#[derive(Drop)]
pub struct Mint<'a> {
    root: Root,
    identifier: &'a str,
    location: &'a str,
    form: Form,
    caveats: Caveats<'a>,
}

impl<'a> Model for Mint<'a> {
    ghost use Rattle.passtool_commands.specs.Minting.{Minting};

    ghost Value = { Minting };

    ghost view = { λ mint. record {
      root = mint.root;
      identifier = mint.identifier.now;
      location = mint.location.now;
      form = mint.form;
      caveats = mint.caveats;
    } };
}

impl<'a> Mint<'a> {
    /// Collects the values for a new pass.
    pub fn new(
        root: Root,
        identifier: &'a str,
        location: &'a str,
        form: Form,
        caveats: Caveats<'a>,
    ) -> Mint<'a>
        ensures { result ≡ record {
          root = root;
          identifier = identifier.entry.now;
          location = location.entry.now;
          form = form;
          caveats = caveats.entry;
        } }
    {
        Mint {
            root,
            identifier,
            location,
            form,
            caveats,
        }
    }

    /// Makes the new pass with its caveats. Returns an answer with the text of the pass in the form
    /// `form`.
    pub fn answer(&self, alloc: Global) -> Result<Answer, FormFault>
        ensures { UnlessMemory (spec.MintsPass self.now) result }
    {
        let pass = self.new_pass(alloc)?;
        let pass = narrowed_pass(alloc, pass, self.caveats.as_slice())?;
        written(alloc, self.form, &pass)
    }

    // Makes the new pass without its caveats.
    fn new_pass(&self, alloc: Global) -> Result<Pass, AllocError>
        ensures { IfOk result (λ pass. pass ≡ spec.new_pass self.now) }
    {
        let (location, identifier) = (self.location.as_bytes(), self.identifier.as_bytes());
        Pass::mint(alloc, self.root.as_slice(), location, identifier)
    }
}

//! Values that are parsed from the texts of arguments.

ghost use Rattle.std.specs.Prelude.{◌≡◌, ℕ, List, Option};
ghost use Rattle.clap.specs.Words.{found_of, rows_of};
ghost use Rattle.command_line.specs.Arguments.{value_in, form_named as form_of, root_of};

use crate::form_names::form_named;
use crate::options::value_of;
use crate::root::Root;
use clap::ArgMatches;
use pass_forms::Form;

/// A value that can be parsed from a text.
pub trait Value {
    ghost spelled: { List ℕ → Option Self };

    /// Returns the value that the text represents. Returns `None` if the text represents no value.
    fn read(text: &str) -> Option<Self>
        ensures { result ≡ spelled text.now };
}

impl Value for Root {
    ghost spelled = { root_of };

    fn read(text: &str) -> Option<Root> {
        Root::from_hex(text)
    }
}

impl Value for Form {
    ghost spelled = { form_of };

    fn read(text: &str) -> Option<Form> {
        form_named(text)
    }
}

/// Returns the value of an option. Returns `None` if the option is missing, or if its text isn't a
/// valid value.
pub fn read_value<V: Value>(options: &ArgMatches<'_>, id: &str) -> Option<V>
    ensures { result ≡ V.spelled (value_in id.now (rows_of (found_of options.now))) }
{
    V::read(value_of(options, id))
}

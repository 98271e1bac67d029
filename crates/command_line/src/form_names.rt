//! The names of the forms on the command line.

ghost use Rattle.std.specs.Prelude.{◌≡◌};
ghost use Rattle.command_line.specs.Arguments as spec;

use pass_forms::Form;

/// Returns the name of a form: `v1`, `v2` or `json`.
pub fn form_name(form: Form) -> &'static str
    ensures { result.now ≡ spec.form_name form }
{
    match form {
        Form::V1 => "v1",
        Form::V2 => "v2",
        Form::Json => "json",
    }
}

/// Returns the form with the given name. Returns `None` if no form has the given name.
pub fn form_named(name: &str) -> Option<Form>
    ensures { result ≡ spec.form_named name.now }
{
    match name {
        "v1" => Some(Form::V1),
        "v2" => Some(Form::V2),
        "json" => Some(Form::Json),
        _ => None,
    }
}

//! The actions that a request can ask for, and their texts.

ghost use Rattle.std.specs.Prelude.{◌≡◌, Some};
ghost use Rattle.club_values.specs.{Kind.action_text, Number.Reads, computed.TextOf.action_of_text};

use std::fmt;

/// The action that a request asks for.
#[derive(Clone, Copy, Debug, PartialEq, Eq)]
pub enum Action {
    /// Shows a slot.
    View,
    /// Books a slot.
    Book,
    /// Cancels a booking.
    Cancel,
    /// Shows the member's account.
    Account,
}

fn action_in(text: &[u8]) -> Option<Action>
    ensures { Reads (λ action. text.now ≡ action_text action) result }
{
    match text {
        b"view" => Some(Action::View),
        b"book" => Some(Action::Book),
        b"cancel" => Some(Action::Cancel),
        b"account" => Some(Action::Account),
        _ => None,
    }
}

impl Action {
    /// Returns the action with this text (`view`, `book`, `cancel` or `account`), or `None` for any
    /// other text.
    pub fn read(text: &[u8]) -> Option<Action>
        ensures spelled { Reads (λ action. text.now ≡ action_text action) result }
        ensures function { result ≡ action_of_text text.now }
    {
        action_in(text)
    }

    /// Returns the text of the action.
    pub fn text(self) -> &'static str
        ensures { result.now ≡ action_text self }
    {
        match self {
            Action::View => "view",
            Action::Book => "book",
            Action::Cancel => "cancel",
            Action::Account => "account",
        }
    }
}

impl fmt::Display for Action {
    ghost output = { λ action. Some (action_text action) };

    fn fmt<W: fmt::Write>(&self, f: &mut fmt::Formatter<W>) -> fmt::Result {
        f.write_str(self.text())
    }
}

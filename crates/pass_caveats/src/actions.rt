//! Defines sets of actions in a caveat.

ghost use Rattle.std.specs.Prelude.{◌≡◌};
ghost use Rattle.club_values.specs.Number.{Reads};

use crate::parts::skip;
use club_values::Action;

/// A set of actions.
#[derive(Clone, Copy, Debug, PartialEq, Eq)]
pub struct Actions {
    pub view: bool,
    pub book: bool,
    pub cancel: bool,
    pub account: bool,
}

impl Actions {
    ghost use Rattle.pass_caveats.specs.Choices.{has_action, SpellsActions};

    /// Parses a comma-separated list of one or more of the actions `view`, `book`, `cancel` and
    /// `account`. Each action occurs at most once, and the actions must be in this order. Returns
    /// `None` for any other text.
    pub fn read(text: &[u8]) -> Option<Actions>
        ensures { Reads (SpellsActions text.now) result }
    {
        let (view, rest) = skip(Some(text), b"view");
        let (book, rest) = skip(rest, b"book");
        let (cancel, rest) = skip(rest, b"cancel");
        let (account, rest) = skip(rest, b"account");
        if rest.is_some() {
            return None;
        }
        Some(Actions {
            view,
            book,
            cancel,
            account,
        })
    }

    /// Returns whether an action is in the set.
    pub fn contains(self, action: Action) -> bool
        ensures { result ≡ has_action self action }
    {
        match action {
            Action::View => self.view,
            Action::Book => self.book,
            Action::Cancel => self.cancel,
            Action::Account => self.account,
        }
    }
}

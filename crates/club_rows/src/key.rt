//! Keys, their roots and their columns.

ghost use Rattle.std.specs.{Option.option_copied, Prelude.◌≡◌};
ghost use Rattle.club_values.specs.Number.{Reads};

use crate::columns::truth_of;
use crate::root::Root;
use club_values::{Moment, Name};

/// The root that a key had before its last rotation.
#[derive(Clone, Copy, Debug, PartialEq, Eq)]
pub struct OlderRoot {
    pub root: Root,
    /// The first moment at which the root is no longer valid.
    pub until: Moment,
}

/// A key's row in the table of keys. The row doesn't contain the key's older root.
#[derive(Clone, Copy, Debug, PartialEq, Eq)]
pub struct KeyRow {
    pub name: Name,
    pub member: Name,
    pub root: Root,
    pub revoked: bool,
}

impl KeyRow {
    ghost use Rattle.club_rows.specs.Columns.{IsKeyOf};

    /// Returns the key's row with these column values. Returns `None` if a value is outside its
    /// limits.
    pub fn from_columns(name: &[u8], member: &[u8], root: &[u8], revoked: i64) -> Option<KeyRow>
        ensures { Reads (IsKeyOf name.now member.now root.now revoked) result }
    {
        let name = Name::read(name)?;
        let member = Name::read(member)?;
        let root = Root::new(root)?;
        let revoked = truth_of(revoked)?;
        Some(KeyRow {
            name,
            member,
            root,
            revoked,
        })
    }
}

/// A member's key. The identifier of a pass contains the name of a key, and the key's root signs
/// the pass.
#[derive(Clone, Copy, Debug, PartialEq, Eq)]
pub struct Key {
    pub name: Name,
    pub member: Name,
    pub root: Root,
    /// The key's root before the last rotation, or `None` if the key has never been rotated.
    pub older: Option<OlderRoot>,
    pub revoked: bool,
}

impl Key {
    ghost use Rattle.club_rows.specs.Rows.{key_of_row, older_root_at, row_of_key};

    /// Returns the key with this row and this older root.
    pub fn new(row: KeyRow, older: Option<OlderRoot>) -> Key
        ensures { result ≡ key_of_row row older }
    {
        Key {
            name: row.name,
            member: row.member,
            root: row.root,
            older,
            revoked: row.revoked,
        }
    }

    /// Returns the key's row, without the older root.
    pub fn row(&self) -> KeyRow
        ensures { result ≡ row_of_key self.now }
    {
        KeyRow {
            name: self.name,
            member: self.member,
            root: self.root,
            revoked: self.revoked,
        }
    }

    /// Returns the key's older root, if the older root is still valid at this moment. The current
    /// root of a key doesn't expire.
    pub fn older_root_at(&self, moment: Moment) -> Option<&Root>
        ensures { option_copied result ≡ older_root_at self.now.older moment }
    {
        match &self.older {
            Some(older) if moment.number() < older.until.number() => Some(&older.root),
            _ => None,
        }
    }
}

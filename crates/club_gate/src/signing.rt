//! Tests whether a pass is signed under a good root of its key. A good root is the key's root, or
//! the key's older root before the older root expires.

ghost use Rattle.std.specs.Prelude.{◌≡◌, Some, drop};
ghost use Rattle.club_core.specs.{Club.key_named, Request.is_signed_under, Store.ReadsStore};
ghost use Rattle.club_gate.specs.computed.DecodedPass.{machine_pass};
ghost use Rattle.club_rows.specs.{Rows.row_of_key, declared.key.Key.Key as KeyOfClub};
ghost use Rattle.pass_forms.specs.{FieldSource.pass_fields, Pass.Plain};

use crate::desk::Desk;
use club_core::{ClubStore, StoreFault};
use club_rows::{Key, KeyRow};
use club_values::Moment;
use pass_forms::{FieldSource, is_signed_by};
use pass_mac::Chain;

impl<S: ClubStore> Desk<S> {
    /// Returns whether a pass is signed under a good root of the key in this row. Reads the older
    /// root only if the pass isn't signed under the current root. The caller has already taken the
    /// identifier from the source.
    ///
    /// The desk has a cache of derived keys. If the pass is signed under the current root, the
    /// cache stores the root's derived key. Otherwise, the cache is unchanged. So after a rotation,
    /// the cache can still have the older root's derived key. This derived key is replaced when the
    /// desk checks a pass that is signed under the current root.
    pub(crate) fn is_signed<'a, F: FieldSource<'a> + Drop>(
        &mut self,
        source: &F,
        identifier: &[u8],
        row: &KeyRow,
        moment: Moment,
    ) -> Result<bool, StoreFault>
        ensures { ReadsStore S.ghosts self.old self.new result
            (λ club signed. (pass : Plain) (key : KeyOfClub) → identifier.now ≡ pass.identifier
            → F.left source.now ≡ drop 2 (pass_fields pass)
            → key_named key.name club ≡ Some key → row.now ≡ row_of_key key
            → signed ≡ is_signed_under (machine_pass pass) key moment) }
    {
        let mut fields = source.again();
        let current = self.kept.derived(&row.name, &row.root);
        if is_signed_by(Chain::from_key(current.bytes(), identifier), &mut fields) {
            self.kept.keep(&row.name, current);
            return Ok(true);
        }
        let key = Key::new(*row, self.store.older_root(&row.name)?);
        let Some(root) = key.older_root_at(moment) else {
            return Ok(false);
        };
        let mut once_more = source.again();
        let older = self.kept.derived(&row.name, root);
        Ok(is_signed_by(Chain::from_key(older.bytes(), identifier), &mut once_more))
    }
}

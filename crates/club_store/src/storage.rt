//! The traits of stores over a storage of the SQLite engine.

use crate::store::Store;
use club_core::ClubStore;
use sqlite::Alter;

/// A store whose crash states are an upper bound. A crash state is a club that the store may
/// contain after a crash instead of the current club.
pub trait CrashStates: ClubStore {
    ghost use Rattle.std.specs.Prelude.{List, ◌∷◌};
    ghost use Rattle.club_core.specs.Club.{Club, IsSound};

    // A sound club can be added to the crash states.
    ghost widened: { (store : Self) (club : Club) (others : List Club) (more : Club)
        → IsSound more → Self.ghosts.represents store club others
        → Self.ghosts.represents store club (more ∷ others) };
}

/// A store over a storage of the SQLite engine.
pub trait OverStorage<S: Alter>: ClubStore {
    ghost use Rattle.std.specs.Prelude.{List};
    ghost use Rattle.club_core.specs.Club.{Club};
    ghost use Rattle.club_store.specs.Opening.{leaves_sound_in};
    ghost use Rattle.sqlite.specs.View.{IsClean};

    /// Consumes the store, and returns the storage of the SQLite engine. After a crash, this
    /// storage contains the current club or one of the crash states.
    fn into_storage(self) -> S
        ensures was_clean { IsClean (S.Store.view result) → Self.ghosts.is_clean self }
        ensures left { IsClean (S.Store.view result) → (club : Club) (others : List Club)
            → Self.ghosts.represents self club others
            → leaves_sound_in S.Store result club others };
}

impl<S: Alter> CrashStates for Store<S> {
    ghost use Rattle.club_store.specs.Widened.{sound_widened};

    ghost widened = { λ store club others more sound represents.
        sound_widened _ club others more sound represents };
}

impl<S: Alter + Drop> OverStorage<S> for Store<S> {
    fn into_storage(self) -> S {
        self.into_store()
    }
}

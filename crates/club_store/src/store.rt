//! Opens the database of a club, reads the club's rows, and applies changes.

ghost use Rattle.std.specs.Prelude.{◌≡◌, ℕ, false, List, [], ◌∷◌, All, IsTrue, IfOk, IfErr, IfSome};
ghost use Rattle.std.specs.Prelude.{option_and_then, IsErrAnd, codes};
ghost use Rattle.club_core.specs.Basis.{account_named, key_view_in, slot_use, state_of};
ghost use Rattle.club_core.specs.Club.{Club, empty_club, key_named, member_named, facility_named};
ghost use Rattle.club_core.specs.{Club.booking_under, Request.{request_number, request_slot}};
ghost use Rattle.club_core.specs.{Sheet.AreRowsOf, declared.change.Change.TheVariants.InsertMember};
ghost use Rattle.club_core.specs.declared.change.Change.TheVariants.{AddCredit, InsertFacility};
ghost use Rattle.club_core.specs.declared.change.Change.TheVariants.{InsertKey, MarkRevoked};
ghost use Rattle.club_core.specs.declared.change.Change.TheVariants.{ReplaceRoot, MarkClosed};
ghost use Rattle.club_rows.specs.Rows.{IsMember, IsFacility, IsKey, IsBooking};
ghost use Rattle.club_store.specs.{Failing.HasLimits, Opening.{LeavesOneOf, IsOpenedOn}};
ghost use Rattle.club_store.specs.Opening.{RepresentsOne, FailsFrom, IsHandedBack, IsMemoryFault};
ghost use Rattle.club_store.specs.Opening.{LeavesFrom, OpensFrom, SurvivesOpening};
ghost use Rattle.club_tables.specs.Opening.{AcceptsTables, IsOpeningFault};
ghost use Rattle.club_tables.specs.{ReadsAndChanges.{ReadsClub, ChangesClub}, Tables.Represents};
ghost use Rattle.club_tables.specs.Tables.{IsFound};
ghost use Rattle.sqlite.specs.{Files.file_state, Held.state, State.HasCleanDisk, Steps.over_memory};
ghost use Rattle.sqlite.specs.{Steps.{IsFresh, IsEmpty}, View.IsClean, WalFiles.image_at};

use crate::FailedOpening;
use crate::failed_opening::failed_opening;
use club_core::laws::own_bookings_suffice;
use club_core::{Change, KeyView, MemberAccount, Request, SlotUse, StoreFault, View};
use club_rows::{Booking, BookingNumber, Facility, Key, Member, Root};
use club_tables::{Tables, fault_of};
use club_values::{Day, Moment, Name, Slot};
use sqlite::{Alter, Connection, FileFrom, FileStore, MemStore, Start};
use std::alloc::Global;
use std::marker::Model;
use std::rt::HostRuntime;

/// The tables of a club, and the connection to their database. Between calls, the connection isn't
/// in a transaction. Contracts represent a store by its connection.
#[derive(Drop)]
pub struct Store<S: Alter> {
    pub(crate) tables: Tables<S>,
    alloc: Global,
}

impl<S: Alter> Model for Store<S> {
    ghost use Rattle.sqlite.specs.Held.{Held, held_code};

    ghost Value = { Held S };

    ghost coded = { held_code S.code };

    ghost view = { λ store. store.tables };
}

impl Store<MemStore> {
    /// Returns a store on a new database in memory, with the tables of an empty club.
    pub fn open_in_memory(alloc: Global) -> Result<Store<MemStore>, StoreFault>
        ensures opened { IfOk result (λ store. Represents (state over_memory store) empty_club []) }
        ensures fault { IfErr result IsMemoryFault }
    {
        let connection = match Connection::open_in_memory(alloc) {
            Ok(connection) => connection,
            Err(_) => return Err(StoreFault::Memory),
        };
        match Store::adopt(alloc, connection) {
            Ok(store) => Ok(store),
            Err((fault, _connection)) => Err(fault),
        }
    }
}

impl<Q: Start> Store<FileStore<FileFrom<Q>>> {
    /// Opens the store in the file at `path`. Creates the file if it is missing. In contracts,
    /// `start` represents the contents of the file and its log before the call. On failure, returns
    /// the fault and a `FailedOpening`. The `FailedOpening` has the connection that `adopt`
    /// refused, or the files that the database engine couldn't open. If another program has the
    /// file open, the `FailedOpening` has neither a connection nor files. Fails with `Storage` for
    /// the path `:memory:`, because this path doesn't name a file.
    pub fn open_file(
        rt: &HostRuntime,
        path: &str,
        start: Q,
    ) -> Result<Store<FileStore<FileFrom<Q>>>, (StoreFault, FailedOpening<FileFrom<Q>>)>
        ensures no_file { path.now ≡ codes ":memory:" → IsErrAnd result
            (λ e. e.0 ≡ StoreFault.Storage) }
        ensures opened { IfOk result
            (λ store. HasCleanDisk (file_state store) → OpensFrom (image_at Q.Start) store) }
        ensures refused { IfErr result (λ e. LeavesFrom (image_at Q.Start) e.1) }
        ensures fault { IfErr result (λ e. FailsFrom (image_at Q.Start) e.1 e.0) }
    {
        let connection = match Connection::open_from(rt, path, false, start) {
            Ok(connection) => connection,
            Err((error, left)) => {
                let failed = failed_opening(&error, left);
                return Err((fault_of(error), failed));
            }
        };
        match Store::adopt(rt.alloc(), connection) {
            Ok(store) => Ok(store),
            Err((fault, connection)) => Err((fault, FailedOpening::Connection(connection))),
        }
    }
}

impl<S: Alter + Drop> Store<S> {
    /// Makes a store from a connection to a club's database. Creates the tables of an empty club if
    /// the table `desk`, which contains the version, is missing. Migrates tables of version 1 to
    /// version 2. Adds the index `bookings_by_key` if it is missing.
    ///
    /// # Errors
    ///
    /// Fails with `Storage` if the connection is in a transaction, or if the version is neither 1
    /// nor 2. Also fails if SQLite can't create or change the tables, refuses a statement that
    /// reads a row by its key, or runs out of memory. On failure, returns the fault and the
    /// connection. The database is unchanged. A crash after such a failure may nevertheless leave
    /// the created tables, the migrated tables or the added index.
    pub fn adopt(
        alloc: Global,
        connection: Connection<S>,
    ) -> Result<Store<S>, (StoreFault, Connection<S>)>
        ensures was_clean { IfOk result
            (λ store. HasCleanDisk (state S.Store store)
            → HasCleanDisk (state S.Store connection)) }
        ensures opened { IfOk result
            (λ store. HasCleanDisk (state S.Store store) → (club : Club) (others : _) → IsFound
            (state S.Store connection) club others → Represents (state S.Store store) club others) }
        ensures accepted { IfOk result
            (λ store. HasCleanDisk (state S.Store store) → IsTrue (state S.Store store).is_open →
            AcceptsTables S.Store connection store) }
        ensures busy { IsTrue connection.in_transaction → IsErrAnd result
            (λ e. (e.0 ≡ StoreFault.Storage) × (e.1 ≡ connection)) }
        ensures refused { IfErr result (λ e. IsHandedBack S.Store connection e.1) }
        ensures fault { connection.in_transaction ≡ false → IfErr result
            (λ e. HasCleanDisk (state S.Store e.1) →
            IsOpeningFault S.Store connection e.1 e.0) }
        ensures survives { IfOk result (SurvivesOpening S.Store connection) }
        ensures again { IfOk result (λ store. HasCleanDisk (state S.Store store) →
            (clubs : List Club) → IsOpenedOn (state S.Store connection) clubs → RepresentsOne
            (state S.Store store) clubs) }
        ensures empty { IfOk result (λ store. HasCleanDisk (state S.Store store) → IsEmpty
            (state S.Store connection) → Represents (state S.Store store) empty_club []) }
    {
        if !connection.is_autocommit() {
            return Err((StoreFault::Storage, connection));
        }
        let mut tables = Tables::over(connection);
        match tables.open() {
            Ok(()) => Ok(Store { tables, alloc }),
            Err(fault) => Err((fault, tables.into_connection())),
        }
    }

    /// Consumes the store, and returns the storage of the SQLite engine. After a crash, this
    /// storage contains the current club or another club that a crash may leave. Contracts model a
    /// crash during a call as a disk that fails from some point on.
    pub fn into_store(self) -> S
        ensures was_clean { IsClean (S.Store.view result) → HasCleanDisk (state S.Store self) }
        ensures numbered { IsClean (S.Store.view result) → IsTrue
            (S.Store.view result).is_numbered }
        ensures committed { IsClean (S.Store.view result) → IsTrue (S.Store.view result).is_open →
            IsFresh (S.Store.view result) ×
            ((S.Store.view result).committed ≡ (state S.Store self).committed.trees) }
        ensures left { (club : Club) (others : _) → Represents (state S.Store self) club others →
            LeavesOneOf S.Store result (club ∷ others) }
    {
        self.into_connection().into_store()
    }
}

impl<S: Alter> Store<S> {
    /// Returns the connection, which is unchanged.
    pub fn into_connection(self) -> Connection<S>
        ensures { result ≡ self }
    {
        self.tables.into_connection()
    }

    /// Returns the key with this name, or `None` if no key has this name. Fails with `Storage` if a
    /// value in the row is outside its limits.
    pub fn key(&mut self, name: &Name) -> Result<Option<Key>, StoreFault>
        ensures reads { ReadsClub S.Store self.old self.new result
            (λ club key. key ≡ key_named name.now club) }
        ensures limits { IfOk result (λ key. IfSome key IsKey) }
    {
        let Some(row) = self.tables.key(name)? else {
            return Ok(None);
        };
        let older = self.tables.older_root(name)?;
        Ok(Some(Key::new(row, older)))
    }

    /// Returns the member with this name, or `None` if no member has this name. Fails with
    /// `Storage` if a value in the row is outside its limits.
    pub fn member(&mut self, name: &Name) -> Result<Option<Member>, StoreFault>
        ensures reads { ReadsClub S.Store self.old self.new result
            (λ club member. member ≡ member_named name.now club) }
        ensures limits { IfOk result (λ member. IfSome member IsMember) }
    {
        match self.tables.member(name)? {
            Some(row) => Ok(Some(row.member)),
            None => Ok(None),
        }
    }

    /// Returns the member with this name, and the member's balance in points. Returns `None` if no
    /// member has this name. Fails with `Storage` if a value in the row is outside its limits.
    pub fn account(&mut self, member: &Name) -> Result<Option<MemberAccount>, StoreFault>
        ensures reads { ReadsClub S.Store self.old self.new result
            (λ club account. account ≡ account_named member.now club) }
        ensures limits { IfOk result (λ account. IfSome account (λ it. IsMember it.member)) }
    {
        match self.tables.member(member)? {
            Some(row) => Ok(Some(MemberAccount {
                member: row.member,
                balance: row.member.credited.saturating_sub(row.used),
            })),
            None => Ok(None),
        }
    }

    /// Returns the facility with this name, or `None` if no facility has this name. Fails with
    /// `Storage` if a value in the row is outside its limits.
    pub fn facility(&mut self, name: &Name) -> Result<Option<Facility>, StoreFault>
        ensures reads { ReadsClub S.Store self.old self.new result
            (λ club facility. facility ≡ facility_named name.now club) }
        ensures limits { IfOk result (λ facility. IfSome facility IsFacility) }
    {
        self.tables.facility(name)
    }

    /// Returns the number of persons in a slot, and whether the slot is closed.
    pub fn slot(&mut self, slot: &Slot) -> Result<SlotUse, StoreFault>
        ensures reads { ReadsClub S.Store self.old self.new result
            (λ club found. found ≡ slot_use club slot.now) }
    {
        self.tables.slot(slot)
    }

    /// Returns the uncancelled bookings of a day. The bookings are sorted by facility, hour, key
    /// and number, as in the day sheet.
    pub fn day(&mut self, day: Day) -> Result<Vec<Booking>, StoreFault>
        ensures reads { ReadsClub S.Store self.old self.new result
            (λ club rows. AreRowsOf club day rows.items) }
        ensures within { IfOk result (λ rows. All IsBooking rows.items) }
    {
        self.tables.day(self.alloc, day)
    }

    /// Returns the facility of a request's slot. Returns `None` if the request has no slot or the
    /// club has no such facility.
    fn facility_for(&mut self, request: &Request) -> Result<Option<Facility>, StoreFault>
        ensures reads { ReadsClub S.Store self.old self.new result
            (λ club facility. facility ≡ (state_of club (request_slot request.now)).facility) }
        ensures limits { IfOk result (λ facility. IfSome facility IsFacility) }
    {
        match request.slot() {
            Some(slot) => self.facility(&slot.facility),
            None => Ok(None),
        }
    }

    /// Returns the number of persons in a request's slot, and whether the slot is closed. If the
    /// request has no slot, the number is 0 and `closed` is false.
    fn use_for(&mut self, request: &Request) -> Result<SlotUse, StoreFault>
        ensures reads { ReadsClub S.Store self.old self.new result
            (λ club found. found ≡ (state_of club (request_slot request.now)).held) }
    {
        match request.slot() {
            Some(slot) => self.slot(&slot),
            None => Ok(SlotUse {
                taken: 0,
                closed: false,
            }),
        }
    }

    /// Returns the key's booking with the request's number. Returns `None` if the request has no
    /// number or the key has no such booking.
    fn booking_for(&mut self, key: &Name, request: &Request) -> Result<Option<Booking>, StoreFault>
        ensures reads { ReadsClub S.Store self.old self.new result
            (λ club found. found ≡ option_and_then
            (λ (number : ℕ). booking_under key.now number club.bookings)
            (request_number request.now)) }
        ensures limits { IfOk result (λ found. IfSome found IsBooking) }
    {
        match request.number() {
            Some(number) => self.tables.booking(key, number),
            None => Ok(None),
        }
    }

    /// Returns the key with this name, and the rows and sums that decide a request at this moment.
    /// Returns `None` if no key has this name. Fails with `Storage` if a value in a row is outside
    /// its limits.
    ///
    /// The result contains:
    /// - the key, with its older root
    /// - the points that the key has spent
    /// - the key's booking with the request's number
    /// - the member's row, balance and number of open bookings
    /// - the facility and the number of persons of the request's slot, and whether the slot is
    ///   closed
    pub fn view(
        &mut self,
        key: &Name,
        request: &Request,
        moment: Moment,
    ) -> Result<Option<KeyView>, StoreFault>
        ensures reads { ReadsClub S.Store self.old self.new result
            (λ club seen. seen ≡ key_view_in club key.now request.now moment) }
        ensures limits { IfOk result (λ seen. IfSome seen HasLimits) }
    {
        own_bookings_suffice();
        let Some(key) = self.key(key)? else {
            return Ok(None);
        };
        let Some(account) = self.account(&key.member)? else {
            return Ok(None);
        };
        let spent = self.tables.spent(&key.name)?;
        let open_count = self.tables.open_count(&account.member.name, moment)?;
        let facility = self.facility_for(request)?;
        let SlotUse { taken, closed } = self.use_for(request)?;
        let booking = self.booking_for(&key.name, request)?;
        let view = View {
            key: key.row(),
            spent,
            member: account.member,
            balance: account.balance,
            open_count,
            facility,
            taken: u64::from(taken),
            closed,
            booking,
        };
        Ok(Some(KeyView { key, view }))
    }

    /// Applies a change in one transaction. The change must fit the club: the change's values match
    /// the club's rows, and the changed club is sound. If the change doesn't fit, the call fails
    /// without effect. If the call fails for another reason, the club is unchanged. A crash after
    /// such a failure may nevertheless leave the changed club.
    ///
    /// # Errors
    ///
    /// Fails if the database refuses a statement or the commit. Fails with `Storage` if the change
    /// doesn't fit, unless the call ran out of memory first. A change fits unless a value is
    /// outside its limits, or a statement breaks a constraint of the tables or writes no row.
    pub fn apply(&mut self, change: &Change) -> Result<(), StoreFault>
        ensures makes { ChangesClub S.Store change.now self.old self.new result }
    {
        self.tables.apply(change)
    }

    /// Inserts a member, in one transaction. Fails in the same cases as `apply`.
    pub fn insert_member(&mut self, member: &Member) -> Result<(), StoreFault>
        ensures makes { ChangesClub S.Store (InsertMember member.now) self.old self.new result }
    {
        self.apply(&Change::InsertMember(*member))
    }

    /// Adds points to a member's credit, in one transaction. Fails in the same cases as `apply`.
    pub fn add_credit(&mut self, member: &Name, points: u32) -> Result<(), StoreFault>
        ensures makes { ChangesClub S.Store (AddCredit member.now points) self.old self.new result }
    {
        self.apply(&Change::AddCredit {
            member: *member,
            points,
        })
    }

    /// Inserts a facility, in one transaction. Fails in the same cases as `apply`.
    pub fn insert_facility(&mut self, facility: &Facility) -> Result<(), StoreFault>
        ensures makes { ChangesClub S.Store (InsertFacility facility.now) self.old self.new result }
    {
        self.apply(&Change::InsertFacility(*facility))
    }

    /// Inserts a key, in one transaction. Fails in the same cases as `apply`. Also fails with
    /// `Storage` if the key has an older root.
    pub fn insert_key(&mut self, key: &Key) -> Result<(), StoreFault>
        ensures makes { ChangesClub S.Store (InsertKey key.now) self.old self.new result }
    {
        self.apply(&Change::InsertKey(*key))
    }

    /// Marks a key as revoked, in one transaction. Fails in the same cases as `apply`.
    pub fn revoke_key(&mut self, key: &Name) -> Result<(), StoreFault>
        ensures makes { ChangesClub S.Store (MarkRevoked key.now) self.old self.new result }
    {
        self.apply(&Change::MarkRevoked { key: *key })
    }

    /// Sets a key's root, in one transaction. The previous root becomes the key's older root, and
    /// is valid until the moment `until`. The previous root replaces any older root that the key
    /// already had. Fails in the same cases as `apply`.
    pub fn replace_root(
        &mut self,
        key: &Name,
        former: &Root,
        root: &Root,
        until: Moment,
    ) -> Result<(), StoreFault>
        ensures makes { ChangesClub S.Store
            (ReplaceRoot key.now former.now root.now until) self.old self.new result }
    {
        self.apply(&Change::ReplaceRoot {
            key: *key,
            former: *former,
            root: *root,
            until,
        })
    }

    /// Marks a slot as closed, in one transaction. Fails in the same cases as `apply`.
    pub fn close_slot(&mut self, slot: &Slot) -> Result<(), StoreFault>
        ensures makes { ChangesClub S.Store (MarkClosed slot.now) self.old self.new result }
    {
        self.apply(&Change::MarkClosed(*slot))
    }
}

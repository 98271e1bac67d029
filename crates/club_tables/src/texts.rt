//! The SQL texts that create the tables, and the SQL texts that read and write their rows.

/// Creates the table `desk`. Its only row contains the version of the tables.
pub(crate) const MAKE_DESK: &str = "CREATE TABLE desk (version INTEGER NOT NULL) STRICT";

pub(crate) const MAKE_MEMBERS: &str = "\
    CREATE TABLE members (\
        name TEXT NOT NULL PRIMARY KEY, \
        credited INTEGER NOT NULL CHECK (credited BETWEEN 0 AND 999999999), \
        quota INTEGER NOT NULL CHECK (quota BETWEEN 0 AND 99), \
        used INTEGER NOT NULL CHECK (used BETWEEN 0 AND 999999999)\
    ) STRICT";

pub(crate) const MAKE_FACILITIES: &str = "\
    CREATE TABLE facilities (\
        name TEXT NOT NULL PRIMARY KEY, \
        kind TEXT NOT NULL, \
        places INTEGER NOT NULL CHECK (places BETWEEN 1 AND 50), \
        price INTEGER NOT NULL CHECK (price BETWEEN 0 AND 9999), \
        opens INTEGER NOT NULL CHECK (opens BETWEEN 0 AND 23), \
        shuts INTEGER NOT NULL CHECK (shuts BETWEEN 1 AND 24)\
    ) STRICT";

pub(crate) const MAKE_KEYS: &str = "\
    CREATE TABLE keys (\
        name TEXT NOT NULL PRIMARY KEY, \
        member TEXT NOT NULL REFERENCES members (name), \
        root BLOB NOT NULL, \
        revoked INTEGER NOT NULL CHECK (revoked BETWEEN 0 AND 1)\
    ) STRICT";

pub(crate) const MAKE_SLOTS: &str = "\
    CREATE TABLE slots (\
        facility TEXT NOT NULL REFERENCES facilities (name), \
        day INTEGER NOT NULL CHECK (day BETWEEN 10957 AND 47481), \
        hour INTEGER NOT NULL CHECK (hour BETWEEN 0 AND 23), \
        closed INTEGER NOT NULL CHECK (closed BETWEEN 0 AND 1), \
        taken INTEGER NOT NULL, \
        PRIMARY KEY (facility, day, hour)\
    ) STRICT";

pub(crate) const MAKE_BOOKINGS: &str = "\
    CREATE TABLE bookings (\
        pass_key TEXT NOT NULL REFERENCES keys (name), \
        number INTEGER NOT NULL CHECK (number BETWEEN 1 AND 999999999), \
        facility TEXT NOT NULL REFERENCES facilities (name), \
        day INTEGER NOT NULL CHECK (day BETWEEN 10957 AND 47481), \
        hour INTEGER NOT NULL CHECK (hour BETWEEN 0 AND 23), \
        guests INTEGER NOT NULL CHECK (guests BETWEEN 0 AND 49), \
        charge INTEGER NOT NULL CHECK (charge BETWEEN 0 AND 499950), \
        remains INTEGER NOT NULL CHECK (remains BETWEEN 0 AND 49), \
        cancelled INTEGER NOT NULL CHECK (cancelled BETWEEN 0 AND 1), \
        refund INTEGER NOT NULL CHECK (refund BETWEEN 0 AND 499950), \
        PRIMARY KEY (pass_key, number)\
    ) STRICT";

/// Creates the table of older roots. A key's older root is the root that the key had before its
/// last rotation.
pub(crate) const MAKE_OLD_ROOTS: &str = "\
    CREATE TABLE old_roots (\
        pass_key TEXT NOT NULL PRIMARY KEY REFERENCES keys (name), \
        root BLOB NOT NULL, \
        until INTEGER NOT NULL CHECK (until BETWEEN 15778080 AND 68374079)\
    ) STRICT";

/// Creates an index of keys by member. With this index, SQLite finds a member's keys without a scan
/// of all keys.
pub(crate) const MAKE_KEYS_BY_MEMBER: &str = "CREATE INDEX keys_by_member ON keys (member)";

/// Creates an index of bookings by key. The query for the costs of a key's bookings reads only this
/// index. With this index, the query for open bookings skips cancelled bookings and bookings of
/// earlier days.
pub(crate) const MAKE_BOOKINGS_BY_KEY: &str = "\
    CREATE INDEX bookings_by_key \
    ON bookings (pass_key, cancelled, day, hour, number, charge, refund)";

/// Tests for the index of the bookings. SQLite prepares this text only if the index exists. The
/// text is never run.
pub(crate) const DROP_BOOKINGS_BY_KEY: &str = "DROP INDEX bookings_by_key";

pub(crate) const ADD_VERSION: &str = "INSERT INTO desk (version) VALUES (2)";

/// Sets the version to 2, after the table of older roots was created.
pub(crate) const SET_VERSION: &str = "UPDATE desk SET version = 2";

pub(crate) const VERSION: &str = "SELECT version FROM desk";

pub(crate) const KEY: &str = "SELECT name, member, root, revoked FROM keys WHERE name = ?1";

pub(crate) const OLDER_ROOT: &str = "SELECT root, until FROM old_roots WHERE pass_key = ?1";

pub(crate) const MEMBER: &str = "SELECT name, credited, quota, used FROM members WHERE name = ?1";

pub(crate) const FACILITY: &str = "\
    SELECT name, kind, places, price, opens, shuts \
    FROM facilities \
    WHERE name = ?1";

pub(crate) const SLOT: &str = "\
    SELECT closed, taken \
    FROM slots \
    WHERE facility = ?1 AND day = ?2 AND hour = ?3";

/// Returns the number of persons in each slot of a facility, if the slot has a row.
pub(crate) const TAKEN: &str = "SELECT taken FROM slots WHERE facility = ?1";

pub(crate) const BOOKING: &str = "\
    SELECT pass_key, number, facility, day, hour, guests, charge, remains, cancelled, refund \
    FROM bookings \
    WHERE pass_key = ?1 AND number = ?2";

pub(crate) const ADD_MEMBER: &str = "\
    INSERT INTO members (name, credited, quota, used) \
    VALUES (?1, ?2, ?3, 0)";

/// Adds points to a member's credit, unless the credit would exceed the maximum.
pub(crate) const ADD_CREDIT: &str = "\
    UPDATE members \
    SET credited = credited + ?2 \
    WHERE name = ?1 AND credited + ?2 <= 999999999";

/// Subtracts points from a member's credit, if the member has that many unspent points.
pub(crate) const TAKE_CREDIT: &str = "\
    UPDATE members \
    SET credited = credited - ?2 \
    WHERE name = ?1 AND used + ?2 <= credited";

/// Sets the highest number of open bookings that a member may have.
pub(crate) const SET_QUOTA: &str = "UPDATE members SET quota = ?2 WHERE name = ?1";

/// Charges a member for a booking. The booking must already be inserted, and its persons must
/// already be added to its slot. Updates no row in these cases:
/// - The booking's key doesn't belong to the member.
/// - The member has too few points.
/// - The slot has more persons than the facility has places.
pub(crate) const CHARGE: &str = "\
    UPDATE members \
    SET used = used + ?2 \
    WHERE name = ?1 AND used + ?2 <= credited \
    AND EXISTS (SELECT 1 FROM keys WHERE keys.name = ?3 AND keys.member = ?1) \
    AND EXISTS (SELECT 1 FROM slots JOIN facilities ON facilities.name = ?4 \
    WHERE slots.facility = ?4 AND slots.day = ?5 AND slots.hour = ?6 \
    AND slots.taken <= facilities.places)";

/// Adds a number to the points that a member has spent, if the booking's key belongs to the member.
/// The number is negative for a refund.
pub(crate) const ADD_USED: &str = "\
    UPDATE members \
    SET used = used + ?2 \
    WHERE name = ?1 AND EXISTS (SELECT 1 FROM keys WHERE keys.name = ?3 AND keys.member = ?1)";

pub(crate) const ADD_FACILITY: &str = "\
    INSERT INTO facilities (name, kind, places, price, opens, shuts) \
    VALUES (?1, ?2, ?3, ?4, ?5, ?6)";

/// Sets a facility's places, price and hours. Updates no row if a slot of the facility has more
/// persons than the facility's new number of places.
pub(crate) const SET_NUMBERS: &str = "\
    UPDATE facilities \
    SET places = ?2, price = ?3, opens = ?4, shuts = ?5 \
    WHERE name = ?1 \
    AND NOT EXISTS (SELECT 1 FROM slots WHERE slots.facility = ?1 AND slots.taken > ?2)";

pub(crate) const ADD_KEY: &str = "\
    INSERT INTO keys (name, member, root, revoked) \
    VALUES (?1, ?2, ?3, ?4)";

pub(crate) const REVOKE_KEY: &str = "UPDATE keys SET revoked = 1 WHERE name = ?1";

/// Inserts the older root of a key, or replaces the stored older root.
pub(crate) const PUT_OLDER_ROOT: &str = "\
    INSERT INTO old_roots (pass_key, root, until) \
    VALUES (?1, ?2, ?3) \
    ON CONFLICT (pass_key) \
    DO UPDATE SET root = ?2, until = ?3";

/// Sets a key's root. Updates no row if the last parameter isn't the key's current root.
pub(crate) const SET_ROOT: &str = "UPDATE keys SET root = ?2 WHERE name = ?1 AND root = ?3";

/// Closes a slot. Updates no row if the slot is already closed.
pub(crate) const CLOSE_SLOT: &str = "\
    INSERT INTO slots (facility, day, hour, closed, taken) \
    VALUES (?1, ?2, ?3, 1, 0) \
    ON CONFLICT (facility, day, hour) \
    DO UPDATE SET closed = 1 WHERE closed = 0";

/// Opens a slot, even if it is already open. A foreign key requires that the slot's facility
/// exists.
pub(crate) const OPEN_SLOT: &str = "\
    INSERT INTO slots (facility, day, hour, closed, taken) \
    VALUES (?1, ?2, ?3, 0, 0) \
    ON CONFLICT (facility, day, hour) \
    DO UPDATE SET closed = 0";

/// Adds the last parameter to the number of persons in a slot. The parameter is negative for a
/// cancellation. If the slot has no row, the statement inserts a row for an open slot.
pub(crate) const ADD_TAKEN: &str = "\
    INSERT INTO slots (facility, day, hour, closed, taken) \
    VALUES (?1, ?2, ?3, 0, ?4) \
    ON CONFLICT (facility, day, hour) \
    DO UPDATE SET taken = taken + ?4";

pub(crate) const ADD_BOOKING: &str = "\
    INSERT INTO bookings (pass_key, number, facility, day, hour, guests, charge, remains, \
    cancelled, refund) \
    VALUES (?1, ?2, ?3, ?4, ?5, ?6, ?7, ?8, ?9, ?10)";

/// Marks a booking as cancelled. Updates no row if the stored booking differs from the first ten
/// parameters or is already cancelled.
pub(crate) const CANCEL_BOOKING: &str = "\
    UPDATE bookings \
    SET cancelled = 1, refund = ?11 \
    WHERE pass_key = ?1 AND number = ?2 AND facility = ?3 AND day = ?4 AND hour = ?5 \
    AND guests = ?6 AND charge = ?7 AND remains = ?8 AND cancelled = ?9 AND refund = ?10 \
    AND cancelled = 0";

pub(crate) const COSTS_UNDER_KEY: &str = "SELECT charge, refund FROM bookings WHERE pass_key = ?1";

pub(crate) const DAY: &str = "\
    SELECT pass_key, number, facility, day, hour, guests, charge, remains, cancelled, refund \
    FROM bookings \
    WHERE day = ?1 AND cancelled = 0 \
    ORDER BY facility, hour, pass_key, number";

/// Returns the booking numbers of a member's bookings that are open at a moment. The last parameter
/// is the moment's day, so that SQLite skips bookings of earlier days. At that moment, all slots of
/// earlier days have begun.
pub(crate) const OPEN: &str = "\
    SELECT number \
    FROM keys JOIN bookings ON name = pass_key \
    WHERE member = ?1 AND cancelled = 0 AND day * 1440 + hour * 60 > ?2 AND day >= ?3";

/// The statements that read a row by its primary key, for tables of version 1.
pub(crate) const FIRST_ROWS_BY_KEY: [&str; 5] = [KEY, MEMBER, FACILITY, SLOT, BOOKING];

/// The statements that read a row by its primary key, for tables of version 2.
pub(crate) const ROWS_BY_KEY: [&str; 6] = [KEY, MEMBER, FACILITY, SLOT, BOOKING, OLDER_ROOT];

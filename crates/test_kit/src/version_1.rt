//! SQL statements that create a club with tables of version 1.

/// All versions have this table.
pub const DESK: &str = "CREATE TABLE desk (version INTEGER NOT NULL) STRICT";

const FACILITIES: &str =
    "CREATE TABLE facilities (name TEXT NOT NULL PRIMARY KEY, kind TEXT NOT NULL, places INTEGER \
        NOT NULL CHECK (places BETWEEN 1 AND 50), price INTEGER NOT NULL CHECK (price BETWEEN 0 \
        AND 9999), opens INTEGER NOT NULL CHECK (opens BETWEEN 0 AND 23), shuts INTEGER NOT NULL \
        CHECK (shuts BETWEEN 1 AND 24)) STRICT";

const KEYS: &str =
    "CREATE TABLE keys (name TEXT NOT NULL PRIMARY KEY, member TEXT NOT NULL REFERENCES members \
        (name), root BLOB NOT NULL, revoked INTEGER NOT NULL CHECK (revoked BETWEEN 0 AND 1)) \
        STRICT";

const BOOKINGS: &str =
    "CREATE TABLE bookings (pass_key TEXT NOT NULL REFERENCES keys (name), number INTEGER NOT NULL \
        CHECK (number BETWEEN 1 AND 999999999), facility TEXT NOT NULL REFERENCES facilities \
        (name), day INTEGER NOT NULL CHECK (day BETWEEN 10957 AND 47481), hour INTEGER NOT NULL \
        CHECK (hour BETWEEN 0 AND 23), guests INTEGER NOT NULL CHECK (guests BETWEEN 0 AND 49), \
        charge INTEGER NOT NULL CHECK (charge BETWEEN 0 AND 499950), remains INTEGER NOT NULL \
        CHECK (remains BETWEEN 0 AND 49), cancelled INTEGER NOT NULL CHECK (cancelled BETWEEN 0 \
        AND 1), refund INTEGER NOT NULL CHECK (refund BETWEEN 0 AND 499950), PRIMARY KEY \
        (pass_key, number)) STRICT";

const FIRST: &str = "INSERT INTO desk (version) VALUES (1)";

/// Amy has booked the court under number 7. The cancelled booking of the room has a refund of 300.
pub static STATEMENTS: [&str; 18] = [
    DESK,
    "CREATE TABLE members (name TEXT NOT NULL PRIMARY KEY, credited INTEGER NOT NULL CHECK \
        (credited BETWEEN 0 AND 999999999), quota INTEGER NOT NULL CHECK (quota BETWEEN 0 AND 99), \
        used INTEGER NOT NULL CHECK (used BETWEEN 0 AND 999999999)) STRICT",
    FACILITIES,
    KEYS,
    "CREATE TABLE slots (facility TEXT NOT NULL REFERENCES facilities (name), day INTEGER NOT NULL \
        CHECK (day BETWEEN 10957 AND 47481), hour INTEGER NOT NULL CHECK (hour BETWEEN 0 AND 23), \
        closed INTEGER NOT NULL CHECK (closed BETWEEN 0 AND 1), taken INTEGER NOT NULL, PRIMARY \
        KEY (facility, day, hour)) STRICT",
    BOOKINGS,
    "CREATE INDEX keys_by_member ON keys (member)",
    FIRST,
    "INSERT INTO members VALUES ('amy', 10000, 5, 901)",
    "INSERT INTO members VALUES ('bob', 10000, 5, 0)",
    "INSERT INTO facilities VALUES ('court-1', 'court', 4, 200, 8, 22)",
    "INSERT INTO facilities VALUES ('room-1', 'room', 1, 601, 8, 22)",
    "INSERT INTO keys VALUES ('amy-1', 'amy', X'00112233445566778899AABBCCDDEEFF', 0)",
    "INSERT INTO keys VALUES ('bob-1', 'bob', X'00112233445566778899AABBCCDDEEFF', 0)",
    "INSERT INTO slots VALUES ('court-1', 20574, 18, 0, 3)",
    "INSERT INTO slots VALUES ('room-1', 20574, 18, 0, 0)",
    "INSERT INTO bookings VALUES ('amy-1', 7, 'court-1', 20574, 18, 2, 600, 1, 0, 0)",
    "INSERT INTO bookings VALUES ('amy-1', 8, 'room-1', 20574, 18, 0, 601, 0, 1, 300)",
];

/// These earlier tables have no totals of members and slots.
pub static WITHOUT_TOTALS: [&str; 8] = [
    DESK,
    "CREATE TABLE members (name TEXT NOT NULL PRIMARY KEY, credited INTEGER NOT NULL CHECK \
        (credited BETWEEN 0 AND 999999999), quota INTEGER NOT NULL CHECK (quota BETWEEN 0 AND 99)) \
        STRICT",
    FACILITIES,
    KEYS,
    "CREATE TABLE slots (facility TEXT NOT NULL REFERENCES facilities (name), day INTEGER NOT NULL \
        CHECK (day BETWEEN 10957 AND 47481), hour INTEGER NOT NULL CHECK (hour BETWEEN 0 AND 23), \
        closed INTEGER NOT NULL CHECK (closed BETWEEN 0 AND 1), PRIMARY KEY (facility, day, hour)) \
        STRICT",
    BOOKINGS,
    FIRST,
    "INSERT INTO members VALUES ('amy', 10000, 5)",
];

/// These statements change version 1 to version 2, without the index of the bookings.
pub static OLDER_ROOTS: [&str; 2] = [
    "CREATE TABLE old_roots (pass_key TEXT NOT NULL PRIMARY KEY REFERENCES keys (name), root BLOB \
        NOT NULL, until INTEGER NOT NULL CHECK (until BETWEEN 15778080 AND 68374079)) STRICT",
    "UPDATE desk SET version = 2",
];

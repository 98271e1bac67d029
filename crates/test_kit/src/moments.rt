//! Moments as texts.

pub const NOON: &str = "2026-04-20T12:00";

pub const UNTIL: &str = "2026-04-25T00:00";

pub const BEFORE_UNTIL: &str = "2026-04-24T23:59";

/// The slots at 18 start 23 hours and 59 minutes after this moment.
pub const LATER: &str = "2026-04-30T18:01";

pub const START: &str = "2026-05-01T18:00";

pub const BEGUN: &str = "2026-05-01T18:30";

//! Moments as numbers of minutes since 1970-01-01T00:00.

/// 2026-04-20T12:00, the moment of most requests.
pub const NOON: u32 = 29_611_440;

/// 2026-04-25T00:00. An older root is valid until this moment.
pub const UNTIL: u32 = 29_617_920;

/// 2026-05-01T18:00, the moment at which the slots at 18 start.
pub const START: u32 = 29_627_640;

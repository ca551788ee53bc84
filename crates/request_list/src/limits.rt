// The limits of requests.

/// The most requests of a list.
pub const MOST_REQUESTS: u64 = 100_000;

/// The most work that one request may need, in work units.
pub const MOST_REQUEST_UNITS: u64 = 1 << 60;

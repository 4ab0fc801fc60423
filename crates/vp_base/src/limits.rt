//! The limits of the product. What would exceed one is refused, and the answer says so.

/// The highest number of a site. The lowest is 1.
pub const LAST_SITE: u8 = 16;

/// How many records a catalogue or a history may have.
pub const MOST_RECORDS: usize = 256;

/// How many reads and writes a transaction may do.
pub const MOST_OPS: u8 = 64;

/// How many live transactions a site may have.
pub const MOST_LIVE: usize = 1024;

/// Of how many ended transactions a site keeps the end.
pub const MOST_FINISHED: usize = 1024;

/// How many events a schedule may have.
pub const MOST_EVENTS: u32 = 100_000;

/// How many steps a world may take: each event but a flow is one, and each delivery of a flow. One flow may ask for as many
/// deliveries.
pub const MOST_STEPS: u32 = 100_000;

/// How many messages may be sent in a world.
pub const MOST_MESSAGES: u32 = 2_000_000;

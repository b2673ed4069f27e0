//! The numbers of scripts and replies.

/// The most bytes of a script.
pub const SCRIPT_LIMIT: usize = 1_048_576;

/// The most bytes of all replies.
pub const REPLY_LIMIT: u64 = 67_108_864;

/// The most bytes that the line of a reply has besides the digits of its symbol: `reply `, a number of up to ten digits, a
/// space, one of up to three, a space, and the line feed, which are 22, and some to spare.
pub const LINE_FRAME: usize = 32;

/// The most bytes of lines that are gathered before they are put, but where one line alone has more.
pub const GATHERED: usize = 65_536;

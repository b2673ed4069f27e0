//! The ranges of the options, and what stands where one is not given.

/// The most workers.
pub const WORKER_LIMIT: u32 = 64;

/// The number of workers where none is given.
pub const DEFAULT_WORKERS: u32 = 4;

/// The greatest budget.
pub const BUDGET_LIMIT: u32 = 33_554_432;

/// The budget where none is given.
pub const DEFAULT_BUDGET: u32 = 4_194_304;

// How many starts a journal may have at most.

/// The greatest limit of starts that a job may have. A machine takes any limit.
pub const MAX_LIMIT: u64 = 2_097_153;

//! The numbers that messages carry, by the names of RFC 5531 (sections 8.2 and 9).

/// The version of RPC.
pub const RPC_VERSION: u32 = 2;

// The numbers of `msg_type`.
pub const CALL: u32 = 0;

pub const REPLY: u32 = 1;

// The numbers of `reply_stat`.
pub const MSG_ACCEPTED: u32 = 0;

pub const MSG_DENIED: u32 = 1;

// The numbers of `accept_stat`.
pub const SUCCESS: u32 = 0;

pub const PROG_UNAVAIL: u32 = 1;

pub const PROG_MISMATCH: u32 = 2;

pub const PROC_UNAVAIL: u32 = 3;

pub const GARBAGE_ARGS: u32 = 4;

pub const SYSTEM_ERR: u32 = 5;

// The numbers of `reject_stat`.
pub const RPC_MISMATCH: u32 = 0;

pub const AUTH_ERROR: u32 = 1;

// The numbers of `auth_stat` that the registry answers.
pub const AUTH_BADCRED: u32 = 1;

pub const AUTH_REJECTEDCRED: u32 = 2;

pub const AUTH_BADVERF: u32 = 3;

// The flavors of credentials that the registry knows.
pub const AUTH_NONE: u32 = 0;

pub const AUTH_SYS: u32 = 1;

//! The exit codes of resource agents (OCF Resource Agent API 1.1, exit status codes; Pacemaker Administration, "How are OCF Return Codes
//! Interpreted?").

pub const SUCCESS: u8 = 0;

/// The agent says that it failed.
pub const ERR_GENERIC: u8 = 1;

/// The agent was called in a way that it doesn't take.
pub const ERR_ARGS: u8 = 2;

/// It doesn't know the operation.
pub const ERR_UNIMPLEMENTED: u8 = 3;

/// It lacks a permission.
pub const ERR_PERM: u8 = 4;

/// What the resource needs isn't installed.
pub const ERR_INSTALLED: u8 = 5;

/// The configuration of the resource is wrong.
pub const ERR_CONFIGURED: u8 = 6;

pub const NOT_RUNNING: u8 = 7;

pub const RUNNING_PROMOTED: u8 = 8;

/// The resource is promoted, and has failed.
pub const FAILED_PROMOTED: u8 = 9;

/// The resource runs, and may fail soon.
pub const DEGRADED: u8 = 190;

/// The same of a promoted one.
pub const DEGRADED_PROMOTED: u8 = 191;

//! The numbers of the rules, in the order of the phases that judge by them.

// The text.
pub const NOT_UTF8: u16 = 101;

pub const NO_TOKEN: u16 = 102;

pub const MISPLACED_WORD: u16 = 103;

pub const OVER_LIMIT: u16 = 104;

pub const UNCLOSED_FUNCTION: u16 = 105;

pub const DEFINED_TWICE: u16 = 106;

pub const UNKNOWN_ANNOTATION: u16 = 107;

// Names and types.
pub const UNKNOWN_NAME: u16 = 201;

pub const WRONG_TYPE: u16 = 202;

pub const ARGUMENT_COUNT: u16 = 203;

pub const MISUSED_POINTER: u16 = 204;

pub const CALLEE_BELOW: u16 = 205;

pub const FORM_LIMIT: u16 = 206;

// The graph of a function's blocks.
pub const PHI_ENTRIES: u16 = 211;

pub const BLOCK_ON_NO_PATH: u16 = 212;

pub const NO_TERMINATOR: u16 = 213;

// Tasks and their regions.
pub const STRAY_REATTACH: u16 = 301;

pub const OTHER_CONTINUATION: u16 = 302;

pub const FOREIGN_REGION: u16 = 303;

pub const UNSYNCED_DETACH: u16 = 304;

pub const RETURN_IN_TASK: u16 = 305;

pub const TWO_TASKS: u16 = 306;

pub const MISPLACED_IN_BLOCK: u16 = 307;

// What has a value where it is used.
pub const UNDEFINED_REGISTER: u16 = 401;

pub const UNSTORED_CELL: u16 = 402;

// What is shown of numbers.
pub const INDEX: u16 = 501;

pub const DIVISOR: u16 = 502;

pub const NO_SIGNED_WRAP: u16 = 503;

pub const SHIFT_AMOUNT: u16 = 504;

pub const KEEPS: u16 = 505;

pub const REQUIRES: u16 = 506;

pub const ENSURES: u16 = 507;

pub const SHOWS: u16 = 508;

// Footprints.
pub const UNCOVERED_CELL: u16 = 601;

pub const CONFLICT: u16 = 602;

pub const PENDING: u16 = 603;

pub const UNCOVERED_ZONE: u16 = 604;

// Cost.
pub const LEFT_BELOW_ZERO: u16 = 701;

pub const LEFT_TOO_SMALL: u16 = 702;

pub const MEASURE: u16 = 703;

pub const BUDGET: u16 = 704;

pub const RECURSION_COST: u16 = 705;

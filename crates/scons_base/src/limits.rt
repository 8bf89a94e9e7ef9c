//! How much of each thing there may be.

/// Bytes of a path.
pub const PATH_LIMIT: usize = 4096;

/// Nodes of a graph.
pub const NODE_LIMIT: u32 = 100_000;

/// Rules of a graph.
pub const RULE_LIMIT: u32 = 50_000;

/// Dependencies of one rule.
pub const DEP_LIMIT: u32 = 10_000;

/// Bytes of a file that is read.
pub const FILE_LIMIT: u64 = 67_108_864;

/// Bytes of a script.
pub const SCRIPT_LIMIT: u64 = 1_048_576;

/// Bytes of a file's name in a script of one line.
pub const FILE_NAME_LIMIT: usize = 255;

/// Bytes of the command in a script of one line.
pub const COMMAND_LIMIT: usize = 1000;

/// Jobs at a time.
pub const JOB_LIMIT: u32 = 64;

/// Scripts that call one another.
pub const SCRIPT_DEPTH_LIMIT: u32 = 32;

/// Units of one reading.
pub const UNIT_LIMIT: u64 = 30_000_000;

/// Calls inside one another.
pub const CALL_DEPTH_LIMIT: u32 = 200;

/// Constructs open at one place of a script.
pub const SYNTAX_DEPTH_LIMIT: u32 = 100;

/// Levels of values inside one another that are compared or shown.
pub const VALUE_DEPTH_LIMIT: u32 = 100;

/// Bytes of a text in a script.
pub const TEXT_LIMIT: u64 = 16_777_216;

/// Items of a list in a script.
pub const LIST_LIMIT: u64 = 8_000_000;

/// Levels of lists inside one another that are flattened.
pub const NESTING_LIMIT: u32 = 100;

/// Bytes of one substitution.
pub const SUBST_LIMIT: u64 = 1_048_576;

/// References in one substitution.
pub const REFERENCE_LIMIT: u64 = 100_000;

/// Bytes of a signature bank.
pub const BANK_LIMIT: u64 = 1 << 40;

/// Bytes of the payload of one entry of a signature bank.
pub const PAYLOAD_LIMIT: u64 = 4_294_967_295;

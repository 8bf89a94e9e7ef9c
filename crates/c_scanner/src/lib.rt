//! The include lines of a C file: what `includes` gives of its bytes, and which files are scanned for them.
//!
//! A line counts whatever comments and conditions stand round it. It is matched as by the regular expression
//! `^[ \t]*#[ \t]*(?:include|import)[ \t]*(<|")([^>"]+)(>|")`, within the line.
#![tactic(auto)]

mod line;
mod scan;
mod suffix;

pub use line::Include;
pub use scan::includes;
pub use suffix::is_scanned;

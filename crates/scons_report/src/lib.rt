//! What a run says: the texts on both sinks, the rules that a dry run lists, those that cleaning goes over, and the tree of what a
//! word asks for.
//!
//! The wording of the texts is this project's own and follows SCons. Each text is whole lines with their line feeds.
#![tactic(auto)]

mod clean;
mod dry;
mod laws;
mod order;
mod over;
mod shown;
mod tree;
mod tree_end;

pub use build_files::ListEnd;
pub use clean::clean_list;
pub use dry::{cycle_fault, dry_list};
pub use laws::lists_foresee;
pub use report_texts::{
    building_text, cleaned_text, cleaning_text, done_text, done_with_errors_text, fault_text,
    help_text, load_text, nothing_text, read_text, reading_text, removed_text, rule_text,
    terminated_text, up_to_date_text,
};
pub use shown::tree_text;
pub use tree_end::TreeEnd;

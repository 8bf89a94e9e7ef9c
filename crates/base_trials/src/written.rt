//! How the table writes texts.
use scons_base::PathText;
use std::alloc::Global;

/// A text without its escapes: `\z` is a zero byte, and `N*C` the text C so many times.
pub(crate) fn text_of(alloc: Global, field: &str) -> Option<String> {
    if let Some((count, part)) = field.split_once('*')
        && let Ok(count) = count.parse::<usize>()
    {
        return part.repeat(alloc, count).ok();
    }
    field.replace(alloc, "\\z", "\0").ok()
}

/// The path that such a text is.
pub(crate) fn path_of(alloc: Global, field: &str) -> Option<PathText> {
    PathText::read(alloc, text_of(alloc, field)?.as_str()).ok()
}

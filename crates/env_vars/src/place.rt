//! Where items are put into a list.

/// Where added items go.
#[derive(Clone, Copy)]
pub(crate) enum Place {
    Behind,
    InFront,
    /// Behind, where they aren't there already.
    New,
}

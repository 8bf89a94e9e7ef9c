//! The numbers of what stands in a heap, of functions and of objects.

/// The number of a text of a heap.
#[derive(Clone, Copy, Debug, PartialEq, Eq)]
pub struct TextId(pub u64);

/// The number of a list of a heap.
#[derive(Clone, Copy, Debug, PartialEq, Eq)]
pub struct ListId(pub u64);

/// The number of a tuple of a heap.
#[derive(Clone, Copy, Debug, PartialEq, Eq)]
pub struct TupleId(pub u64);

/// The number of a dict of a heap.
#[derive(Clone, Copy, Debug, PartialEq, Eq)]
pub struct DictId(pub u64);

/// The number of a function of a script, given by whoever runs it.
#[derive(Clone, Copy, Debug, PartialEq, Eq)]
pub struct FuncId(pub u32);

/// The number of an object, given by whoever hands it to scripts.
#[derive(Clone, Copy, Debug, PartialEq, Eq)]
pub struct HostId(pub u32);

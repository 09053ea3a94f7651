//! What a file of blocks keeps of each block, and of where reading stopped last.

/// A block: the offset at which it begins, and how many entries were put into it, whose rows have so many values. A block
/// takes 16 bytes of memory.
#[derive(Clone, Copy, Debug)]
pub struct Block {
    pub start: u64,
    pub count: u32,
    pub width: u8,
}

/// A position of a block, and the offset at which its entry begins.
#[derive(Clone, Copy, Debug)]
pub struct Place {
    pub next: u32,
    pub at: u64,
}

/// The place at which reading stopped last, in the block of that number.
#[derive(Clone, Copy, Debug)]
pub struct Mark {
    pub block: u32,
    pub place: Place,
}

//! What a block's terminator does to children: the region of its detach, and the detach whose child it ends.

use program::RegisterId;

/// What the terminator of a block does to children: the region of its detach, and the detach whose child it ends.
pub struct Fork {
    pub region: Option<RegisterId>,
    pub ended: Option<usize>,
}

/// Written out, so that no crate above proves it anew.
impl Drop for Fork {
    fn drop(self) {
        let Fork {
            region: _,
            ended: _,
        } = self;
    }
}

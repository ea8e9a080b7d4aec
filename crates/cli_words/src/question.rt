//! A request over the bytes of its files.

use crate::request::Request;
use std::alloc::Global;
use std::hash::RandomState;

/// A request, and what it is answered from.
#[derive(Clone, Copy)]
pub struct Question<'a> {
    pub alloc: Global,
    /// What a text is read with.
    pub state: RandomState,
    pub request: &'a Request,
    /// The module's text; none where its file could not be read.
    pub module: Option<&'a [u8]>,
    /// The schedule's text; none where its file could not be read, or the verb takes none.
    pub schedule: Option<&'a [u8]>,
}

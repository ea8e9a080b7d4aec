//! The names of a function's registers, by their numbers, from the text.

use lists::ListBuffer;
use std::alloc::{AllocError, Global};
use syntax::{Function, Module};

/// The names of a function's registers by their numbers, and that of its result behind the last one.
fn names_in<'a>(alloc: Global, function: &'a Function) -> Result<Vec<&'a str>, AllocError> {
    let mut names = ListBuffer::new(alloc);
    for name in syntax::register_names(alloc, function)?.as_slice() {
        names.push(name.as_str());
    }
    names.push(".ret");
    names.finish()
}

/// By function: the names of its registers, parameters first, then in the order of the text, and `.ret` for its result.
///
/// # Errors
///
/// Memory was refused.
pub(crate) fn register_names<'a>(
    alloc: Global,
    module: &'a Module,
) -> Result<Vec<Vec<&'a str>>, AllocError> {
    let mut names = ListBuffer::new(alloc);
    for function in module.functions.as_slice() {
        names.push(names_in(alloc, function)?);
    }
    names.finish()
}

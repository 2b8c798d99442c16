//! Files of a library in memory.

use std::alloc::{AllocError, Global};

/// A file by its name and its bytes.
pub(crate) fn file_of(
    alloc: Global,
    name: &str,
    bytes: Vec<u8>,
) -> Result<(String, Vec<u8>), AllocError> {
    Ok((String::from_str(alloc, name)?, bytes))
}

use std::alloc::{AllocError, Global};

/// Bytes, and the name that later questions have for them.
#[derive(Drop)]
struct Entry {
    name: Vec<u8>,
    bytes: Vec<u8>,
}

/// The bytes that were named.
#[derive(Drop)]
pub(crate) struct Named {
    alloc: Global,
    entries: Vec<Entry>,
}

/// Whether this may be a name: letters, digits, `_` and `.`.
pub(crate) fn is_name(text: &[u8]) -> bool {
    !text.is_empty()
        && text.iter().all(|byte| byte.is_ascii_alphanumeric() || *byte == b'_' || *byte == b'.')
}

impl Named {
    /// No bytes are named.
    pub(crate) fn new(alloc: Global) -> Named {
        Named {
            alloc,
            entries: Vec::new(alloc),
        }
    }

    /// The bytes of this name: the last that were given it.
    pub(crate) fn get(&self, name: &[u8]) -> Option<&[u8]> {
        for entry in self.entries.iter().rev() {
            if entry.name.as_slice() == name {
                return Some(entry.bytes.as_slice());
            }
        }
        None
    }

    /// Gives the bytes this name. An `Err` names nothing.
    pub(crate) fn put(&mut self, name: &[u8], bytes: &[u8]) -> Result<(), AllocError> {
        let name = Vec::from_slice(self.alloc, name)?;
        let bytes = Vec::from_slice(self.alloc, bytes)?;
        self.entries.push(Entry { name, bytes })?;
        Ok(())
    }
}

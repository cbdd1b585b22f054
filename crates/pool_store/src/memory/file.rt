//! A file in memory.
ghost use Rattle.std.specs.Prelude.{◌≤◌, length};

use ad_value::Text;
use std::alloc::AllocError;

/// A file in memory, and how many of its first bytes are solid.
pub struct MemFile {
    name: Text,
    bytes: Vec<u8>,
    solid: usize,
    ghost fits: { solid ≤ length bytes.items },
}

impl Drop for MemFile {
    fn drop(self) {
        let MemFile {
            name: _name,
            bytes: _bytes,
            solid: _,
        } = self;
    }
}

impl MemFile {
    ghost use Rattle.std.specs.Prelude.{◌≡◌, ◌≤◌, ◌++◌, length, take, OnOk, OnErr, IsTrue, ◌↔◌};
    ghost use Rattle.pool_outer.specs.Files.{IsImage};

    /// A file all of which is solid.
    pub fn new(name: Text, bytes: Vec<u8>) -> MemFile
        ensures name { result.name ≡ name }
        ensures bytes { result.bytes ≡ bytes }
        ensures solid { result.solid ≡ length bytes.items }
    {
        MemFile {
            name,
            solid: bytes.len(),
            bytes,
        }
    }

    /// A file none of which is solid.
    pub(super) fn loose(name: Text, bytes: Vec<u8>) -> MemFile
        ensures name { result.name ≡ name }
        ensures bytes { result.bytes ≡ bytes }
        ensures solid { result.solid ≡ 0 }
    {
        MemFile {
            name,
            bytes,
            solid: 0,
        }
    }

    pub(super) fn name(&self) -> &str
        ensures { result.now ≡ self.now.name }
    {
        self.name.as_str()
    }

    pub(super) fn bytes(&self) -> &[u8]
        ensures { result.now ≡ self.now.bytes.items }
    {
        self.bytes.as_slice()
    }

    pub(super) fn has_image(&self, image: &[u8]) -> bool
        ensures { IsTrue result ↔ IsImage self.now.solid self.now.bytes.items image.now }
    {
        self.solid <= image.len() && self.bytes.as_slice().starts_with(image)
    }

    pub(super) fn append(&mut self, bytes: &[u8]) -> Result<(), AllocError>
        ensures name { self.new.name ≡ self.old.name }
        ensures ok { OnOk result (self.new.bytes.items ≡ self.old.bytes.items ++ bytes.now) }
        ensures err { OnErr result (self.new.bytes.items ≡ self.old.bytes.items) }
        ensures solid { self.new.solid ≡ self.old.solid }
    {
        self.bytes.extend_from_slice(bytes)
    }

    pub(super) fn sync(&mut self)
        ensures name { self.new.name ≡ self.old.name }
        ensures bytes { self.new.bytes.items ≡ self.old.bytes.items }
        ensures solid { self.new.solid ≡ length self.old.bytes.items }
    {
        self.solid = self.bytes.len();
    }

    pub(super) fn cut(&mut self, size: usize)
        requires { size ≤ length self.old.bytes.items }
        ensures name { self.new.name ≡ self.old.name }
        ensures bytes { self.new.bytes.items ≡ take size self.old.bytes.items }
        ensures solid { self.new.solid ≡ size }
    {
        self.solid = size;
        self.bytes.truncate(size);
    }

    pub(super) fn rename(&mut self, name: Text)
        ensures name { self.new.name ≡ name }
        ensures bytes { self.new.bytes.items ≡ self.old.bytes.items }
        ensures solid { self.new.solid ≡ self.old.solid }
    {
        self.name = name;
    }
}

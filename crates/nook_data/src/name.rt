//! Names of parts and threads.

ghost use Rattle.std.specs.Prelude.{◌≡◌, ◌<◌, ◌≤◌, length, slice_index, take, if◌then◌else◌};
ghost use Rattle.std.specs.List.{list_all};
ghost use Rattle.nook_data.specs.Names.{is_name, is_name_byte};

use crate::limits::MOST_NAME_BYTES;
use std::marker::Model;

/// A name: 1 to 16 bytes of `a` to `z`, `0` to `9` and `_`. Contracts see its bytes.
#[derive(Drop)]
pub struct Name {
    bytes: [u8; MOST_NAME_BYTES],
    length: usize,
}

impl Model for Name {
    ghost use Rattle.std.specs.Prelude.{ℕ, List, take, length, ◌≤◌, ◌≡◌, true};
    ghost use Rattle.nook_data.specs.Names.{is_name};
    ghost use Rattle.nook_data.specs.declared.limits.TheConstants.{MOST_NAME_BYTES};

    ghost Value = { List ℕ };

    ghost view = { λ s. take s.length s.bytes };

    ghost invariant = { λ s. (s.length ≤ MOST_NAME_BYTES)
        × (is_name (take s.length s.bytes) ≡ true) };
}

impl Name {
    /// The name with these bytes; `None` exactly if they are not a name. It allocates no memory.
    pub fn new(bytes: &[u8]) -> Option<Name>
        ensures { result ≡ (if is_name bytes.now then Some bytes.now else None) }
    {
        if !is_name(bytes) {
            return None;
        }
        Some(Name {
            bytes: padded(bytes),
            length: bytes.len(),
        })
    }

    /// An equal name. It allocates no memory.
    pub fn copy_of(&self) -> Name
        ensures { result ≡ self.now }
    {
        Name {
            bytes: self.bytes,
            length: self.length,
        }
    }

    /// The number of bytes, 1 to 16.
    pub fn len(&self) -> usize
        ensures { result ≡ length self.now }
    {
        self.length
    }

    /// The byte at index `i`.
    pub fn get(&self, i: usize) -> u8
        requires { i < length self.now }
        ensures { result ≡ slice_index self.now i }
    {
        self.bytes[i]
    }

    /// The name as text.
    pub fn as_str(&self) -> &str
        ensures { result.now ≡ self.now }
    {
        match std::str::from_utf8(&self.bytes[..self.length]) {
            Ok(text) => text,
            Err(_) => unreachable!(),
        }
    }

    /// The bytes, in order.
    pub fn as_slice(&self) -> &[u8]
        ensures { result.now ≡ self.now }
    {
        &self.bytes[..self.length]
    }
}

/// The bytes, padded with zeros to 16.
fn padded(bytes: &[u8]) -> [u8; MOST_NAME_BYTES]
    requires { length bytes.now ≤ MOST_NAME_BYTES }
    ensures { take (length bytes.now) result ≡ bytes.now }
{
    let mut kept = [0; MOST_NAME_BYTES];
    let (front, _) = kept.split_at_mut(bytes.len());
    front.copy_from_slice(bytes);
    kept
}

/// Whether the bytes are a name.
fn is_name(bytes: &[u8]) -> bool
    ensures { result ≡ is_name bytes.now }
{
    !bytes.is_empty() && bytes.len() <= MOST_NAME_BYTES && are_name_bytes(bytes)
}

/// Whether each byte may occur in a name.
fn are_name_bytes(bytes: &[u8]) -> bool
    ensures { result ≡ list_all is_name_byte bytes.now }
{
    bytes.iter().all(|byte| may_name(*byte))
}

/// Whether a byte may occur in a name.
fn may_name(byte: u8) -> bool
    ensures { result ≡ is_name_byte byte }
{
    byte.is_ascii_lowercase() || byte.is_ascii_digit() || byte == b'_'
}

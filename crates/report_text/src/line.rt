//! A line of text, built piece by piece.

ghost use Rattle.std.specs.Prelude.{◌≡◌, [], ◌∷◌, ◌++◌, OnErr, OnOk, decimal, string_bytes};

use itoa::Buffer;
use nook_data::lists::Words8;
use nook_data::memory::NoMemory;
use std::alloc::Global;
use std::marker::Model;

/// A line without its line feed. Contracts see its bytes.
#[derive(Drop)]
pub struct Line {
    text: String,
}

impl Model for Line {
    ghost use Rattle.std.specs.Prelude.{ℕ, List, string_bytes};

    ghost Value = { List ℕ };

    ghost view = { λ s. string_bytes s.text };
}

impl Line {
    /// The empty line. It allocates nothing.
    pub fn new(alloc: Global) -> Line
        ensures { result ≡ [] }
    {
        Line {
            text: String::new(alloc),
        }
    }

    /// Appends a text. `NoMemory` leaves the line as it was.
    pub fn push(&mut self, text: &str) -> Result<(), NoMemory>
        ensures ok { OnOk result (self.new ≡ self.old ++ text.now) }
        ensures err { OnErr result (self.new ≡ self.old) }
    {
        self.text.push_str(text)?;
        Ok(())
    }

    /// Appends a number in decimal. `NoMemory` leaves the line as it was.
    pub fn number(&mut self, n: u64) -> Result<(), NoMemory>
        ensures ok { OnOk result (self.new ≡ self.old ++ decimal n) }
        ensures err { OnErr result (self.new ≡ self.old) }
    {
        let mut digits = Buffer::new();
        self.push(digits.format(n))
    }

    /// Empties the line. It keeps its memory.
    pub fn clear(&mut self)
        ensures { self.new ≡ [] }
    {
        self.text.clear();
    }

    /// The line's bytes as a list. It allocates nothing.
    pub fn into_words(self) -> Words8
        ensures { result ≡ self }
    {
        Words8::from_vec(self.text.into_bytes())
    }

    /// The bytes so far.
    pub fn as_bytes(&self) -> &[u8]
        ensures { result.now ≡ self.now }
    {
        self.text.as_bytes()
    }
}

//! Short texts, held in place.
ghost use Rattle.std.specs.Prelude.{◌≡◌, ◌≤◌, ◌<◌, ◌++◌, ◌∷◌, ◌+◌, [], length};
ghost use Rattle.cacheability.specs.Decimal.{decimal};

use crate::name::Name;
use std::marker::Model;

/// A text of at most 96 bytes, held in place. Contracts see it as the list of its bytes.
#[derive(Drop)]
pub struct Written {
    buf: [u8; 96],
    len: usize,
}

impl Model for Written {
    ghost use Rattle.std.specs.Prelude.{ℕ, List, take, ◌≤◌};

    ghost Value = { List ℕ };

    ghost view = { λ w. take w.len w.buf };

    ghost invariant = { λ w. w.len ≤ 96 };
}

impl Written {
    /// The text of these bytes.
    pub fn of(bytes: &[u8]) -> Written
        requires { length bytes.now ≤ 96 }
        ensures { result ≡ bytes.now }
    {
        let mut written = Written {
            buf: [0; 96],
            len: 0,
        };
        written.put_all(bytes);
        written
    }

    /// The bytes and then the name.
    pub fn with_name(prefix: &[u8], name: &Name) -> Written
        requires { length prefix.now ≤ 32 }
        ensures { result ≡ prefix.now ++ name.now }
    {
        let mut written = Written::of(prefix);
        written.put_all(name.as_bytes());
        written
    }

    /// The bytes and then the number in decimal.
    pub fn with_number(prefix: &[u8], number: u32) -> Written
        requires { length prefix.now ≤ 32 }
        ensures { result ≡ prefix.now ++ decimal number }
    {
        let mut written = Written::of(prefix);
        written.put_number(number);
        written
    }

    /// The bytes of the text.
    pub fn as_slice(&self) -> &[u8]
        ensures { result.now ≡ self.now }
    {
        &self.buf[..self.len]
    }

    fn put(&mut self, byte: u8)
        requires { length self.old < 96 }
        ensures { self.new ≡ self.old ++ byte ∷ [] }
    {
        self.buf[self.len] = byte;
        self.len += 1;
    }

    fn put_all(&mut self, bytes: &[u8])
        requires { length self.old + length bytes.now ≤ 96 }
        ensures { self.new ≡ self.old ++ bytes.now }
    {
        let end = self.len + bytes.len();
        self.buf[self.len..end].copy_from_slice(bytes);
        self.len = end;
    }

    fn put_number(&mut self, number: u32)
        requires { length self.old + length (decimal number) ≤ 96 }
        ensures { self.new ≡ self.old ++ decimal number }
    {
        if number >= 10 {
            self.put_number(number / 10);
        }
        self.put(b'0' + (number % 10) as u8);
    }
}

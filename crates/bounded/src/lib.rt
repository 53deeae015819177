// A line of text of up to N bytes, kept in the value itself: a program makes its line by `write!` and hands it
// on by one write. A piece that has no room is left out whole, and that is an error.
#![tactic(auto)]

ghost use Rattle.std.specs.Prelude.{◌≡◌, ◌≤◌, ◌↔◌, true, [], length, take, List, ℕ, IsOk};
ghost use Rattle.bounded.specs.Added.{has_room, added};

use std::fmt;
use std::marker::Model;

#[derive(Drop)]
pub struct Text<const N: usize> {
    bytes: [u8; N],
    len: usize,
}

// A contract sees the bytes that were put.
impl<const N: usize> Model for Text<N> {
    ghost Value = { List ℕ };

    ghost view = { λ t. take t.len t.bytes };

    ghost invariant = { λ t. t.len ≤ N };
}

impl<const N: usize> Text<N> {
    pub fn new() -> Self
        ensures { result ≡ [] }
    {
        Text {
            bytes: [0; N],
            len: 0,
        }
    }

    // Puts the bytes behind those that are there.
    pub fn put(&mut self, bytes: &[u8]) -> fmt::Result
        ensures text { self.new ≡ added N self.old bytes.now }
        ensures ok { IsOk result ↔ has_room N self.old bytes.now ≡ true }
    {
        let at = self.len;
        let n = bytes.len();
        if n > N - at {
            return Err(fmt::Error);
        }
        let all = &mut self.bytes[..];
        all[at..at + n].copy_from_slice(bytes);
        self.len = at + n;
        Ok(())
    }

    // The bytes that were put.
    pub fn as_bytes(&self) -> &[u8]
        ensures { result.now ≡ self.now }
    {
        let all = &self.bytes[..];
        &all[..self.len]
    }
}

impl<const N: usize> fmt::Write for Text<N> {
    fn write_str(&mut self, s: &str) -> fmt::Result {
        self.put(s.as_bytes())
    }
}

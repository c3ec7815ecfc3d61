ghost use Rattle.std.specs.Prelude.{◌≡◌, ℕ, ◌+◌, ◌<◌, ◌≤◌, List, [], ◌∷◌, ◌++◌, length, take};
ghost use Rattle.std.specs.Int.{w32, to_le_bytes};

use std::marker::Model;

/// The bytes of instructions, at most 16: room for each spelling.
#[derive(Drop)]
pub struct CodeBuf {
    buf: [u8; 16],
    len: usize,
}

impl Model for CodeBuf {
    ghost Value = { List ℕ };

    ghost view = { λ c. take c.len c.buf };

    ghost invariant = { λ c. c.len ≤ 16 };
}

impl CodeBuf {
    /// No bytes.
    pub fn new() -> Self
        ensures { result ≡ [] }
    {
        CodeBuf {
            buf: [0; 16],
            len: 0,
        }
    }

    /// What was written.
    pub fn bytes(&self) -> &[u8]
        ensures bytes { result.now ≡ self.now }
        ensures room { length self.now ≤ 16 }
    {
        &self.buf[..self.len]
    }

    /// Drops what was written.
    pub fn clear(&mut self)
        ensures { self.new ≡ [] }
    {
        self.len = 0;
    }

    pub(crate) fn room(&self) -> usize
        ensures { result + length self.now ≡ 16 }
    {
        16 - self.len
    }

    pub(crate) fn push(&mut self, byte: u8)
        requires { length self.old < 16 }
        ensures { self.new ≡ self.old ++ byte ∷ [] }
    {
        self.buf[self.len] = byte;
        self.len += 1;
    }

    pub(crate) fn push_word(&mut self, word: u32)
        requires { length self.old + 4 ≤ 16 }
        ensures { self.new ≡ self.old ++ to_le_bytes w32 word }
    {
        let [a, b, c, d] = word.to_le_bytes();
        self.push(a);
        self.push(b);
        self.push(c);
        self.push(d);
    }
}

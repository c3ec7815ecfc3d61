// A name, which owns its bytes.
ghost use Rattle.std.specs.Prelude.{◌≡◌, IfOk};

use no_memory::NoMemory;
use std::alloc::Global;
use std::marker::Model;

/// A name as it is written. Contracts see it as its bytes.
#[derive(Drop)]
pub struct Name {
    letters: Vec<u8>,
}

impl Model for Name {
    ghost use Rattle.std.specs.Prelude.{ℕ, List};

    ghost Value = { List ℕ };

    ghost view = { λ name. name.letters.items };
}

impl Name {
    /// The name with these bytes.
    pub fn of(alloc: Global, bytes: &[u8]) -> Result<Name, NoMemory>
        ensures { IfOk result (λ name. name ≡ bytes.now) }
    {
        Ok(Name {
            letters: bytes.to_vec(alloc)?,
        })
    }

    /// The bytes of the name.
    pub fn bytes(&self) -> &[u8]
        ensures { result.now ≡ self.now }
    {
        &self.letters
    }
}

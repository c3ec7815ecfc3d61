// The parts of a file as they are written.
ghost use Rattle.std.specs.Prelude.{◌≡◌, ◌<◌, ◌^◌, ◌++◌, ℕ, List, length, OnOk, All};
ghost use Rattle.std.specs.List.{flat_map};
ghost use Rattle.file_fields.specs.Grammar.{number_bytes};

use no_memory::NoMemory;

/// A part of a file of the format F as it is written.
pub trait Part<F> {
    /// its numbers have 32 bits
    ghost fits: { Self → Type 0 };

    /// its bytes in a file
    ghost bytes: { Self → List ℕ };

    /// Puts the part at the end of a file.
    fn put(&self, file: &mut Vec<u8>) -> Result<(), NoMemory>
        requires { fits self.now }
        ensures { OnOk result (file.new.items ≡ file.old.items ++ bytes self.now) };
}

/// Puts parts at the end of a file, one after another.
pub fn put_all<F, T: Part<F>>(file: &mut Vec<u8>, parts: &[T]) -> Result<(), NoMemory>
    requires { All T.fits parts.now }
    ensures { OnOk result (file.new.items ≡ file.old.items ++ flat_map T.bytes parts.now) }
{
    for part in parts {
        part.put(file)?;
    }
    Ok(())
}

/// Puts the number of parts at the end of a file, and then the parts.
pub fn put_counted<F, T: Part<F>>(file: &mut Vec<u8>, parts: &[T]) -> Result<(), NoMemory>
    requires few { length parts.now < 2 ^ 32 }
    requires fit { All T.fits parts.now }
    ensures { OnOk result (file.new.items ≡ file.old.items ++ (number_bytes (length parts.now) ++ flat_map T.bytes parts.now)) }
{
    put_number(file, parts.len() as u32)?;
    put_all(file, parts)
}

/// Puts a number at the end of a file.
pub fn put_number(file: &mut Vec<u8>, number: u32) -> Result<(), NoMemory>
    ensures { OnOk result (file.new.items ≡ file.old.items ++ number_bytes number) }
{
    file.extend_from_slice(&number.to_le_bytes())?;
    Ok(())
}

impl<F> Part<F> for u32 {
    ghost fits = { λ n. Unit {0} };

    ghost bytes = { λ n. number_bytes n };

    fn put(&self, file: &mut Vec<u8>) -> Result<(), NoMemory> {
        put_number(file, *self)
    }
}

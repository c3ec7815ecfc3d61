ghost use Rattle.std.specs.Prelude.{◌≡◌, ◌<◌, ◌≤◌, ◌%◌};
ghost use Rattle.free_index.specs.Classes.{class_of_size};

// The class of a block's size: by fours up to 64 words, then by doublings.
pub fn class_of_size(size: u32) -> usize
    requires rows { size % 4 ≡ 0 }
    requires some { 0 < size }
    requires most { size ≤ 4194304 }
    ensures value { result ≡ class_of_size size }
    ensures few { result < 32 }
{
    if size <= 64 {
        (size / 4 - 1) as usize
    } else {
        (10 + (size - 1).ilog2()) as usize
    }
}

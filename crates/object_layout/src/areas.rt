// The areas of the memory: where each begins, and where class tables and descriptors stand.
ghost use Rattle.std.specs.Prelude.{◌≡◌, ◌<◌};
ghost use Rattle.object_layout.specs.Areas.{table_address, descriptor_address, word_index};

/// The address of the code's first byte.
pub const CODE_START: u32 = 0x100000;

/// The address of the table of class 0.
pub const TABLES_START: u32 = 0x200000;

/// The address of the descriptor of array kind 0.
pub const DESCRIPTORS_START: u32 = 0x280000;

/// The address of static 0. The data arrays follow the last static.
pub const STATICS_START: u32 = 0x300000;

/// The address of the lowest word of stack 0.
pub const STACKS_START: u32 = 0x400000;

/// The address of the heap's first word.
pub const HEAP_START: u32 = 0x800000;

/// The address of the table of a class: each takes 64 words.
#[tactic(auto, unfolding(crate::specs::Areas::table_address))]
pub fn table_address(class: u32) -> u32
    requires { class < 1024 }
    ensures { result ≡ table_address class }
{
    TABLES_START + 256 * class
}

/// The address of the descriptor of an array kind: each takes 4 words.
#[tactic(auto, unfolding(crate::specs::Areas::descriptor_address))]
pub fn descriptor_address(kind: u32) -> u32
    requires { kind < 256 }
    ensures { result ≡ descriptor_address kind }
{
    DESCRIPTORS_START + 16 * kind
}

/// Which word of those from byte `first` on stands at a byte: word i at byte `first + 4i`; none where no word stands there.
#[tactic(auto, unfolding(crate::specs::Areas::word_index))]
pub fn word_index(first: u32, byte: u32) -> Option<u32>
    ensures { result ≡ word_index first byte }
{
    if byte < first || (byte - first) % 4 != 0 {
        return None;
    }
    Some((byte - first) / 4)
}

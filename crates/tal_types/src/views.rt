ghost use Rattle.std.specs.Prelude.{◌≡◌};
ghost use Rattle.std.specs.Option.{option_map};
ghost use Rattle.object_layout.specs.Laws.{ClassLaws};
ghost use Rattle.tal_types.specs.Contexts.{plain};
ghost use Rattle.tal_types.specs.Kept.{context_of};
ghost use Rattle.tal_types.specs.Shown.{ShownImage};

use crate::contexts::{Annotation, Context};
use crate::signatures::Sig;
use object_layout::{FieldTy, Shapes};

/// A function's code: the addresses of its first byte and of the byte behind its last one, and its
/// signature's number.
#[derive(Clone, Copy, Debug, PartialEq, Eq)]
pub struct Span {
    pub start: u32,
    pub end: u32,
    pub sig: u32,
}

/// What an immediate means besides its number: 1, 3 and 5 null of a class, an array kind or a signature;
/// 6 a function; 7 a class's table; 8 a kind's descriptor; 10 a data array. The index is the row's number.
#[derive(Clone, Copy, Debug, PartialEq, Eq)]
pub struct Mark {
    pub tag: u32,
    pub index: u32,
}

/// What typing asks of an image. Each answer is none exactly where the image has no such row.
pub trait ImageView {
    /// what the image shows
    ghost shown: { Self → ShownImage };

    /// The classes and array kinds.
    fn shapes(&self) -> &Shapes
        ensures value { result.now ≡ (shown self.now).shapes }
        ensures laws { ClassLaws (shown self.now).shapes };

    /// The types of the statics.
    fn statics(&self) -> &[FieldTy]
        ensures { result.now ≡ (shown self.now).statics };

    /// A signature, by its number.
    fn sig(&self, s: u32) -> Option<Sig>
        ensures { result ≡ (shown self.now).sig s };

    /// The number of the signature of the function that begins at an address.
    fn function_at(&self, address: u32) -> Option<u32>
        ensures { result ≡ (shown self.now).function_at address };

    /// The function that has the byte at an address.
    fn function_of(&self, pc: u32) -> Option<Span>
        ensures { result ≡ (shown self.now).function_of pc };

    /// What is known where the block begins that begins at an address.
    fn block_at(&self, pc: u32) -> Option<Context>
        ensures { option_map context_of result ≡ (shown self.now).block_at pc };

    /// The same as the image has it: the block's types, with no context built of them.
    fn annotation_at(&self, pc: u32) -> Option<Annotation<'_>>
        ensures { option_map (λ b. plain b.types.now b.slots.now) result ≡ (shown self.now).block_at pc };

    /// The mark of the instruction that begins at an address.
    fn mark_at(&self, pc: u32) -> Option<Mark>
        ensures { result ≡ (shown self.now).mark_at pc };

    /// The kind of a data array, by the array's number.
    fn data_kind(&self, d: u32) -> Option<u32>
        ensures { result ≡ (shown self.now).data_kind d };
}

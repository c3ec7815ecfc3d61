use crate::parts::{ArrayPart, BlockPart, FunctionPart, MarkPart};
use object_layout::{ClassRow, FieldList, KindRow};
use tal_types::Sig;

/// The rows of an image, in the order of its file.
#[derive(Drop)]
pub struct ImageRows {
    pub heap_words: u32,
    pub stacks: u32,
    pub sigs: Vec<Sig>,
    pub functions: Vec<FunctionPart>,
    pub entries: Vec<u32>,
    pub classes: Vec<ClassRow>,
    pub kinds: Vec<KindRow>,
    pub statics: FieldList,
    pub arrays: Vec<ArrayPart>,
    pub code: Vec<u8>,
    pub blocks: Vec<BlockPart>,
    pub marks: Vec<MarkPart>,
}

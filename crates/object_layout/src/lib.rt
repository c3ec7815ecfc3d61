// The layout of objects: what a class or an array kind gives its objects in memory.
//
// `Shapes` is made once, of the rows of classes and kinds (`Shapes::of`, which names the first bad row
// and its first fault), and then answers in constant time: which class is below which (`below`), what
// stands at a byte of an object (`field_at`) or of a class table (`slot_at`, `table_word`), what a
// kind's elements are (`element_of`) and its descriptor has (`descriptor_word`), how many heap words an object needs (`need_words`). Contracts see
// a `Shapes` as its rows; the definitions over rows stand in `specs/Classes.antt`, the faults in
// `specs/Faults.antt`, and what holds of all rows without a fault in the module `laws`.
#![tactic(auto)]

pub mod areas;
mod faults;
pub mod laws;
mod laying;
mod look_ups;
mod rows;

pub use faults::ShapeFault;
pub use look_ups::Shapes;
pub use rows::{ClassRow, FieldList, FieldTy, FunRow, KindRow, MethodList, Shape};

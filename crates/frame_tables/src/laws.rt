// Laws of the walk, frame by frame. Each function does nothing: its clause is what is shown.
ghost use Rattle.std.specs.Prelude.{ℕ, ◌≡◌, ◌∷◌, ◌++◌, [], List, Some, length};
ghost use Rattle.tal_types.specs.declared.FrameRow.{FrameRow};
ghost use Rattle.frame_tables.specs.FrameRows.{RowAt, frame_row_at};
ghost use Rattle.frame_tables.specs.FrameWalks.{IsStack, references, chosen};

/// The slots of a frame and then 0 are the words of a stack.
pub fn one_frame_is_a_stack()
    ensures { (table : List RowAt) (place : ℕ) (row : FrameRow) (slots : List ℕ) →
        frame_row_at table place ≡ Some row → length slots ≡ row.slots →
        IsStack table place (slots ++ 0 ∷ []) }
{}

/// The slots of a frame, and then the place and the words of a stack, are the words of a stack.
pub fn a_frame_on_a_stack_is_a_stack()
    ensures { (table : List RowAt) (place : ℕ) (row : FrameRow) (slots below : List ℕ) (next : ℕ) →
        frame_row_at table place ≡ Some row → length slots ≡ row.slots → IsStack table next below →
        IsStack table place (slots ++ next ∷ below) }
{}

/// The references of a stack of one frame are the words of its slots whose bit is set.
pub fn references_of_one_frame()
    ensures { (table : List RowAt) (place : ℕ) (row : FrameRow) (slots : List ℕ) →
        frame_row_at table place ≡ Some row → length slots ≡ row.slots →
        references table place (slots ++ 0 ∷ []) ≡ chosen row.refs 0 slots }
{}

/// The references of a stack are those of its top frame, and then those of the frames below, which go on at the word
/// after the top frame's slots.
pub fn references_of_a_frame_on_a_stack()
    ensures { (table : List RowAt) (place : ℕ) (row : FrameRow) (slots below : List ℕ) (next : ℕ) →
        frame_row_at table place ≡ Some row → length slots ≡ row.slots →
        references table place (slots ++ next ∷ below) ≡ chosen row.refs 0 slots ++ references table next below }
{}

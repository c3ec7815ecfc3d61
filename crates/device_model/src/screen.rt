// The screen's cells.

/// How many cells the screen has, in 25 rows of 80.
pub const CELLS: usize = 2000;

/// What a cell holds at first: a space, in light grey on black.
pub const BLANK: u16 = 0x0720;

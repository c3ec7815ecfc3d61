// The references of the data area.
ghost use Rattle.std.specs.Prelude.{◌≡◌, ◌∷◌, ◌++◌, false, IfOk, OnOk, map, replicate};
ghost use Rattle.std.specs.Option.{option_map_or};
ghost use Rattle.object_layout.specs.Classes.{is_reference};
ghost use Rattle.frame_tables.specs.FrameWalks.{GivesNext};
ghost use Rattle.root_words.specs.DataArea.{data_marks, marked_words};

use no_memory::NoMemory;
use object_layout::FieldTy;
use std::alloc::Global;
use std::marker::Model;
use tal_image::Image;
use tal_types::ImageView;

/// Which words of the data area are references: of the statics, and of the data arrays behind them.
#[derive(Drop)]
pub struct DataMarks {
    marks: Vec<bool>,
}

impl Model for DataMarks {
    ghost use Rattle.std.specs.Prelude.{Bool, List};

    ghost Value = { List Bool };

    ghost view = { λ d. d.marks.items };
}

impl DataMarks {
    /// Those of an image.
    pub fn new(alloc: Global, image: &Image) -> Result<DataMarks, NoMemory>
        ensures { IfOk result (λ marks. marks ≡ data_marks image.now) }
    {
        let mut marks = Vec::new(alloc);
        push_statics(&mut marks, image.statics())?;
        for d in 0..image.data_arrays() {
            let array = image.data_row(d).unwrap();
            let refers = is_of_references(image.shapes().element_of(array.kind));
            push_array(&mut marks, refers, array.length)?;
        }
        Ok(DataMarks { marks })
    }
}

/// Whether there is a type, and it is one of references.
fn is_of_references(ty: Option<FieldTy>) -> bool
    ensures { result ≡ option_map_or is_reference ty false }
{
    match ty {
        Some(found) => found.is_reference(),
        None => false,
    }
}

/// The marks of statics of these types.
fn push_statics(marks: &mut Vec<bool>, types: &[FieldTy]) -> Result<(), NoMemory>
    ensures { OnOk result (marks.new.items ≡ marks.old.items ++ map is_reference types.now) }
{
    for ty in types {
        marks.push(ty.is_reference())?;
    }
    Ok(())
}

/// The marks of a data array of so many elements, which are references or not.
fn push_array(marks: &mut Vec<bool>, refers: bool, elements: u32) -> Result<(), NoMemory>
    ensures { OnOk result (marks.new.items ≡ marks.old.items ++ false ∷ false ∷ replicate elements refers) }
{
    marks.push(false)?;
    marks.push(false)?;
    marks.resize(marks.len() + elements as usize, refers)?;
    Ok(())
}

/// The marked words of the data area that are still to come.
#[derive(Drop)]
pub struct MarkedWords<'a> {
    marks: &'a [bool],
    words: &'a [u32],
}

impl<'a> Model for MarkedWords<'a> {
    ghost use Rattle.std.specs.Prelude.{ℕ, List};
    ghost use Rattle.root_words.specs.DataArea.{marked_words};

    ghost Value = { List ℕ };

    ghost view = { λ d. marked_words d.marks.now d.words.now };
}

impl<'a> MarkedWords<'a> {
    /// All of them.
    pub fn new(marks: &'a DataMarks, words: &'a [u32]) -> MarkedWords<'a>
        ensures { result ≡ marked_words marks.now words.now }
    {
        MarkedWords {
            marks: &marks.marks,
            words,
        }
    }

    /// The next one. None exactly where all were given.
    pub fn next(&mut self) -> Option<u32>
        ensures { GivesNext result self.old self.new }
    {
        while let Some((mark, marks)) = self.marks.split_first() {
            self.marks = marks;
            match self.words.split_first() {
                None => return None,
                Some((word, words)) => {
                    self.words = words;
                    if *mark {
                        return Some(*word);
                    }
                }
            }
        }
        None
    }
}

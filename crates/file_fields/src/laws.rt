// What holds of every grammar of a type: a law for each type, since a clause speaks of given types alone.
ghost use Rattle.file_fields.specs.Grammar.{Grammar};
ghost use Rattle.file_fields.specs.Laws.{OneMeaning, EachIsOne, EndsByMost, NumberMeanings};

/// A file has one first fault, or stands for one thing.
pub fn one_meaning<T>()
    ensures { (g : Grammar T) → OneMeaning g }
{
    ia32_code::laws::prefix_law();
}

/// Each file of bytes stands for something, or has a first fault.
pub fn each_is_one<T>()
    ensures { (g : Grammar T) → EachIsOne g }
{
    ia32_code::laws::prefix_law();
    ia32_code::laws::decoded_law();
}

/// A file that ends inside a field is no longer than its fields reach.
pub fn ends_by_most<T>()
    ensures { (g : Grammar T) → EndsByMost g }
{
    ia32_code::laws::spelling_length();
}

/// What numbers in a file stand for.
pub fn number_meanings()
    ensures { NumberMeanings }
{}

// What holds of the definitions alone. Each law is a function that calls the laws on which it rests, and whose clause is the
// law.
ghost use Rattle.tal_listing.specs.Laws.{WordsMeanSpelling, EveryByteListed};

use code_words::laws::words_say_one_instruction;
use ia32_code::laws::{canonical_is_shortest, front_law, spelling_length};

/// The words of a line mean the canonical spelling of its instruction.
pub fn words_mean_the_spelling()
    ensures { WordsMeanSpelling }
{
    words_say_one_instruction();
    canonical_is_shortest();
}

/// Every byte of an image's code stands in a line, and the bytes of a line spell its instruction.
pub fn every_byte_is_listed()
    ensures { EveryByteListed }
{
    front_law();
    spelling_length();
}

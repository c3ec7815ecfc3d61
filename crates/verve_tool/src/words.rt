// The words of a command.
ghost use Rattle.std.specs.Prelude.{◌≡◌, ◌≢◌, ◌≤◌, ◌∷◌, [], ℕ, List, decimal, map, string_bytes, MatchOption};
ghost use Rattle.verve_tool.specs.Runs.{RunWords, AllowsRun};
ghost use Rattle.verve_tool.specs.Commands.{WordsOf, NoCommand};
ghost use Rattle.verve_tool.specs.Stops.{run_of, request_of};

use crate::runs::JOURNAL_TURNS;
use itoa::Buffer;
use kernel_machine::MOST_TURNS;

// What a command tells of a run.
#[derive(Clone, Copy)]
pub(crate) enum RunText {
    // The report.
    Report,
    // The report, and the entries of the journal.
    Journal,
}

// A run of an image over events for so many turns at most.
#[derive(Clone, Copy)]
pub(crate) struct RunCommand<'a> {
    pub(crate) image: &'a str,
    pub(crate) events: &'a str,
    pub(crate) turns: u32,
}

// What the words ask for.
#[derive(Clone, Copy)]
pub(crate) enum Command<'a> {
    Check(&'a str),
    List(&'a str),
    Run(RunText, RunCommand<'a>),
    Asm { text: &'a str, unit: &'a str },
}

// The turns are a decimal number as it is printed, so without leading zeros or a sign.
fn read_turns(word: &str, most: u32) -> Option<u32>
    ensures { MatchOption result
        ((n : ℕ) → 1 ≤ n → n ≤ most → word.now ≡ decimal n → ⊥)
        (λ n. (word.now ≡ decimal n) × (1 ≤ n) × (n ≤ most)) }
{
    let Ok(number) = word.parse::<u32>() else {
        return None;
    };
    let mut buffer = Buffer::new();
    if number == 0 || number > most || buffer.format(number) != word {
        return None;
    }
    Some(number)
}

// The names and the turns of a run, if the words are these.
fn read_run(words: &[String], most: u32) -> Option<RunCommand<'_>>
    ensures { MatchOption result
        ((run : RunWords) → map string_bytes words.now ≡ run.image ∷ run.events ∷ decimal run.turns ∷ [] → AllowsRun most run → ⊥)
        (λ run. (map string_bytes words.now ≡ run.image.now ∷ run.events.now ∷ decimal run.turns ∷ []) × AllowsRun most (run_of run)) }
{
    let [image, events, turns] = words else {
        return None;
    };
    if image.is_empty() || events.is_empty() {
        return None;
    }
    let turns = read_turns(turns.as_str(), most)?;
    Some(RunCommand {
        image: image.as_str(),
        events: events.as_str(),
        turns,
    })
}

// The name of a file, if the words are one.
fn read_name(words: &[String]) -> Option<&str>
    ensures { MatchOption result
        ((name : List ℕ) → map string_bytes words.now ≡ name ∷ [] → name ≢ [] → ⊥)
        (λ name. (map string_bytes words.now ≡ name.now ∷ []) × (name.now ≢ [])) }
{
    let [name] = words else {
        return None;
    };
    if name.is_empty() {
        return None;
    }
    Some(name.as_str())
}

// The names of two files, if the words are these.
fn read_names(words: &[String]) -> Option<(&str, &str)>
    ensures { MatchOption result
        ((first second : List ℕ) → map string_bytes words.now ≡ first ∷ second ∷ [] → first ≢ [] → second ≢ [] → ⊥)
        (λ names. (map string_bytes words.now ≡ names.0.now ∷ names.1.now ∷ []) × (names.0.now ≢ []) × (names.1.now ≢ [])) }
{
    let [first, second] = words else {
        return None;
    };
    if first.is_empty() || second.is_empty() {
        return None;
    }
    Some((first.as_str(), second.as_str()))
}

// What the words ask for, if they are a command: the list of words.
pub(crate) fn read_words(words: &[String]) -> Option<Command<'_>>
    ensures { MatchOption result (NoCommand words.now) (λ command. WordsOf words.now (request_of command)) }
{
    let (word, operands) = words.split_first()?;
    match word.as_str() {
        "check" => Some(Command::Check(read_name(operands)?)),
        "list" => Some(Command::List(read_name(operands)?)),
        "run" => Some(Command::Run(RunText::Report, read_run(operands, MOST_TURNS)?)),
        "journal" => Some(Command::Run(RunText::Journal, read_run(operands, JOURNAL_TURNS)?)),
        "asm" => {
            let (text, unit) = read_names(operands)?;
            Some(Command::Asm { text, unit })
        }
        _ => None,
    }
}

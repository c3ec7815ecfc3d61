// What a stopped command tells on the error stream: one line, put in pieces, for which no memory is taken.
ghost use Rattle.std.specs.Prelude.{◌≡◌, ◌<◌, [], ◌∷◌, ◌++◌};
ghost use Rattle.std.specs.List.{flat_map};
ghost use Rattle.device_model.specs.declared.events.EventFault.{EventFault};
ghost use Rattle.hex_text.specs.Words.{word_text};
ghost use Rattle.file_fields.specs.declared.fault.ImageFault.{ImageFault};
ghost use Rattle.tal_syntax.specs.declared.fault.TextFault.{TextFault};
ghost use Rattle.verve_tool.specs.Lines.{Says, file_line, bad_line, fault_line, events_line, event_fault_line, text_line, refused_line, answer_line};
ghost use Rattle.verve_tool.specs.Stops.{line_of};

use crate::stop::Stop;
use device_model::EventFault;
use hex_text::word_digits;
use itoa::Buffer;
use outside::Sink;
use tal_checker::CheckAnswer;
use tal_image::ImageFault;
use tal_syntax::TextFault;

// Puts these pieces, up to the first that is not taken: so the stream has a front of them, and no later piece behind a gap.
fn say<E: Sink>(err: &mut E, pieces: &[&[u8]])
    ensures { Says (E.faults err.old) (E.faults err.new) (E.told err.old) (E.told err.new) (flat_map (λ p. p.now) pieces.now) }
{
    for piece in pieces {
        if err.put(piece).is_err() {
            return;
        }
    }
}

fn say_place<E: Sink>(err: &mut E, name: &str, at: u32, what: &[u8])
    ensures { Says (E.faults err.old) (E.faults err.new) (E.told err.old) (E.told err.new) (file_line name.now at what.now) }
{
    let mut number = Buffer::new();
    let at = number.format(at);
    say(
        err,
        &[b"file ", name.as_bytes(), b" at ", at.as_bytes(), what],
    );
}

fn say_bad<E: Sink>(err: &mut E, name: &str, at: u32, condition: u32)
    ensures { Says (E.faults err.old) (E.faults err.new) (E.told err.old) (E.told err.new) (bad_line name.now at condition) }
{
    let mut number = Buffer::new();
    let at = number.format(at);
    let mut other = Buffer::new();
    let condition = other.format(condition);
    say(
        err,
        &[
            b"file ",
            name.as_bytes(),
            b" at ",
            at.as_bytes(),
            b" bad ",
            condition.as_bytes(),
            b"\n",
        ],
    );
}

fn say_fault<E: Sink>(err: &mut E, name: &str, fault: ImageFault)
    ensures { Says (E.faults err.old) (E.faults err.new) (E.told err.old) (E.told err.new) (fault_line name.now fault) }
{
    match fault {
        ImageFault::Magic => say_place(err, name, 0, b" magic\n"),
        ImageFault::Version => say_place(err, name, 4, b" version\n"),
        ImageFault::Short { at } => say_place(err, name, at, b" short\n"),
        ImageFault::Rest { at } => say_place(err, name, at, b" rest\n"),
        ImageFault::Bad { at, field } => say_bad(err, name, at, field),
        ImageFault::NoMemory => say(err, &[b"no memory\n"]),
    }
}

fn say_events<E: Sink>(err: &mut E, line: u32, what: &[u8])
    ensures { Says (E.faults err.old) (E.faults err.new) (E.told err.old) (E.told err.new) (events_line line what.now) }
{
    let mut number = Buffer::new();
    let line = number.format(line);
    say(err, &[b"events line ", line.as_bytes(), what]);
}

fn say_event_fault<E: Sink>(err: &mut E, fault: EventFault)
    ensures { Says (E.faults err.old) (E.faults err.new) (E.told err.old) (E.told err.new) (event_fault_line fault) }
{
    match fault {
        EventFault::Syntax { line } => say_events(err, line, b" syntax\n"),
        EventFault::Range { line } => say_events(err, line, b" range\n"),
        EventFault::TooMany { line } => say_events(err, line, b" many\n"),
        EventFault::NoMemory => say(err, &[b"no memory\n"]),
    }
}

fn say_text<E: Sink>(err: &mut E, fault: TextFault)
    ensures { Says (E.faults err.old) (E.faults err.new) (E.told err.old) (E.told err.new) (text_line fault) }
{
    let mut number = Buffer::new();
    let line = number.format(fault.line);
    let mut second = Buffer::new();
    let column = second.format(fault.column);
    let mut third = Buffer::new();
    let code = third.format(fault.code);
    say(
        err,
        &[
            b"text line ",
            line.as_bytes(),
            b" column ",
            column.as_bytes(),
            b" code ",
            code.as_bytes(),
            b"\n",
        ],
    );
}

fn say_refused<E: Sink>(err: &mut E, address: u32, rule: u8)
    ensures { Says (E.faults err.old) (E.faults err.new) (E.told err.old) (E.told err.new) (refused_line address rule) }
{
    let mut number = Buffer::new();
    let rule = number.format(rule);
    say(
        err,
        &[
            b"refused at ",
            &word_digits(address),
            b" rule ",
            rule.as_bytes(),
            b"\n",
        ],
    );
}

fn say_answer<E: Sink>(err: &mut E, answer: CheckAnswer)
    ensures { Says (E.faults err.old) (E.faults err.new) (E.told err.old) (E.told err.new) (answer_line answer) }
{
    match answer {
        CheckAnswer::Refused { address, rule } => say_refused(err, address, rule),
        CheckAnswer::NoMemory => say(err, &[b"no memory\n"]),
    }
}

// Puts the line that tells why the command stopped. A failure of the stream changes nothing else.
pub(crate) fn complain<E: Sink>(err: &mut E, stop: &Stop<'_>)
    ensures { Says (E.faults err.old) (E.faults err.new) (E.told err.old) (E.told err.new) (line_of stop.now) }
{
    match *stop {
        Stop::Usage => say(err, &[b"usage\n"]),
        Stop::Read(name) => say(err, &[b"read ", name.as_bytes(), b"\n"]),
        Stop::Write => say(err, &[b"write\n"]),
        Stop::Long(name) => say(err, &[b"long ", name.as_bytes(), b"\n"]),
        Stop::Image(name, fault) => say_fault(err, name, fault),
        Stop::NotAccepted(answer) => say_answer(err, answer),
        Stop::Events(fault) => say_event_fault(err, fault),
        Stop::Text(fault) => say_text(err, fault),
        Stop::NoMemory => say(err, &[b"no memory\n"]),
    }
}

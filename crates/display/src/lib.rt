// The hall display: two lines of sixteen characters, driven by a format string. A text step and a specification step call each other until the string ends.
#![tactic(auto)]

mod fields;
mod formats;
mod numbers;
mod screen;

ghost use Rattle.std.specs.Prelude.{◌≡◌};
ghost use Rattle.display.specs.Fields.{read_by, argument_of};
ghost use Rattle.display.specs.Displays.{display_replied, display_reply};
ghost use Rattle.display.specs.Steps.{field_said, page_said, page_from, page_behind};

use fields::{Value, field_of};
use formats::{Kind, specification_at};
use recorder::Recorder;
use screen::Screen;

// The refusals of a display.
#[derive(Clone, Copy, Debug, PartialEq, Eq)]
pub enum DisplayError {
    NoRoom,
    Format,
    Argument,
}

// The field that the next three argument bytes name: group, register, field.
#[tactic(auto, unfolding(crate::specs::Fields::argument_of))]
fn argument_at(recorder: &Recorder, arguments: &[u8]) -> Option<Value>
    ensures { field_said result ≡ argument_of (read_by recorder.now) arguments.now }
{
    let [group, register, field, ..] = arguments else {
        return None;
    };
    field_of(*recorder, *group, *register, *field)
}

// The text step: plain text and line breaks up to the next specification, or to the end. A backslash without an n is text.
#[cycle(specification_text)]
#[tactic(auto, using(crate::proofs::Pages::text_end))]
fn text(
    recorder: &Recorder,
    format: &[u8],
    arguments: &[u8],
    screen: Screen,
) -> Result<Screen, DisplayError>
    ensures { page_said result ≡ page_from recorder.now format.now arguments.now screen }
{
    let mut rest = format;
    let mut shown = screen;
    while let [byte, behind @ ..] = rest {
        if *byte == b'%' {
            return specification(recorder, behind, arguments, shown);
        }
        if rest.starts_with(b"\\n") {
            shown = shown.next_line();
            rest = &rest[2..];
        } else {
            shown = shown.put(*byte);
            rest = behind;
        }
    }
    Ok(shown)
}

// The specification step: what stands behind a per cent, and then text again. A bad one, or one that cannot be shown, ends the string.
#[cycle(specification_text)]
#[tactic(auto, using(crate::proofs::Pages::specified))]
fn specification(
    recorder: &Recorder,
    format: &[u8],
    arguments: &[u8],
    screen: Screen,
) -> Result<Screen, DisplayError>
    ensures { page_said result ≡ page_behind recorder.now format.now arguments.now screen }
{
    let found = specification_at(format).ok_or(DisplayError::Format)?;
    let rest = &format[found.bytes..];
    match found.kind {
        Kind::Date => {
            let dated = screen.put_date(recorder.state.clock);
            text(recorder, rest, arguments, dated)
        }
        Kind::Time => {
            let timed = screen.put_time(recorder.state.clock);
            text(recorder, rest, arguments, timed)
        }
        Kind::Number(form) => {
            let value = argument_at(recorder, arguments).ok_or(DisplayError::Argument)?;
            let numbered = screen.put_number(form, value);
            text(recorder, rest, &arguments[3..], numbered)
        }
    }
}

// Two lines of sixteen characters in the first 32 bytes of the buffer. A refused display changes no byte of it.
#[tactic(auto, using(crate::proofs::Pages::replies))]
pub fn show(
    recorder: Recorder,
    format: &[u8],
    arguments: &[u8],
    buf: &mut [u8],
) -> Result<(), DisplayError>
    ensures { display_replied result buf.new ≡ display_reply recorder format.now arguments.now buf.old }
{
    if buf.len() < 32 {
        return Err(DisplayError::NoRoom);
    }
    let shown = text(&recorder, format, arguments, Screen::blank())?;
    buf[..32].copy_from_slice(&shown.cells);
    Ok(())
}

// The lines that answer calls, each with its end.
#![tactic(auto, using(crate::proofs::Laws::split), unfolding(laws::specs::Letters::letters, crate::specs::Texts::with_bytes, crate::specs::Answers::shown_line, crate::specs::Answers::image_part, crate::specs::Answers::value_line, crate::specs::Answers::date_line, crate::specs::Answers::fleet_line, crate::specs::Answers::error_line))]

mod dates;
mod errors;
mod numbers;
mod texts;

ghost use Rattle.std.specs.Prelude.{◌≡◌, [], ◌++◌, Err, take};
ghost use Rattle.laws.specs.Answers.{given, refused};
ghost use Rattle.calendar.specs.Moments.{moment_of};
ghost use Rattle.sampling.specs.Samples.{sample_number};
ghost use Rattle.recorder.specs.Calls.{start_number, set_number, reading_number};
ghost use Rattle.recorder.specs.Readout.{readout_number};
ghost use Rattle.readout.specs.DataSets.{value_place};
ghost use Rattle.readout.specs.Answers.{block_answer, line_number};
ghost use Rattle.image.specs.Answers.{image_said, image_answer, write_said};
ghost use Rattle.profile.specs.Reading.{record_said};
ghost use Rattle.registers.specs.Registers.{register_said};
ghost use Rattle.makers.specs.Lists.{list_number};
ghost use Rattle.makers.specs.Requests.{maker_said};
ghost use Rattle.display.specs.Displays.{display_said};
ghost use Rattle.answers.specs.Texts.{with_bytes, as_text};
ghost use Rattle.laws.specs.Decimals.{decimal_of};
ghost use Rattle.answers.specs.Numbers.{hex_of};
ghost use Rattle.answers.specs.Answers.{ok_line, refused_line, refused_at, refused_after, number_line, reading_line, samples_line, start_line, register_line, record_line, shown_line, display_line, image_part, block_line, value_line, data_set_line, line_end, date_line, classes_text, fleet_line, error_line};

use display::DisplayError;
use image::{ImageError, WriteError};
use lines::Mistake;
use makers::{MakerError, NoMaker};
use readout::{NoBlock, NumberError, Place};
use recorder::{ReadingError, ReadoutError, RecordError, SampleError, SetError, Stamp, StartError};
use registers::{Fleet, RegisterError};

// A text of at most 256 letters: the first `length` bytes, and zeros behind them. The law `TextIs` names both fields, so it is no `ArrayVec`.
#[derive(Clone, Copy)]
pub struct Text {
    pub bytes: [u8; 256],
    pub length: usize,
}

// A call that was taken.
pub fn ok() -> Text
    ensures { result ≡ as_text ok_line }
{
    Text::blank().letters(b"ok\n")
}

fn refused(number: u64) -> Text
    ensures { result ≡ as_text (refused_line number) }
{
    let refused = Text::blank().letters(b"refused ").number(number);
    refused.letters(b"\n")
}

fn refused_at(number: u64, offset: usize) -> Text
    ensures { result ≡ as_text (refused_at number offset) }
{
    let refused = Text::blank().letters(b"refused ").number(number);
    refused
        .letters(b" at ")
        .number(offset as u64)
        .letters(b"\n")
}

fn refused_after(number: u64, taken: u64) -> Text
    ensures { result ≡ as_text (refused_after number taken) }
{
    let refused = Text::blank().letters(b"refused ").number(number);
    refused.letters(b" after ").number(taken).letters(b"\n")
}

// Why an image is refused, and where.
fn image_refused(error: ImageError) -> Text
    ensures { result ≡ as_text (start_line (image_said (Err error))) }
{
    match error {
        ImageError::Length => refused_at(1, 0),
        ImageError::Mark => refused_at(2, 0),
        ImageError::Version => refused_at(3, 3),
        ImageError::Value(offset) => refused_at(4, offset),
    }
}

// The check of an image, as the image tester prints it.
pub fn check_line(bytes: &[u8]) -> Text
    ensures { result ≡ as_text (start_line (image_answer bytes.now)) }
{
    match image::check_image(bytes) {
        Ok(()) => ok(),
        Err(error) => image_refused(error),
    }
}

pub fn start_line(answer: Result<(), StartError>) -> Text
    ensures { result ≡ as_text (start_line (start_number answer)) }
{
    match answer {
        Ok(()) => ok(),
        Err(StartError::ProfileBuffer) => refused_at(14, 0),
        Err(StartError::NotFitted) => refused_at(8, 0),
        Err(StartError::Image(error)) => image_refused(error),
        Err(StartError::NoDate) => refused_at(9, 0),
    }
}

// Of samples `taken` were, before the one that was refused.
pub fn samples_line(answer: Result<(), SampleError>, taken: u32) -> Text
    ensures { result ≡ as_text (samples_line (sample_number answer) taken) }
{
    match answer {
        Ok(()) => ok(),
        Err(SampleError::ProfileBuffer) => refused_after(14, taken as u64),
        Err(SampleError::ClockEnd) => refused_after(5, taken as u64),
        Err(SampleError::Full) => refused_after(6, taken as u64),
    }
}

pub fn set_line(answer: Result<(), SetError>) -> Text
    ensures { result ≡ as_text (number_line (set_number answer)) }
{
    match answer {
        Ok(()) => ok(),
        Err(SetError::ProfileBuffer) => refused(14),
        Err(SetError::NoDate) => refused(9),
    }
}

pub fn reading_line(answer: Result<Stamp, ReadingError>) -> Text
    ensures { result ≡ as_text (reading_line (reading_number answer)) }
{
    match answer {
        Ok(Stamp::Renewed) => Text::blank().letters(b"renewed\n"),
        Ok(Stamp::Kept) => Text::blank().letters(b"kept\n"),
        Err(ReadingError::NoMeter) => refused(7),
        Err(ReadingError::NotFitted) => refused(8),
        Err(ReadingError::BadReading) => refused(10),
    }
}

pub fn readout_line(answer: Result<Stamp, ReadoutError>) -> Text
    ensures { result ≡ as_text (reading_line (readout_number answer)) }
{
    match answer {
        Ok(stamp) => reading_line(Ok(stamp)),
        Err(ReadoutError::Block) => refused(16),
        Err(ReadoutError::Line) => refused(17),
        Err(ReadoutError::NotANumber) => refused(18),
        Err(ReadoutError::DoesNotFit) => refused(19),
        Err(ReadoutError::Reading(error)) => reading_line(Err(error)),
    }
}

// The check of a block.
pub fn block_line(bytes: &[u8]) -> Text
    ensures { result ≡ as_text (block_line (block_answer bytes.now)) }
{
    match readout::check_block(bytes) {
        Ok(()) => ok(),
        Err(NoBlock) => refused(16),
    }
}

fn value_line(place: Place, number: i32) -> Text
    ensures { result ≡ as_text (value_line place number) }
{
    let at = Text::blank().letters(b"value ").number(place.start as u64);
    let size = at.letters(b" ").number(place.length as u64);
    size.letters(b" ").signed(i64::from(number)).letters(b"\n")
}

// The data set in a line: where its value stands, and the number of it.
pub fn dataset_line(line: &[u8], decimals: u8) -> Text
    ensures { result ≡ as_text (data_set_line (value_place line.now) (line_number line.now decimals)) }
{
    let Some(place) = readout::value_place(line) else {
        return refused(17);
    };
    let value = &line[place.start..place.start + place.length];
    match readout::whole_number(value, decimals) {
        Ok(number) => value_line(place, number),
        Err(NumberError::NotANumber) => refused(18),
        Err(NumberError::DoesNotFit) => refused(19),
    }
}

fn hex_line(bytes: &[u8]) -> Text
    ensures { result ≡ as_text (hex_of bytes.now ++ line_end) }
{
    Text::blank().hex(bytes).letters(b"\n")
}

// The first bytes of a buffer.
fn first_bytes(bytes: [u8; 13], count: usize) -> Text
    ensures { result ≡ as_text (hex_of (take count bytes) ++ line_end) }
{
    hex_line(&bytes[..count.min(13)])
}

// The bytes that were given stand first in the buffer; the longest register has 13.
pub fn register_line(answer: Result<usize, RegisterError>, bytes: [u8; 13]) -> Text
    ensures { result ≡ as_text (register_line (register_said answer) bytes) }
{
    match answer {
        Ok(count) => first_bytes(bytes, count),
        Err(RegisterError::NoGroup) => refused(11),
        Err(RegisterError::NoRegister) => refused(12),
        Err(RegisterError::NotFitted) => refused(8),
        Err(RegisterError::NoRoom) => refused(13),
    }
}

pub fn list_line(answer: Result<(), NoMaker>) -> Text
    ensures { result ≡ as_text (number_line (list_number answer)) }
{
    match answer {
        Ok(()) => ok(),
        Err(NoMaker) => refused(20),
    }
}

// What a maker is answered: as the operator, where there is such a maker.
pub fn maker_line(answer: Result<usize, MakerError>, bytes: [u8; 13]) -> Text
    ensures { result ≡ as_text (register_line (maker_said answer) bytes) }
{
    match answer {
        Ok(count) => register_line(Ok(count), bytes),
        Err(MakerError::NoMaker) => refused(20),
        Err(MakerError::Register(error)) => register_line(Err(error), bytes),
    }
}

// The bytes of a record, where it was given.
pub fn record_line(answer: Result<(), RecordError>, bytes: [u8; 69]) -> Text
    ensures { result ≡ as_text (record_line (record_said answer) bytes) }
{
    match answer {
        Ok(()) => hex_line(&bytes),
        Err(RecordError::ProfileBuffer) => refused(14),
        Err(RecordError::NoRecord) => refused(15),
        Err(RecordError::NoRoom) => refused(13),
    }
}

// The two lines of the display stand one after the other in the buffer.
fn shown_line(bytes: [u8; 32]) -> Text
    ensures { result ≡ as_text (shown_line bytes) }
{
    let first = Text::blank().letters(b"|").letters(&bytes[..16]);
    let second = first.letters(b"|").letters(&bytes[16..]);
    second.letters(b"|\n")
}

// What the display shows, where nothing is refused.
pub fn display_line(answer: Result<(), DisplayError>, bytes: [u8; 32]) -> Text
    ensures { result ≡ as_text (display_line (display_said answer) bytes) }
{
    match answer {
        Ok(()) => shown_line(bytes),
        Err(DisplayError::NoRoom) => refused(13),
        Err(DisplayError::Format) => refused(21),
        Err(DisplayError::Argument) => refused(22),
    }
}

// At most 100 bytes from a place on, and the line's end behind the last.
fn hex_part(bytes: &[u8], from: usize) -> Text
    ensures { result ≡ as_text (image_part (given tt) bytes.now from) }
{
    let rest = &bytes[from.min(bytes.len())..];
    if rest.len() <= 100 {
        return hex_line(rest);
    }
    Text::blank().hex(&rest[..100])
}

// A refusal stands where the line begins.
fn refused_part(number: u64, offset: usize, from: usize) -> Text
    ensures { result ≡ as_text (image_part (refused number offset) [] from) }
{
    if from == 0 {
        return refused_at(number, offset);
    }
    Text::blank()
}

// The line of an image, in parts: from byte 0 on, from byte 100 on, and so to the last.
pub fn image_part(answer: Result<(), WriteError>, image: &[u8], from: usize) -> Text
    ensures { result ≡ as_text (image_part (write_said answer) image.now from) }
{
    match answer {
        Ok(()) => hex_part(image, from),
        Err(WriteError::Value(offset)) => refused_part(4, offset, from),
        Err(WriteError::NoRoom) => refused_part(13, 0, from),
    }
}

// The moment of a second.
pub fn date_line(seconds: u32) -> Text
    ensures { result ≡ as_text (date_line (moment_of seconds)) }
{
    match calendar::moment_of(seconds) {
        Some(m) => dates::moment_line(m),
        None => refused(9),
    }
}

impl Text {
    // A word and a count.
    fn count(self, word: &[u8], count: u8) -> Text
        ensures { result ≡ with_bytes self (word.now ++ decimal_of count) }
    {
        self.letters(word).number(count as u64)
    }

    fn classes(self, fleet: Fleet) -> Text
        ensures { result ≡ with_bytes self (classes_text fleet) }
    {
        let awake = self.count(b" awake ", fleet.awake);
        let stale = awake.count(b" stale ", fleet.stale);
        let invalid = stale.count(b" invalid ", fleet.invalid);
        invalid.count(b" never ", fleet.never)
    }
}

pub fn fleet_line(fleet: Fleet) -> Text
    ensures { result ≡ as_text (fleet_line fleet) }
{
    let fitted = Text::blank().count(b"fitted ", fleet.fitted);
    let sum = fitted.classes(fleet).letters(b" sum ");
    sum.signed(fleet.sum).letters(b"\n")
}

// What is wrong with the line of a number, counted from 1.
pub fn error_line(line: u64, mistake: Mistake) -> Text
    ensures { result ≡ as_text (error_line line mistake) }
{
    let number = Text::blank().letters(b"error: line ").number(line);
    number.letters(b": ").mistake(mistake).letters(b"\n")
}

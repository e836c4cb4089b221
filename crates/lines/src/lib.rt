// What a line of a text of calls asks for. A line is taken without its end.
#![tactic(auto)]

mod hex;
mod numbers;
mod words;

ghost use Rattle.std.specs.Prelude.{◌≡◌, ◌≤◌, IfOk, take};
ghost use Rattle.laws.specs.Parts.{part_of};
ghost use Rattle.lines.specs.Words.{word, text_after};
ghost use Rattle.lines.specs.Numbers.{whole_of, signed_of};
ghost use Rattle.lines.specs.Hex.{hex_bytes, as_bytes};
ghost use Rattle.lines.specs.Lines.{told, number32, number16, number8, number_or, request_of, readout_of, masks_of, slots_of, with_hex, has_words, asked_of, command_of, line_means};

// What a line asks.
#[derive(Clone, Copy)]
pub enum Line {
    // A blank line, or one that begins with #.
    Nothing,
    Start(u32),
    // Bits, and how many samples of them.
    Sample(u16, u32),
    Set(u32),
    // Meter, value, STATUS, SEQ.
    Reading(u8, i32, u8, u8),
    Reset,
    Register(Request),
    Image,
    Date(u32),
    Fleet,
    // Length, chosen slots.
    Profile(u32, [u8; 8]),
    // Index, room.
    Record(u32, u32),
    // Decimals; `text_after` gives TEXT, behind 2 words.
    Dataset(u8),
    // TEXT stands behind 5 words.
    Readout(Readout),
    // `hex_bytes` gives HEX, word 1.
    Block,
    // HEX is word 5, and TEXT stands behind 6.
    Blockreadout(Readout),
    // Maker, masks.
    List(u8, Masks),
    // Maker, and what it asks for.
    Maker(u8, Request),
    // Room; HEX is word 2, and TEXT stands behind 3.
    Display(u32),
}

// A register request.
#[derive(Clone, Copy)]
pub struct Request {
    pub group: u32,
    pub number: u32,
    pub room: u32,
}

// What was seen of a meter.
#[derive(Clone, Copy)]
pub struct Readout {
    pub meter: u8,
    pub status: u8,
    pub seq: u8,
    pub decimals: u8,
}

// What a maker's list names, a bit for each. The recorder's list has the same fields; this crate stands on no recorder.
#[derive(Clone, Copy)]
pub struct Masks {
    pub meters: u32,
    pub inputs: u16,
    pub slots: u16,
    pub bills: u16,
}

// The bytes of HEX, with zeros behind them.
#[derive(Clone, Copy)]
pub struct Bytes {
    pub bytes: [u8; 128],
    pub count: usize,
}

// What is wrong with a line.
#[derive(Clone, Copy)]
pub enum Mistake {
    // More than 255 letters.
    TooLong,
    // No command begins so.
    Unknown,
    // Words are missing, or there are too many.
    Words(Command),
    // A word is no number, or one that does not fit, or no HEX.
    Number(Parameter),
}

#[derive(Clone, Copy)]
pub enum Command {
    Start,
    Sample,
    Set,
    Reading,
    Reset,
    Register,
    Image,
    Date,
    Fleet,
    Profile,
    Record,
    Dataset,
    Readout,
    Block,
    Blockreadout,
    List,
    Maker,
    Display,
}

// The numbers that lines have, and HEX.
#[derive(Clone, Copy)]
pub enum Parameter {
    Seconds,
    Bits,
    Count,
    Meter,
    Value,
    Status,
    Seq,
    Group,
    Number,
    Room,
    Length,
    Index,
    Decimals,
    Hex,
    Maker,
    Meters,
    Inputs,
    Slots,
    Bills,
    // S0 to S7, by its number.
    Slot(u8),
}

// The commands by their words.
const COMMANDS: [(&[u8], Command); 18] = [
    (b"sample", Command::Sample),
    (b"start", Command::Start),
    (b"set", Command::Set),
    (b"reading", Command::Reading),
    (b"reset", Command::Reset),
    (b"register", Command::Register),
    (b"image", Command::Image),
    (b"date", Command::Date),
    (b"fleet", Command::Fleet),
    (b"profile", Command::Profile),
    (b"record", Command::Record),
    (b"dataset", Command::Dataset),
    (b"readout", Command::Readout),
    (b"block", Command::Block),
    (b"blockreadout", Command::Blockreadout),
    (b"list", Command::List),
    (b"maker", Command::Maker),
    (b"display", Command::Display),
];

fn command_of(word: &[u8]) -> Option<Command>
    ensures { result ≡ command_of word.now }
{
    COMMANDS
        .iter()
        .find(|entry| entry.0 == word)
        .map(|entry| entry.1)
}

// Word k as a number of at most `most`.
fn number(text: &[u8], k: usize, most: u32, what: Parameter) -> Result<u32, Mistake>
    ensures value { result ≡ told what (whole_of most (word k text.now)) }
    ensures bound { IfOk result (λ n. n ≤ most) }
{
    numbers::read_number(words::word(text, k), most).ok_or(Mistake::Number(what))
}

// One function over the width has no equation to promise, only what its conversion gives.
fn number8(text: &[u8], k: usize, what: Parameter) -> Result<u8, Mistake>
    ensures { result ≡ told what (number8 k text.now) }
{
    Ok(number(text, k, 255, what)? as u8)
}

fn number16(text: &[u8], k: usize, what: Parameter) -> Result<u16, Mistake>
    ensures { result ≡ told what (number16 k text.now) }
{
    Ok(number(text, k, 65535, what)? as u16)
}

fn number32(text: &[u8], k: usize, what: Parameter) -> Result<u32, Mistake>
    ensures { result ≡ told what (number32 k text.now) }
{
    number(text, k, u32::MAX, what)
}

// Word k as a number; `other` where there is no such word.
fn number_or(text: &[u8], k: usize, other: u32, what: Parameter) -> Result<u32, Mistake>
    ensures { result ≡ told what (number_or other k text.now) }
{
    if words::count(text) <= k {
        return Ok(other);
    }
    number32(text, k, what)
}

fn signed(text: &[u8], k: usize, what: Parameter) -> Result<i32, Mistake>
    ensures { result ≡ told what (signed_of (word k text.now)) }
{
    numbers::read_signed(words::word(text, k)).ok_or(Mistake::Number(what))
}

// What is asked with HEX in word k.
fn with_hex(text: &[u8], k: usize, line: Line) -> Result<Line, Mistake>
    ensures { result ≡ with_hex (word k text.now) line }
{
    if !hex::is_hex(words::word(text, k)) {
        return Err(Mistake::Number(Parameter::Hex));
    }
    Ok(line)
}

// Group, register and room, in the words from k on.
fn request_of(text: &[u8], k: usize) -> Result<Request, Mistake>
    requires { k ≤ 2 }
    ensures { result ≡ request_of k text.now }
{
    Ok(Request {
        group: number32(text, k, Parameter::Group)?,
        number: number32(text, k + 1, Parameter::Number)?,
        room: number_or(text, k + 2, 13, Parameter::Room)?,
    })
}

fn readout_of(text: &[u8]) -> Result<Readout, Mistake>
    ensures { result ≡ readout_of text.now }
{
    Ok(Readout {
        meter: number8(text, 1, Parameter::Meter)?,
        status: number8(text, 2, Parameter::Status)?,
        seq: number8(text, 3, Parameter::Seq)?,
        decimals: number8(text, 4, Parameter::Decimals)?,
    })
}

fn masks_of(text: &[u8]) -> Result<Masks, Mistake>
    ensures { result ≡ masks_of text.now }
{
    Ok(Masks {
        meters: number32(text, 2, Parameter::Meters)?,
        inputs: number16(text, 3, Parameter::Inputs)?,
        slots: number16(text, 4, Parameter::Slots)?,
        bills: number16(text, 5, Parameter::Bills)?,
    })
}

// The slots of a profile, in the words 2 to 9.
fn slots_of(text: &[u8]) -> Result<[u8; 8], Mistake>
    ensures { result ≡ slots_of text.now }
{
    let mut slots = [0; 8];
    for (k, slot) in slots.iter_mut().enumerate() {
        *slot = number8(text, k + 2, Parameter::Slot(k as u8))?;
    }
    Ok(slots)
}

// How many words a line of a command has; TEXT may be several.
fn has_words(command: Command, count: usize) -> bool
    ensures { result ≡ has_words command count }
{
    match command {
        Command::Start => count == 2,
        Command::Sample => count == 2 || count == 3,
        Command::Set => count == 2,
        Command::Reading => count == 5,
        Command::Reset => count == 1,
        Command::Register => count == 3 || count == 4,
        Command::Image => count == 1,
        Command::Date => count == 2,
        Command::Fleet => count == 1,
        Command::Profile => count == 10,
        Command::Record => count == 2 || count == 3,
        Command::Dataset => 3 <= count,
        Command::Readout => 6 <= count,
        Command::Block => count == 2,
        Command::Blockreadout => 7 <= count,
        Command::List => count == 6,
        Command::Maker => count == 4 || count == 5,
        Command::Display => 4 <= count,
    }
}

// What a line of a command asks, that has as many words.
fn ask(command: Command, text: &[u8]) -> Result<Line, Mistake>
    ensures { result ≡ asked_of command text.now }
{
    match command {
        Command::Start => Ok(Line::Start(number32(text, 1, Parameter::Seconds)?)),
        Command::Sample => Ok(Line::Sample(
            number16(text, 1, Parameter::Bits)?,
            number_or(text, 2, 1, Parameter::Count)?,
        )),
        Command::Set => Ok(Line::Set(number32(text, 1, Parameter::Seconds)?)),
        Command::Reading => Ok(Line::Reading(
            number8(text, 1, Parameter::Meter)?,
            signed(text, 2, Parameter::Value)?,
            number8(text, 3, Parameter::Status)?,
            number8(text, 4, Parameter::Seq)?,
        )),
        Command::Reset => Ok(Line::Reset),
        Command::Register => Ok(Line::Register(request_of(text, 1)?)),
        Command::Image => Ok(Line::Image),
        Command::Date => Ok(Line::Date(number32(text, 1, Parameter::Seconds)?)),
        Command::Fleet => Ok(Line::Fleet),
        Command::Profile => Ok(Line::Profile(
            number32(text, 1, Parameter::Length)?,
            slots_of(text)?,
        )),
        Command::Record => Ok(Line::Record(
            number32(text, 1, Parameter::Index)?,
            number_or(text, 2, 69, Parameter::Room)?,
        )),
        Command::Dataset => Ok(Line::Dataset(number8(text, 1, Parameter::Decimals)?)),
        Command::Readout => Ok(Line::Readout(readout_of(text)?)),
        Command::Block => with_hex(text, 1, Line::Block),
        Command::Blockreadout => with_hex(text, 5, Line::Blockreadout(readout_of(text)?)),
        Command::List => Ok(Line::List(number8(text, 1, Parameter::Maker)?, masks_of(text)?)),
        Command::Maker => Ok(Line::Maker(
            number8(text, 1, Parameter::Maker)?,
            request_of(text, 2)?,
        )),
        Command::Display => with_hex(text, 2, Line::Display(number32(text, 1, Parameter::Room)?)),
    }
}

// What a line asks, or what is wrong with it. A carriage return at its end is no part of it.
#[tactic(auto, unfolding(crate::specs::Lines::text_means))]
pub fn line_of(text: &[u8]) -> Result<Line, Mistake>
    ensures { result ≡ line_means text.now }
{
    let line = words::without_return(text);
    if 255 < line.len() {
        return Err(Mistake::TooLong);
    }
    if line.is_empty() || line[0] == b'#' {
        return Ok(Line::Nothing);
    }
    let command = command_of(words::word(line, 0)).ok_or(Mistake::Unknown)?;
    if !has_words(command, words::count(line)) {
        return Err(Mistake::Words(command));
    }
    ask(command, line)
}

// TEXT of a line: the part behind its first k words and the blank after them, without the carriage return; an empty part where there is no such blank.
pub fn text_after(text: &[u8], k: usize) -> &[u8]
    ensures { part_of result ≡ text_after k text.entry }
{
    let line = words::without_return(text);
    match words::word_start(line, k) {
        Some(start) => &text[start..line.len()],
        None => &text[..0],
    }
}

// The bytes of word k of a line, if it is HEX.
pub fn hex_bytes(text: &[u8], k: usize) -> Bytes
    ensures value { result ≡ as_bytes (hex_bytes k text.now) }
    ensures items { take result.count result.bytes ≡ hex_bytes k text.now }
{
    let line = words::without_return(text);
    let held = hex::bytes_of(words::word(line, k));
    let count = held.len();
    let mut bytes = [0; 128];
    bytes[..count].copy_from_slice(held.as_slice());
    Bytes { bytes, count }
}

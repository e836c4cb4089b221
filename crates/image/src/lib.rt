// The configuration read from an image and written to one. Its types, the rule of each entry and the check are those of crate settings, passed on.
#![tactic(auto)]

mod entry;
mod read;
mod write;

ghost use Rattle.std.specs.Prelude.{◌≡◌, length};
ghost use Rattle.image.specs.Image.{blank_config};
ghost use Rattle.image.specs.Answers.{image_said, write_said, image_answer, image_read, write_answer, after_write, come_back, image_copy};
ghost use Rattle.image.specs.declared.ImageError.{ImageError};
ghost use Rattle.image.specs.declared.WriteError.{WriteError};

pub use settings::{BadValue, Config, Input, Register, Slot, check_config};
use tariff::{Date, Holiday, Program, Rule, Season, Window};

// How many bytes an image has.
pub const IMAGE_LENGTH: usize = 1126;

// Why an image is refused; an entry that breaks its rule comes with its offset.
#[derive(Clone, Copy, Debug, PartialEq, Eq)]
pub enum ImageError {
    Length,
    Mark,
    Version,
    Value(usize),
}

impl From<BadValue> for ImageError {
    ghost from_gives = { λ bad e. e ≡ ImageError.Value bad.offset };

    fn from(bad: BadValue) -> ImageError {
        ImageError::Value(bad.offset)
    }
}

// Why no image is written.
#[derive(Clone, Copy, Debug, PartialEq, Eq)]
pub enum WriteError {
    Value(usize),
    NoRoom,
}

impl From<BadValue> for WriteError {
    ghost from_gives = { λ bad e. e ≡ WriteError.Value bad.offset };

    fn from(bad: BadValue) -> WriteError {
        WriteError::Value(bad.offset)
    }
}

// All zeros: the configuration where no image was accepted.
#[tactic(auto, unfolding(crate::specs::Image::blank_program, crate::specs::Image::blank_config))]
pub fn blank_config() -> Config
    ensures { result ≡ blank_config }
{
    Config {
        period: 0,
        inputs: [Input {
            kind: 0,
            shortest: 0,
            longest: 0,
            numerator: 0,
            denominator: 0,
        }; 16],
        sums: [0; 8],
        coefficients: [0; 32],
        slots: [Slot { level: 0, index: 0 }; 16],
        limits: [0; 32],
        program: Program {
            windows: [Window { first: 0, end: 0 }; 128],
            weeks: [0; 128],
            seasons: [Season {
                first: Date { day: 0, month: 0 },
                second: Date { day: 0, month: 0 },
            }; 8],
            holidays: [Holiday {
                day: 0,
                month: 0,
                year: 0,
            }; 32],
            rules: [Rule { season: 0, week: 0 }; 16],
        },
        registers: [Register { sum: 0, rule: 0 }; 16],
    }
}

// The check of an image: refused for its length, its letters, its version, then for the first entry that breaks its rule.
pub fn check_image(bytes: &[u8]) -> Result<(), ImageError>
    ensures { image_said result ≡ image_answer bytes.now }
{
    if bytes.len() != IMAGE_LENGTH {
        return Err(ImageError::Length);
    }
    if !bytes.starts_with(b"KRC") {
        return Err(ImageError::Mark);
    }
    if u16::from_le_bytes([bytes[3], bytes[4]]) != 1 {
        return Err(ImageError::Version);
    }
    check_config(read::config(bytes))?;
    Ok(())
}

// Reads an image. The check alone, which is asked for more often, makes no configuration to hand back; so this one makes it again.
pub fn read_image(bytes: &[u8]) -> Result<Config, ImageError>
    ensures { image_said result ≡ image_read bytes.now }
{
    check_image(bytes)?;
    Ok(read::config(bytes))
}

// Writes the image of a configuration into the first bytes of the buffer. A refusal leaves every byte.
pub fn write_image(config: Config, buffer: &mut [u8]) -> Result<(), WriteError>
    ensures said { write_said result ≡ write_answer config (length buffer.old) }
    ensures buffer { buffer.new ≡ after_write config buffer.old }
{
    check_config(config)?;
    if buffer.len() < IMAGE_LENGTH {
        return Err(WriteError::NoRoom);
    }
    write::config(buffer, config);
    Ok(())
}

// Writes a configuration and reads it back: a good one comes back as it was.
pub fn write_then_read(config: Config) -> Result<Config, ImageError>
    ensures { image_said result ≡ come_back config }
{
    let mut image = [0u8; IMAGE_LENGTH];
    match write_image(config, &mut image) {
        Ok(()) => read_image(&image),
        Err(WriteError::Value(offset)) => Err(ImageError::Value(offset)),
        Err(WriteError::NoRoom) => unreachable!(),
    }
}

// Reads an image and writes it anew: an accepted one comes back byte by byte.
pub fn read_then_write(bytes: &[u8]) -> Result<[u8; IMAGE_LENGTH], ImageError>
    ensures { image_said result ≡ image_copy bytes.now }
{
    let config = read_image(bytes)?;
    let mut image = [0u8; IMAGE_LENGTH];
    write_image(config, &mut image).unwrap();
    Ok(image)
}

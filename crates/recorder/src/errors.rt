// Why calls are refused, and what becomes of a stamp.
ghost use Rattle.std.specs.Prelude.{◌≡◌};
ghost use Rattle.recorder.specs.Readout.{line_refusal};
ghost use Rattle.recorder.specs.declared.errors.ReadoutError.{ReadoutError};
ghost use Rattle.recorder.specs.declared.errors.StartError.{StartError};

use image::ImageError;
use readout::{LineError, NoBlock};

// Why a start is refused.
#[derive(Clone, Copy, Debug, PartialEq, Eq)]
pub enum StartError {
    ProfileBuffer,
    NotFitted,
    Image(ImageError),
    NoDate,
}

impl From<ImageError> for StartError {
    ghost from_gives = { λ image error. error ≡ StartError.Image image };

    fn from(image: ImageError) -> StartError {
        StartError::Image(image)
    }
}

// Why a clock set is refused.
#[derive(Clone, Copy, Debug, PartialEq, Eq)]
pub enum SetError {
    ProfileBuffer,
    NoDate,
}

// What became of the stamp of a meter that was read.
#[derive(Clone, Copy, Debug, PartialEq, Eq)]
pub enum Stamp {
    Renewed,
    Kept,
}

// Why a reading is refused.
#[derive(Clone, Copy, Debug, PartialEq, Eq)]
pub enum ReadingError {
    NoMeter,
    NotFitted,
    BadReading,
}

// Why a data set is not booked as a reading.
#[derive(Clone, Copy, Debug, PartialEq, Eq)]
pub enum ReadoutError {
    Block,
    Line,
    NotANumber,
    DoesNotFit,
    Reading(ReadingError),
}

impl From<NoBlock> for ReadoutError {
    ghost from_gives = { λ block error. error ≡ ReadoutError.Block };

    fn from(_block: NoBlock) -> ReadoutError {
        ReadoutError::Block
    }
}

impl From<LineError> for ReadoutError {
    ghost from_gives = { λ line error. error ≡ line_refusal line };

    fn from(line: LineError) -> ReadoutError {
        match line {
            LineError::Line => ReadoutError::Line,
            LineError::NotANumber => ReadoutError::NotANumber,
            LineError::DoesNotFit => ReadoutError::DoesNotFit,
        }
    }
}

impl From<ReadingError> for ReadoutError {
    ghost from_gives = { λ reading error. error ≡ ReadoutError.Reading reading };

    fn from(reading: ReadingError) -> ReadoutError {
        ReadoutError::Reading(reading)
    }
}

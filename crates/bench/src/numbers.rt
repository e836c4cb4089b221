// What answers come to in a check sum.
use calendar::Moment;
use image::ImageError;
use makers::MakerError;
use readout::NumberError;
use recorder::{RecordError, SampleError, SetError};
use registers::RegisterError;

pub(crate) trait Number {
    fn number(self) -> u64;
}

// What was given, or the refusal.
impl<T: Number, E: Number> Number for Result<T, E> {
    fn number(self) -> u64 {
        match self {
            Ok(given) => given.number(),
            Err(error) => error.number(),
        }
    }
}

impl Number for () {
    fn number(self) -> u64 {
        0
    }
}

impl Number for usize {
    fn number(self) -> u64 {
        self as u64
    }
}

impl Number for SampleError {
    fn number(self) -> u64 {
        match self {
            SampleError::ProfileBuffer => 14,
            SampleError::ClockEnd => 5,
            SampleError::Full => 6,
        }
    }
}

impl Number for SetError {
    fn number(self) -> u64 {
        match self {
            SetError::ProfileBuffer => 14,
            SetError::NoDate => 9,
        }
    }
}

impl Number for ImageError {
    fn number(self) -> u64 {
        match self {
            ImageError::Length => 1,
            ImageError::Mark => 2,
            ImageError::Version => 3,
            ImageError::Value(offset) => offset as u64,
        }
    }
}

impl Number for RegisterError {
    fn number(self) -> u64 {
        match self {
            RegisterError::NoGroup => 100,
            RegisterError::NoRegister => 101,
            RegisterError::NotFitted => 102,
            RegisterError::NoRoom => 103,
        }
    }
}

impl Number for MakerError {
    fn number(self) -> u64 {
        match self {
            MakerError::NoMaker => 104,
            MakerError::Register(error) => error.number(),
        }
    }
}

impl Number for RecordError {
    fn number(self) -> u64 {
        match self {
            RecordError::ProfileBuffer => 14,
            RecordError::NoRecord => 15,
            RecordError::NoRoom => 13,
        }
    }
}

impl Number for NumberError {
    fn number(self) -> u64 {
        match self {
            NumberError::NotANumber => 18,
            NumberError::DoesNotFit => 19,
        }
    }
}

// All that there is of it; 0 where there is none. By powers: with `u64::from_le_bytes` a moment takes 138 instructions for 126, and misses its bar.
impl Number for Option<Moment> {
    fn number(self) -> u64 {
        let Some(m) = self else {
            return 0;
        };
        u64::from(m.year)
            + u64::from(m.month) * 0x1_0000
            + u64::from(m.day) * 0x100_0000
            + u64::from(m.weekday) * 0x1_0000_0000
            + u64::from(m.hour) * 0x100_0000_0000
            + u64::from(m.minute) * 0x1_0000_0000_0000
            + u64::from(m.second) * 0x100_0000_0000_0000
    }
}

// What the dashboard's host, written in C, asks directly: numbers and bytes only. Crate host_c gives it these functions, and include/recorder.h declares them.
#![tactic(auto)]

ghost use Rattle.std.specs.Prelude.{◌≡◌, ◌<◌};
ghost use Rattle.laws.specs.Answers.{given, refused};
ghost use Rattle.calendar.specs.Moments.{moment_of};
ghost use Rattle.image.specs.Answers.{image_answer};
ghost use Rattle.recorder.specs.Meters.{age_of};
ghost use Rattle.host.specs.Host.{image_number, moment_number, said_yes, answer_number};

use calendar::Moment;
use image::ImageError;
use recorder::AgeError;

// The number of a refusal, and the offset that goes with it.
fn refusal(number: u32, offset: usize) -> u32
    requires { (number < 10) × (offset < 1126) }
    ensures { result ≡ image_number (refused number offset) }
{
    number * 65536 + (offset as u32)
}

// 0 where the image is accepted.
#[tactic(auto, using(image::proofs::Refusals::refusal_within))]
pub fn recorder_image_check(image: &[u8]) -> u32
    ensures { result ≡ image_number (image_answer image.now) }
{
    match image::check_image(image) {
        Ok(()) => 0,
        Err(ImageError::Length) => refusal(1, 0),
        Err(ImageError::Mark) => refusal(2, 0),
        Err(ImageError::Version) => refusal(3, 3),
        Err(ImageError::Value(offset)) => refusal(4, offset),
    }
}

// Two bytes for the year and one for each other field, the year lowest.
fn packed(m: Moment) -> u64
    ensures { result ≡ moment_number (given m) }
{
    let [low, high] = m.year.to_le_bytes();
    u64::from_le_bytes([
        low, high, m.month, m.day, m.weekday, m.hour, m.minute, m.second,
    ])
}

// 0 where the second has no date.
pub fn recorder_calendar(seconds: u32) -> u64
    ensures { result ≡ moment_number (moment_of seconds) }
{
    calendar::moment_of(seconds).map_or(0, packed)
}

// The class of a meter, or the number of the refusal. `read` is 0 where the meter was never read.
pub fn recorder_age_class(limit: u32, read: u32, stamp: u32, status: u32, clock: u32) -> u32
    ensures { result ≡ answer_number (age_of limit (said_yes read) stamp status clock) }
{
    match recorder::age_answer(limit, read != 0, stamp, status, clock) {
        Ok(age) => age as u32,
        Err(AgeError::NotFitted) => 8,
        Err(AgeError::BadStatus) => 10,
    }
}

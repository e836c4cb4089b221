// The functions of crate host under their C names, with the same clauses: the static library that a C program links. include/recorder.h declares them.
#![tactic(auto)]

ghost use Rattle.std.specs.Prelude.{◌≡◌};
ghost use Rattle.calendar.specs.Moments.{moment_of};
ghost use Rattle.image.specs.Answers.{image_answer};
ghost use Rattle.recorder.specs.Meters.{age_of};
ghost use Rattle.host.specs.Host.{image_number, moment_number, said_yes, answer_number};

// 0 where the image is accepted.
#[unsafe(no_mangle)]
pub extern "C" fn recorder_image_check(image: &[u8]) -> u32
    ensures { result ≡ image_number (image_answer image.now) }
{
    host::recorder_image_check(image)
}

// 0 where the second has no date.
#[unsafe(no_mangle)]
pub extern "C" fn recorder_calendar(seconds: u32) -> u64
    ensures { result ≡ moment_number (moment_of seconds) }
{
    host::recorder_calendar(seconds)
}

// The class of a meter, or the number of the refusal. `read` is 0 where the meter was never read.
#[unsafe(no_mangle)]
pub extern "C" fn recorder_age_class(
    limit: u32,
    read: u32,
    stamp: u32,
    status: u32,
    clock: u32,
) -> u32
    ensures { result ≡ answer_number (age_of limit (said_yes read) stamp status clock) }
{
    host::recorder_age_class(limit, read, stamp, status, clock)
}

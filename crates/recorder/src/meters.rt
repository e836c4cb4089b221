// Serial meters: how old a reading is.
ghost use Rattle.std.specs.Prelude.{◌≡◌};
ghost use Rattle.recorder.specs.Meters.{age_number, class_of, age_said, age_of};

// The classes of a fitted meter, by the numbers that registers and C give them.
#[derive(Clone, Copy, Debug, PartialEq, Eq)]
pub enum Age {
    Awake = 0,
    Stale = 1,
    Invalid = 2,
    Never = 3,
}

// Why a host is told no class.
#[derive(Clone, Copy, Debug, PartialEq, Eq)]
pub enum AgeError {
    NotFitted,
    BadStatus,
}

// Numbers one by one and no `Meter`, as `recorder_age_class` of C and `class_of` have them.
// Never before the first reading; stale if the stamp is ahead of the clock, or the clock past it by more than the limit; else invalid if IV is set; else awake.
#[tactic(auto, unfolding(crate::specs::Meters::class_of))]
pub fn age_class(limit: u32, read: bool, stamp: u32, status: u32, clock: u32) -> Age
    ensures { age_number result ≡ class_of limit read stamp status clock }
{
    if !read {
        Age::Never
    } else if clock < stamp || clock - stamp > limit {
        Age::Stale
    } else if status % 2 == 1 {
        Age::Invalid
    } else {
        Age::Awake
    }
}

// The same for a host that knows the numbers alone: limit 0 and a STATUS above 7 are refused, in this order.
#[tactic(auto, unfolding(crate::specs::Meters::age_of))]
pub fn age_answer(
    limit: u32,
    read: bool,
    stamp: u32,
    status: u32,
    clock: u32,
) -> Result<Age, AgeError>
    ensures { age_said result ≡ age_of limit read stamp status clock }
{
    if limit == 0 {
        return Err(AgeError::NotFitted);
    }
    if status > 7 {
        return Err(AgeError::BadStatus);
    }
    Ok(age_class(limit, read, stamp, status, clock))
}

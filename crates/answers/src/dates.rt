// The line of a moment.
ghost use Rattle.std.specs.Prelude.{◌≡◌};
ghost use Rattle.laws.specs.Answers.{given};
ghost use Rattle.answers.specs.Texts.{with_bytes, as_text};
ghost use Rattle.answers.specs.Answers.{weekday_name, day_text, time_text, date_line};

use crate::Text;
use calendar::Moment;

#[tactic(auto, unfolding(laws::specs::Letters::letters, crate::specs::Answers::weekday_name))]
fn weekday(day: u8) -> &'static [u8]
    ensures { result.now ≡ weekday_name day }
{
    match day {
        0 => b"Monday",
        1 => b"Tuesday",
        2 => b"Wednesday",
        3 => b"Thursday",
        4 => b"Friday",
        5 => b"Saturday",
        _ => b"Sunday",
    }
}

impl Text {
    fn day(self, m: Moment) -> Text
        ensures { result ≡ with_bytes self (day_text m) }
    {
        let day = self.two_digits(m.day as u64).letters(b".");
        let month = day.two_digits(m.month as u64).letters(b".");
        month
            .two_digits((m.year / 100) as u64)
            .two_digits(m.year as u64)
    }

    fn time(self, m: Moment) -> Text
        ensures { result ≡ with_bytes self (time_text m) }
    {
        let hour = self.two_digits(m.hour as u64).letters(b":");
        let minute = hour.two_digits(m.minute as u64).letters(b":");
        minute.two_digits(m.second as u64)
    }
}

pub(crate) fn moment_line(m: Moment) -> Text
    ensures { result ≡ as_text (date_line (given m)) }
{
    let weekday = Text::blank().letters(weekday(m.weekday));
    weekday
        .letters(b" ")
        .day(m)
        .letters(b" ")
        .time(m)
        .letters(b"\n")
}

// What is wrong with a line.
ghost use Rattle.std.specs.Prelude.{◌≡◌};
ghost use Rattle.answers.specs.Texts.{with_bytes};
ghost use Rattle.answers.specs.Errors.{words_text, numbers_text, mistake_text};

use crate::Text;
use lines::{Command, Mistake, Parameter};

// What a command needs.
#[tactic(auto, unfolding(laws::specs::Letters::letters, crate::specs::Errors::words_text))]
fn needs(command: Command) -> &'static [u8]
    ensures { result.now ≡ words_text command }
{
    match command {
        Command::Start => b"start needs SECONDS",
        Command::Sample => b"sample needs BITS or BITS COUNT",
        Command::Set => b"set needs SECONDS",
        Command::Reading => b"reading needs METER VALUE STATUS SEQ",
        Command::Reset => b"reset stands alone",
        Command::Register => b"register needs GROUP NUMBER or GROUP NUMBER ROOM",
        Command::Image => b"image stands alone",
        Command::Date => b"date needs SECONDS",
        Command::Fleet => b"fleet stands alone",
        Command::Profile => b"profile needs LENGTH S0 S1 S2 S3 S4 S5 S6 S7",
        Command::Record => b"record needs INDEX or INDEX ROOM",
        Command::Dataset => b"dataset needs DECIMALS TEXT",
        Command::Readout => b"readout needs METER STATUS SEQ DECIMALS TEXT",
        Command::Block => b"block needs HEX",
        Command::Blockreadout => b"blockreadout needs METER STATUS SEQ DECIMALS HEX TEXT",
        Command::List => b"list needs MAKER METERS INPUTS SLOTS BILLS",
        Command::Maker => b"maker needs MAKER GROUP NUMBER or MAKER GROUP NUMBER ROOM",
        Command::Display => b"display needs ROOM HEX TEXT",
    }
}

impl Text {
    // What a parameter can be.
    #[tactic(auto, using(crate::proofs::Laws::split), unfolding(laws::specs::Letters::letters, crate::specs::Errors::numbers_text))]
    fn limits(self, parameter: Parameter) -> Text
        ensures { result ≡ with_bytes self (numbers_text parameter) }
    {
        match parameter {
            Parameter::Seconds => self.letters(b"SECONDS is not a number from 0 to 4294967295"),
            Parameter::Bits => self.letters(b"BITS is not a number from 0 to 65535"),
            Parameter::Count => self.letters(b"COUNT is not a number from 0 to 4294967295"),
            Parameter::Meter => self.letters(b"METER is not a number from 0 to 255"),
            Parameter::Value => self.letters(
                b"VALUE is not a number from -2147483648 to 2147483647",
            ),
            Parameter::Status => self.letters(b"STATUS is not a number from 0 to 255"),
            Parameter::Seq => self.letters(b"SEQ is not a number from 0 to 255"),
            Parameter::Group => self.letters(b"GROUP is not a number from 0 to 4294967295"),
            Parameter::Number => self.letters(b"NUMBER is not a number from 0 to 4294967295"),
            Parameter::Room => self.letters(b"ROOM is not a number from 0 to 4294967295"),
            Parameter::Length => self.letters(b"LENGTH is not a number from 0 to 4294967295"),
            Parameter::Index => self.letters(b"INDEX is not a number from 0 to 4294967295"),
            Parameter::Decimals => self.letters(b"DECIMALS is not a number from 0 to 255"),
            Parameter::Hex => self.letters(b"HEX is not pairs of hexadecimal digits or -"),
            Parameter::Maker => self.letters(b"MAKER is not a number from 0 to 255"),
            Parameter::Meters => self.letters(b"METERS is not a number from 0 to 4294967295"),
            Parameter::Inputs => self.letters(b"INPUTS is not a number from 0 to 65535"),
            Parameter::Slots => self.letters(b"SLOTS is not a number from 0 to 65535"),
            Parameter::Bills => self.letters(b"BILLS is not a number from 0 to 65535"),
            Parameter::Slot(k) => {
                let slot = self.letters(b"S").number(k as u64);
                slot.letters(b" is not a number from 0 to 255")
            }
        }
    }

    #[tactic(auto, unfolding(laws::specs::Letters::letters, crate::specs::Errors::mistake_text))]
    pub(crate) fn mistake(self, mistake: Mistake) -> Text
        ensures { result ≡ with_bytes self (mistake_text mistake) }
    {
        match mistake {
            Mistake::TooLong => self.letters(b"longer than 255 bytes"),
            Mistake::Unknown => self.letters(b"no such command"),
            Mistake::Words(command) => self.letters(needs(command)),
            Mistake::Number(parameter) => self.limits(parameter),
        }
    }
}

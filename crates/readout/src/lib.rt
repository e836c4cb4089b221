// What meters send by themselves (CR 4): data sets, the numbers in them, and the blocks around them. On bytes alone.
#![tactic(auto)]

mod blocks;
mod data_sets;
mod numbers;

ghost use Rattle.std.specs.Prelude.{◌≡◌, ◌≤◌, ℕ, Bool, length};
ghost use Rattle.laws.specs.Leading.{leading};
ghost use Rattle.readout.specs.Answers.{line_said, line_number, line_error};

pub use blocks::{NoBlock, check_block};
pub use data_sets::{Place, value_place, value_text};
pub use numbers::{NumberError, whole_number};

#[derive(Clone, Copy, Debug, PartialEq, Eq)]
pub enum LineError {
    // The line is no data set.
    Line,
    NotANumber,
    DoesNotFit,
}

impl From<NumberError> for LineError {
    ghost from_gives = { λ error result. result ≡ line_error error };

    fn from(error: NumberError) -> LineError {
        match error {
            NumberError::NotANumber => LineError::NotANumber,
            NumberError::DoesNotFit => LineError::DoesNotFit,
        }
    }
}

// How many bytes in front pass a test.
fn leading<F: Fn(u8) -> bool>(text: &[u8], test: F) -> usize
    ghost p: { ℕ → Bool }
    requires can { F.IsAlwaysCallable test }
    requires says { (b : ℕ) (r : Bool) → F.post test b r → r ≡ p b }
    ensures count { result ≡ leading p text.now }
    ensures most { result ≤ length text.now }
{
    text.iter().position(|b| !test(*b)).unwrap_or(text.len())
}

// The value of a data set as a whole number. No value is empty, so an empty part is no data set.
pub fn line_number(line: &[u8], decimals: u8) -> Result<i32, LineError>
    ensures { line_said result ≡ line_number line.now decimals }
{
    let text = value_text(line);
    if text.is_empty() {
        return Err(LineError::Line);
    }
    Ok(whole_number(text, decimals)?)
}

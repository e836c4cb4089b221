// The block around the lines of a readout.
ghost use Rattle.std.specs.Prelude.{◌≡◌};
ghost use Rattle.readout.specs.Blocks.{xor_from};
ghost use Rattle.readout.specs.Answers.{block_answer, block_said};

const STX: u8 = 2;

const ETX: u8 = 3;

// The bytes are no block.
#[derive(Clone, Copy, Debug, PartialEq, Eq)]
pub struct NoBlock;

// The exclusive or of bytes.
fn check_byte(bytes: &[u8]) -> u8
    ensures { result ≡ xor_from 0 bytes.now }
{
    bytes.iter().fold(0, |check, b| check ^ b)
}

// STX, bytes other than ETX, ETX, and the exclusive or of all behind STX.
pub fn check_block(bytes: &[u8]) -> Result<(), NoBlock>
    ensures { block_said result ≡ block_answer bytes.now }
{
    let [STX, inside @ .., ETX, check] = bytes else {
        return Err(NoBlock);
    };
    if inside.contains(&ETX) || *check != check_byte(&bytes[1..bytes.len() - 1]) {
        return Err(NoBlock);
    }
    Ok(())
}

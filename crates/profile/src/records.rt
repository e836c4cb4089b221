// One record: its 69 bytes, and the eight values that it has.
ghost use Rattle.std.specs.Prelude.{◌≡◌, ◌+◌, ◌≤◌, length};
ghost use Rattle.std.proofs.lemmas.List.Edits.{sets};
ghost use Rattle.std.specs.Int.{w64};
ghost use Rattle.std.proofs.Common.{of_z};
ghost use Rattle.laws.specs.Runs.{joined};
ghost use Rattle.profile.specs.Records.{slots_fit, value_at, chosen_values, value_bytes, record_bytes};

// How many bytes a record has.
pub const RECORD_LENGTH: usize = 69;

// What is kept of a closed period: its closing time, its state, and the values of the chosen slots.
#[derive(Clone, Copy)]
pub struct Record {
    pub stamp: u32,
    pub state: u8,
    pub values: [i64; 8],
}

// Two's complement.
pub fn bits64(z: i64) -> u64
    ensures { result ≡ of_z w64 z }
{
    z.cast_unsigned()
}

// The value of a slot; one past the sixteenth has none.
fn value_at(values: [i64; 16], slot: u8) -> i64
    ensures { result ≡ value_at values slot }
{
    values.get(usize::from(slot)).copied().unwrap_or(0)
}

// Whether each chosen slot is one of the sixteen.
pub fn slots_fit(slots: [u8; 8]) -> bool
    ensures { result ≡ slots_fit slots }
{
    slots.iter().all(|slot| *slot <= 15)
}

// The values of the chosen slots.
pub fn choose(slots: [u8; 8], values: [i64; 16]) -> [i64; 8]
    ensures { result ≡ chosen_values slots values }
{
    slots.map(|slot| value_at(values, slot))
}

// The eight values one after another, from a place on.
fn put_values(buffer: &mut [u8], at: usize, values: [i64; 8])
    requires { at + 64 ≤ length buffer.old }
    ensures { buffer.new ≡ sets buffer.old at (joined value_bytes values) }
{
    for (k, value) in values.iter().enumerate() {
        let from = at + 8 * k;
        buffer[from..from + 8].copy_from_slice(&bits64(*value).to_le_bytes());
    }
}

// A record in the 69 bytes from a place on.
pub(crate) fn put_record(buffer: &mut [u8], at: usize, newest: Record)
    requires { at + 69 ≤ length buffer.old }
    ensures { buffer.new ≡ sets buffer.old at (record_bytes newest) }
{
    buffer[at..at + 4].copy_from_slice(&newest.stamp.to_le_bytes());
    buffer[at + 4] = newest.state;
    put_values(buffer, at + 5, newest.values);
}

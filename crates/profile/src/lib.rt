// The load profile: a record of each closed period in a lent buffer, the newest in the room of the oldest where the room is used up.
#![tactic(auto)]

mod records;

ghost use Rattle.std.specs.Prelude.{◌≡◌, ◌<◌};
ghost use Rattle.profile.specs.Room.{legal_length, as_at_start, room_of, within, next_place, moved_on, kept, with_record};
ghost use Rattle.profile.specs.Reading.{held_in, oldest_of, place_at, record_replied, record_reply};

use records::put_record;
pub use records::{RECORD_LENGTH, Record, bits64, choose, slots_fit};

// How many bytes may be lent at most.
const LONGEST: usize = 65536;

// Where the records stand in the lent buffer: its length at the start, the place of the next record, counted in records, and how many are held.
#[derive(Clone, Copy)]
pub struct Profile {
    pub length: usize,
    pub next: usize,
    pub held: usize,
}

// Why a request for a record is refused.
#[derive(Clone, Copy, Debug, PartialEq, Eq)]
pub enum RecordError {
    ProfileBuffer,
    NoRecord,
    NoRoom,
}

// Whether a buffer of this length may be lent at a start.
pub fn legal_length(length: usize) -> bool
    ensures { result ≡ legal_length length }
{
    (RECORD_LENGTH..=LONGEST).contains(&length)
}

// A place, from the first again past the last.
#[tactic(auto, unfolding(crate::specs::Room::within))]
fn within(room: usize, place: usize) -> usize
    ensures { result ≡ within room place }
{
    if place < room { place } else { 0 }
}

impl Profile {
    // Whether a lent buffer is as long as at the start.
    pub fn as_at_start(self, length: usize) -> bool
        ensures { result ≡ as_at_start self length }
    {
        legal_length(length) && length == self.length
    }

    // How many whole records the buffer has room for.
    fn room(self) -> usize
        ensures { result ≡ room_of self }
    {
        self.length / RECORD_LENGTH
    }

    // The place of the next record. It is within the room in every profile that calls can reach.
    fn place(self) -> usize
        ensures { result ≡ next_place self }
    {
        within(self.room(), self.next)
    }

    // One record more is held, as many as fit, and the next place is the one behind it.
    #[tactic(auto, using(crate::proofs::Places::within_small), unfolding(crate::specs::Room::moved_on))]
    fn moved_on(self) -> Profile
        ensures { result ≡ moved_on self }
    {
        let room = self.room();
        Profile {
            next: within(room, self.place() + 1),
            held: self.held.saturating_add(1).min(room),
            ..self
        }
    }

    // Puts one record. A buffer that is not as long as at the start is left alone.
    #[tactic(auto, using(crate::proofs::Places::next_bytes), unfolding(crate::specs::Room::with_record, crate::specs::Room::written))]
    pub fn put(self, newest: Record, buffer: &mut [u8]) -> Profile
        ensures { kept result buffer.new ≡ with_record (kept self buffer.old) newest }
    {
        if !self.as_at_start(buffer.len()) {
            return self;
        }
        put_record(buffer, RECORD_LENGTH * self.place(), newest);
        self.moved_on()
    }

    // How many records are held.
    fn count(self) -> usize
        ensures { result ≡ held_in self }
    {
        self.held.min(self.room())
    }

    // The place of the oldest record: where the room is used up it is the next to be taken.
    fn oldest(self) -> usize
        ensures { result ≡ oldest_of self }
    {
        if self.held < self.room() {
            0
        } else {
            self.place()
        }
    }

    // The place of a record, counted from the oldest.
    #[tactic(auto, using(crate::proofs::Places::oldest_small), unfolding(crate::specs::Reading::place_at))]
    fn place_at(self, index: usize) -> usize
        requires { index < room_of self }
        ensures { result ≡ place_at self index }
    {
        let room = self.room();
        let place = self.oldest() + index;
        if place < room { place } else { place - room }
    }

    // Reads a record into the first bytes of a result, the oldest with index 0. A refused request changes no byte of it.
    #[tactic(auto, using(crate::proofs::Places::held_bytes), unfolding(crate::specs::Reading::record_reply))]
    pub fn read(self, index: u32, buffer: &[u8], res: &mut [u8]) -> Result<(), RecordError>
        ensures { record_replied result res.new ≡ record_reply self index buffer.now res.old }
    {
        if !self.as_at_start(buffer.len()) {
            return Err(RecordError::ProfileBuffer);
        }
        let i = index as usize;
        if self.count() <= i {
            return Err(RecordError::NoRecord);
        }
        if res.len() < RECORD_LENGTH {
            return Err(RecordError::NoRoom);
        }
        let at = RECORD_LENGTH * self.place_at(i);
        res[..RECORD_LENGTH].copy_from_slice(&buffer[at..at + RECORD_LENGTH]);
        Ok(())
    }
}

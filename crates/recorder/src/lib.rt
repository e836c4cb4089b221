// The recorder: what is fixed, what moves, and the calls that move it.
#![tactic(auto)]

mod errors;
mod meters;

ghost use Rattle.std.specs.Prelude.{◌≡◌, Err, length};
ghost use Rattle.profile.specs.Reading.{record_replied, record_reply};
ghost use Rattle.recorder.specs.Clock.{closed_bill};
ghost use Rattle.recorder.specs.Profile.{record_of, with_buffer};
ghost use Rattle.recorder.specs.Calls.{fresh_state, blank_recorder, fresh_start, start_said, started_said, start_reply, sampled_said, sample_lent, run_said, samples_lent, clock_set_said, set_lent, meter_read_said, reading_reply, reset_reply};
ghost use Rattle.recorder.specs.Readout.{readout_said, readout_reply, block_readout_reply};

pub use counting::{Bill, Line};
pub use errors::{ReadingError, ReadoutError, SetError, Stamp, StartError};
use image::{Config, Register};
pub use meters::{Age, AgeError, age_answer, age_class};
pub use profile::{Profile, RecordError};
use profile::{Record, choose, legal_length, slots_fit};
use readout::{check_block, line_number};
use sampling::clock::{close, close_with};
use sampling::samples::take;
pub use sampling::{Meter, Period, SampleError, State};
use std::array;

// What a maker may read, as masks: bit i names meter, input, slot or bill register i. Overlaps and things that are not fitted are legal.
#[derive(Clone, Copy)]
pub struct MakerList {
    pub meters: u32,
    pub inputs: u16,
    pub slots: u16,
    pub bills: u16,
}

// A list with nothing on it.
pub const EMPTY_LIST: MakerList = MakerList {
    meters: 0,
    inputs: 0,
    slots: 0,
    bills: 0,
};

// What else a start is given: the eight chosen slots of the load profile, and the lists of the three makers.
#[derive(Clone, Copy)]
pub struct Setup {
    pub slots: [u8; 8],
    pub lists: [MakerList; 3],
}

// What is fixed from the start on, what moves, and where the records of the load profile stand in the buffer that is lent to the calls.
#[derive(Clone, Copy)]
pub struct Recorder {
    pub state: State,
    pub config: Config,
    pub setup: Setup,
    pub profile: Profile,
}

// What a call is answered, and the recorder after it. The state goes by value, so the recorder is there whether the call was taken or refused.
#[derive(Clone, Copy)]
pub struct Answered<T, E> {
    pub recorder: Recorder,
    pub answer: Result<T, E>,
}

// A start is no `Result` of a recorder: `BlankRefuses` of crate demands states that a refused one hands back the blank recorder, and the program hall goes on with it.
pub type Start = Answered<(), StartError>;

pub type Sampled = Answered<(), SampleError>;

pub type ClockSet = Answered<(), SetError>;

pub type MeterRead = Answered<Stamp, ReadingError>;

pub type MeterReadout = Answered<Stamp, ReadoutError>;

// How many samples were taken, and the refusal that ended the run, if there was one.
#[derive(Clone, Copy)]
pub struct SampleRun {
    pub recorder: Recorder,
    pub taken: usize,
    pub answer: Result<(), SampleError>,
}

// A state with nothing booked, at a time.
#[tactic(auto, unfolding(crate::specs::Calls::fresh_state))]
fn fresh_state(time: u32) -> State
    ensures { result ≡ fresh_state time }
{
    let lines = [Line {
        run: 0,
        rejected: 0,
        remainder: 0,
        units: 0,
    }; 16];
    let bills = [Bill {
        amount: 0,
        closed: 0,
        stamp: 0,
        reset: false,
    }; 16];
    let meters = [Meter {
        read: false,
        stamp: 0,
        value: 0,
        status: 0,
        seq: 0,
    }; 32];
    let closed = Period {
        state: 0,
        stamp: 0,
        values: [0; 16],
    };
    State {
        clock: time,
        samples: 0,
        first: time,
        lines,
        bills,
        meters,
        closed,
    }
}

// All zeros, with nothing fitted: what a refused start hands back.
#[tactic(auto, unfolding(crate::specs::Calls::blank_recorder))]
fn blank_recorder() -> Recorder
    ensures { result ≡ blank_recorder }
{
    let setup = Setup {
        slots: [0; 8],
        lists: [EMPTY_LIST; 3],
    };
    Recorder::fresh(image::blank_config(), setup, 0, 0)
}

impl Setup {
    // The record of a closed period: the values of the chosen slots.
    fn record_of(self, period: Period) -> Record
        ensures { result ≡ record_of self period }
    {
        Record {
            stamp: period.stamp,
            state: period.state,
            values: choose(self.slots, period.values),
        }
    }
}

// The bill of a register in use is closed: the open amount is noted with the clock, and begins anew.
#[tactic(auto, unfolding(crate::specs::Clock::closed_bill))]
fn close_bill(register: Register, bill: Bill, clock: u32) -> Bill
    ensures { result ≡ closed_bill register bill clock }
{
    if register.sum < 8 {
        Bill {
            amount: 0,
            closed: bill.amount,
            stamp: clock,
            reset: true,
        }
    } else {
        bill
    }
}

impl Recorder {
    // A refused call leaves the recorder.
    fn refuse<T, E>(self, error: E) -> Answered<T, E>
        ensures { result ≡ record { recorder = self; answer = Err error } }
    {
        Answered {
            recorder: self,
            answer: Err(error),
        }
    }

    // With nothing booked and no record yet.
    fn fresh(config: Config, setup: Setup, length: usize, time: u32) -> Recorder
        ensures { result ≡ fresh_start setup length config time }
    {
        Recorder {
            state: fresh_state(time),
            config,
            setup,
            profile: Profile {
                length,
                next: 0,
                held: 0,
            },
        }
    }

    // A fresh recorder, if the image is accepted and the time has a date.
    #[tactic(auto, unfolding(crate::specs::Calls::start_reply, image::specs::Answers::image_config, image::specs::Answers::image_read))]
    fn started(bytes: &[u8], time: u32, setup: Setup, length: usize) -> Result<Recorder, StartError>
        ensures { started_said result ≡ start_reply setup length bytes.now time }
    {
        if !legal_length(length) {
            return Err(StartError::ProfileBuffer);
        }
        if !slots_fit(setup.slots) {
            return Err(StartError::NotFitted);
        }
        let config = image::read_image(bytes)?;
        if calendar::moment_of(time).is_none() {
            return Err(StartError::NoDate);
        }
        Ok(Recorder::fresh(config, setup, length, time))
    }

    // From an image and a time, with the chosen slots. The buffer for records is only lent for its length: nothing is written into it yet.
    pub fn start(bytes: &[u8], time: u32, setup: Setup, buffer: &[u8]) -> Start
        ensures { start_said result ≡ start_reply setup (length buffer.now) bytes.now time }
    {
        match Recorder::started(bytes, time, setup, buffer.len()) {
            Ok(recorder) => Answered {
                recorder,
                answer: Ok(()),
            },
            Err(error) => blank_recorder().refuse(error),
        }
    }

    // One lap, with the closing that it may bring.
    pub fn sample(self, bits: u16, buffer: &mut [u8]) -> Sampled
        ensures { with_buffer (sampled_said result) buffer.new ≡ sample_lent self bits buffer.old }
    {
        if !self.profile.as_at_start(buffer.len()) {
            return self.refuse(SampleError::ProfileBuffer);
        }
        let lap = take(self.config, self.state, &[bits]);
        let mut state = lap.state;
        let mut profile = self.profile;
        if lap.closes {
            state = close(self.config, state);
            profile = profile.put(self.setup.record_of(state.closed), buffer);
        }
        let recorder = Recorder {
            state,
            profile,
            ..self
        };
        Answered {
            recorder,
            answer: lap.answer,
        }
    }

    // The samples in order, up to the first refusal: `sample` one after another, lap after lap with the closings between them.
    pub fn samples(self, bits: &[u16], buffer: &mut [u8]) -> SampleRun
        ensures { with_buffer (run_said result) buffer.new ≡ samples_lent self bits.now buffer.old }
    {
        let mut state = self.state;
        let mut profile = self.profile;
        let mut taken: usize = 0;
        let mut answer = Err(SampleError::ProfileBuffer);
        if profile.as_at_start(buffer.len()) {
            loop {
                let lap = take(self.config, state, &bits[taken..]);
                taken += lap.taken;
                state = lap.state;
                answer = lap.answer;
                if !lap.closes {
                    break;
                }
                state = close(self.config, state);
                profile = profile.put(self.setup.record_of(state.closed), buffer);
            }
        }
        SampleRun {
            recorder: Recorder {
                state,
                profile,
                ..self
            },
            taken,
            answer,
        }
    }

    // The period closes at the old time as short; second and period start anew.
    #[tactic(auto, unfolding(crate::specs::Calls::set_lent, crate::specs::Clock::set_of, crate::specs::Clock::set_to, profile::specs::Room::with_record))]
    pub fn set_clock(self, seconds: u32, buffer: &mut [u8]) -> ClockSet
        ensures { with_buffer (clock_set_said result) buffer.new ≡ set_lent self seconds buffer.old }
    {
        if !self.profile.as_at_start(buffer.len()) {
            return self.refuse(SetError::ProfileBuffer);
        }
        if calendar::moment_of(seconds).is_none() {
            return self.refuse(SetError::NoDate);
        }
        let state = State {
            clock: seconds,
            samples: 0,
            ..close_with(self.config, self.state, 1, self.state.clock, seconds)
        };
        let recorder = Recorder {
            state,
            profile: self.profile.put(self.setup.record_of(state.closed), buffer),
            ..self
        };
        Answered {
            recorder,
            answer: Ok(()),
        }
    }

    #[tactic(auto, unfolding(crate::specs::Meters::reading_answer, crate::specs::Meters::stamping_of))]
    pub fn reading(self, meter: u8, value: i32, status: u8, seq: u8) -> MeterRead
        ensures { meter_read_said result ≡ reading_reply self meter value status seq }
    {
        let place = meter as usize;
        if place > 31 {
            return self.refuse(ReadingError::NoMeter);
        }
        if self.config.limits[place] == 0 {
            return self.refuse(ReadingError::NotFitted);
        }
        if status > 7 || seq > 31 {
            return self.refuse(ReadingError::BadReading);
        }
        let stored = self.state.meters[place];
        // The stored SEQ again is no sign of life; a first reading repeats nothing.
        let (answer, stamp) = if stored.read && stored.seq == seq {
            (Stamp::Kept, stored.stamp)
        } else {
            (Stamp::Renewed, self.state.clock)
        };
        let mut recorder = self;
        recorder.state.meters[place] = Meter {
            read: true,
            stamp,
            value,
            status,
            seq,
        };
        Answered {
            recorder,
            answer: Ok(answer),
        }
    }

    // Books the value of a data set as a reading: as a whole number with so many decimals. What the caller gives comes one by one, as in `readout_reply`.
    #[tactic(auto, unfolding(crate::specs::Readout::readout_reply))]
    pub fn readout(self, meter: u8, status: u8, seq: u8, decimals: u8, line: &[u8]) -> MeterReadout
        ensures { readout_said result ≡ readout_reply self meter status seq decimals line.now }
    {
        match line_number(line, decimals) {
            Ok(value) => {
                let read = self.reading(meter, value, status, seq);
                Answered {
                    recorder: read.recorder,
                    answer: read.answer.map_err(ReadoutError::from),
                }
            }
            Err(error) => self.refuse(error.into()),
        }
    }

    // The same with the block around it tested first.
    #[tactic(auto, unfolding(crate::specs::Readout::block_readout_reply))]
    pub fn block_readout(
        self,
        meter: u8,
        status: u8,
        seq: u8,
        decimals: u8,
        block: &[u8],
        line: &[u8],
    ) -> MeterReadout
        ensures { readout_said result ≡ block_readout_reply self meter status seq decimals block.now line.now }
    {
        match check_block(block) {
            Ok(()) => self.readout(meter, status, seq, decimals, line),
            Err(error) => self.refuse(error.into()),
        }
    }

    // The open amount of a register in use is noted with the clock, and begins anew.
    pub fn reset_bills(self) -> Recorder
        ensures { result ≡ reset_reply self }
    {
        let bills = array::from_fn(|j| close_bill(
            self.config.registers[j],
            self.state.bills[j],
            self.state.clock,
        ));
        Recorder {
            state: State {
                bills,
                ..self.state
            },
            ..self
        }
    }

    // Reads a record of the load profile into the first 69 bytes of a result, the oldest with index 0.
    pub fn read_record(self, index: u32, buffer: &[u8], res: &mut [u8]) -> Result<(), RecordError>
        ensures { record_replied result res.new ≡ record_reply self.profile index buffer.now res.old }
    {
        self.profile.read(index, buffer, res)
    }
}

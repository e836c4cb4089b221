// The jobs. What a round needs is made before the first, and what it gives is printed after the last.
use crate::numbers::Number;
use crate::report::{write_number, write_registers};
use image::IMAGE_LENGTH;
use recorder::{MakerList, Recorder, Setup};
use std::io;

// What the input has: an image, samples, and the line of a data set.
#[derive(Clone, Copy)]
pub(crate) struct Data {
    pub image: [u8; IMAGE_LENGTH],
    pub bits: [u16; 1000],
    pub line: [u8; 25],
}

// Tuesday 01.04.1997, 00:00.
const START: u32 = 859852800;

// A maker's list: all that has an even number.
const EVEN: MakerList = MakerList {
    meters: 0x5555_5555,
    inputs: 0x5555,
    slots: 0x5555,
    bills: 0x5555,
};

// A check sum of 32 bits.
fn mixed(sum: u64, number: u64) -> u64 {
    (sum % 4294967296 * 31 + number % 4294967296) % 4294967296
}

// Every second one is negative.
fn value_of(meter: u8) -> i32 {
    let value = i32::from(meter);
    if meter % 2 == 0 { value } else { !value }
}

// Seconds from the whole range of the clock, far from one another.
fn spread(i: u32) -> u32 {
    i.wrapping_mul(2654435761)
}

// One register: how many bytes were given, and the first of them.
fn read(recorder: Recorder, group: u32, register: u32) -> u64 {
    let mut bytes = [0u8; 13];
    let answer = registers::read_register(recorder, group, register, &mut bytes);
    mixed(answer.number(), u64::from(bytes[0]))
}

// One register of each group.
fn read_groups(recorder: Recorder, i: u32) -> u64 {
    let mut sum = read(recorder, 82, i % 32);
    sum = mixed(sum, read(recorder, 89, 0));
    sum = mixed(sum, read(recorder, 90, i % 32));
    sum = mixed(sum, read(recorder, 91, i % 16));
    sum = mixed(sum, read(recorder, 201, i % 16));
    sum = mixed(sum, read(recorder, 202, i % 16));
    sum = mixed(sum, read(recorder, 203, i % 16));
    sum = mixed(sum, read(recorder, 204, 0));
    mixed(sum, read(recorder, 206, 0))
}

// One register that a maker asks for.
fn own(recorder: Recorder, group: u32, register: u32) -> u64 {
    let mut bytes = [0u8; 13];
    let answer = makers::read_own(recorder, 1, group, register, &mut bytes);
    mixed(answer.number(), u64::from(bytes[0]))
}

// One register of each group that asks the list, by turns on it and off it, and the fleet of its meters.
fn own_groups(recorder: Recorder, i: u32) -> u64 {
    let mut sum = own(recorder, 82, i % 32);
    sum = mixed(sum, own(recorder, 201, i % 16));
    sum = mixed(sum, own(recorder, 202, i % 16));
    sum = mixed(sum, own(recorder, 203, i % 16));
    mixed(sum, own(recorder, 204, 0))
}

fn bytes_sum(sum: u64, bytes: &[u8]) -> u64 {
    bytes
        .iter()
        .fold(sum, |sum, byte| mixed(sum, u64::from(*byte)))
}

// One record of the 949 that are held, and another byte of it each time.
fn record(recorder: Recorder, i: u32, buffer: &[u8]) -> u64 {
    let mut bytes = [0u8; 69];
    let answer = recorder.read_record(i % 949, buffer, &mut bytes);
    let k = (i % 69) as usize;
    mixed(answer.map(|()| 69usize).number(), u64::from(bytes[k]))
}

// The number of a data set's value in two's complement, and how long the value is; of a refusal its number, and 0.
fn data_set(sum: u64, line: &[u8]) -> u64 {
    let text = readout::value_text(line);
    if text.is_empty() {
        return mixed(mixed(sum, 17), 0);
    }
    match readout::whole_number(text, 3) {
        Ok(number) => {
            let bits = profile::bits64(i64::from(number));
            mixed(mixed(sum, bits), text.len() as u64)
        }
        Err(error) => mixed(mixed(sum, error.number()), 0),
    }
}

// A job: its recorder, what the input has, and how often it is done. The buffer for records is lent to each call: in here it would be copied with the job.
#[derive(Drop)]
struct Job {
    recorder: Recorder,
    data: Data,
    rounds: u32,
}

impl Job {
    // With a reading of every meter that is fitted, with each STATUS and each SEQ.
    fn new(data: Data, rounds: u32, buffer: &[u8]) -> Job {
        let setup = Setup {
            slots: [0, 1, 2, 3, 4, 5, 6, 7],
            lists: [EVEN; 3],
        };
        let mut recorder = Recorder::start(&data.image, START, setup, buffer).recorder;
        for i in 0..32u8 {
            recorder = recorder.reading(i, value_of(i), i % 8, i).recorder;
        }
        Job {
            recorder,
            data,
            rounds,
        }
    }

    // All samples in one call, and then again. The check sum is of the refusals.
    fn samples(&mut self, buffer: &mut [u8]) -> u64 {
        let mut now = self.recorder;
        let mut sum = 0;
        for _ in 0..self.rounds {
            let run = now.samples(&self.data.bits, buffer);
            now = run.recorder;
            sum = mixed(sum, run.answer.number());
        }
        self.recorder = now;
        sum
    }

    // The same samples, each in a call of its own.
    fn singles(&mut self, buffer: &mut [u8]) -> u64 {
        let mut now = self.recorder;
        let mut sum = 0;
        let bits = self.data.bits;
        for _ in 0..self.rounds {
            for sample in &bits {
                let sampled = now.sample(*sample, buffer);
                now = sampled.recorder;
                sum = mixed(sum, sampled.answer.number());
            }
        }
        self.recorder = now;
        sum
    }

    // The image with another age limit each time, which breaks no rule.
    fn images(&self) -> u64 {
        let mut bytes = self.data.image;
        let mut sum = 0;
        for i in 0..(self.rounds as usize) {
            bytes[198 + i % 64] = (i % 256) as u8;
            sum = mixed(sum, image::check_image(&bytes).number());
        }
        sum
    }

    // The bills are reset after the samples.
    fn reset(&mut self, buffer: &mut [u8]) {
        let run = self.recorder.samples(&self.data.bits, buffer);
        self.recorder = run.recorder.reset_bills();
    }

    fn reads(&self) -> u64 {
        let recorder = self.recorder;
        (0..self.rounds).fold(0, |sum, i| mixed(sum, read_groups(recorder, i)))
    }

    fn own_reads(&self) -> u64 {
        let recorder = self.recorder;
        (0..self.rounds).fold(0, |sum, i| mixed(sum, own_groups(recorder, i)))
    }

    fn moments(&self) -> u64 {
        (0..self.rounds).fold(0, |sum, i| {
            let number = calendar::moment_of(spread(i)).number();
            mixed(mixed(sum, number), number / 4294967296)
        })
    }

    // A buffer that is full and more: 1,000 periods, each with ten samples and closed by a clock set.
    fn fill(&mut self, buffer: &mut [u8]) {
        let bits = self.data.bits;
        let mut now = self.recorder;
        for i in 0..1000u32 {
            let from = (i % 100 * 10) as usize;
            now = now.samples(&bits[from..from + 10], buffer).recorder;
            now = now.set_clock(spread(i), buffer).recorder;
        }
        self.recorder = now;
    }

    // A period is closed by a clock set, and its record put. The check sum is of the refusals, and then of the whole buffer.
    fn closes(&mut self, buffer: &mut [u8]) -> u64 {
        let mut now = self.recorder;
        let mut sum = 0;
        for i in 0..self.rounds {
            let set = now.set_clock(spread(i), buffer);
            now = set.recorder;
            sum = mixed(sum, set.answer.number());
        }
        bytes_sum(sum, buffer)
    }

    fn records(&self, buffer: &[u8]) -> u64 {
        let recorder = self.recorder;
        (0..self.rounds).fold(0, |sum, i| mixed(sum, record(recorder, i, buffer)))
    }

    // One data set, with another digit before the point each time. It comes with the input: of a line that it knows the compiler works out the number itself.
    fn data_sets(&self) -> u64 {
        let mut line = self.data.line;
        let mut sum = 0;
        for i in 0..self.rounds {
            line[15] = b'0' + (i % 10) as u8;
            sum = data_set(sum, &line);
        }
        sum
    }
}

// Each job prints its own sum: with one print for all, the sum is copied once more in each round.
pub(crate) fn run(rt: &impl Print, letter: u8, data: Data, rounds: u32) -> io::Result<()> {
    let mut buffer = [0u8; 65536];
    let mut job = Job::new(data, rounds, &buffer);
    match letter {
        b's' => {
            write_number(rt, job.samples(&mut buffer))?;
            write_registers(rt, job.recorder)
        }
        b'o' => {
            write_number(rt, job.singles(&mut buffer))?;
            write_registers(rt, job.recorder)
        }
        b'i' => write_number(rt, job.images()),
        b'r' => {
            job.reset(&mut buffer);
            write_number(rt, job.reads())
        }
        b'm' => {
            job.reset(&mut buffer);
            write_number(rt, job.own_reads())
        }
        b'c' => write_number(rt, job.moments()),
        b'p' => {
            job.fill(&mut buffer);
            write_number(rt, job.closes(&mut buffer))
        }
        b'l' => {
            job.fill(&mut buffer);
            write_number(rt, job.records(&buffer))
        }
        b'd' => write_number(rt, job.data_sets()),
        _ => Ok(()),
    }
}

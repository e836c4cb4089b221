// The calls on the recorder, each with its answer.
ghost use Rattle.std.specs.Prelude.{◌≤◌};

use crate::output::Output;
use answers::Text;
use image::IMAGE_LENGTH;
use lines::{Line, Masks, Readout, Request};
use recorder::{EMPTY_LIST, MakerList, Recorder, Setup};
use std::io;

// How many bytes the store for records has: one more than may be lent.
const STORE_LENGTH: usize = 65537;

// The store for records, and how many bytes of it are lent.
#[derive(Drop)]
struct Store {
    bytes: [u8; STORE_LENGTH],
    lent: usize,
}

impl Store {
    // No more of the store is lent than there is, which is too long already.
    fn part(&mut self) -> &mut [u8] {
        &mut self.bytes[..self.lent.min(STORE_LENGTH)]
    }
}

// The image, the recorder, what the next start is given (the chosen slots, the makers' lists), and the store.
#[derive(Drop)]
pub(crate) struct Hall<'a> {
    image: &'a [u8],
    recorder: Recorder,
    setup: Setup,
    store: Store,
}

// The room that is asked for, up to what the longest answer needs: more room answers the same.
fn room_of(room: u32, most: usize) -> usize
    ensures { result ≤ most }
{
    (room as usize).min(most)
}

impl<'a> Hall<'a> {
    // Before a start the recorder is the blank one, as after a refused start.
    pub(crate) fn new(image: &'a [u8]) -> Hall<'a> {
        let setup = Setup {
            slots: [0, 1, 2, 3, 4, 5, 6, 7],
            lists: [EMPTY_LIST; 3],
        };
        let start = Recorder::start(&[], 0, setup, &[]);
        Hall {
            image,
            recorder: start.recorder,
            setup,
            store: Store {
                bytes: [0; STORE_LENGTH],
                lent: 65536,
            },
        }
    }

    // What is lent from now on, and chosen by the next start.
    fn profile(&mut self, length: u32, slots: [u8; 8]) -> Text {
        self.store.lent = length as usize;
        self.setup.slots = slots;
        answers::ok()
    }

    // A maker's list, for the next start. `Masks` has the fields of `MakerList` once more, since crate lines stands on no recorder.
    fn list(&mut self, maker: u8, masks: Masks) -> Text {
        let list = MakerList {
            meters: masks.meters,
            inputs: masks.inputs,
            slots: masks.slots,
            bills: masks.bills,
        };
        let given = makers::give_list(self.setup, maker, list);
        answers::list_line(given.map(|setup| self.setup = setup))
    }

    fn start(&mut self, time: u32) -> Text {
        let start = Recorder::start(self.image, time, self.setup, self.store.part());
        self.recorder = start.recorder;
        answers::start_line(start.answer)
    }

    // In pieces of 512, to the first refusal: a call for each sample is a hundred times slower. The last piece is shorter, so what is left is counted.
    fn sample(&mut self, bits: u16, count: u32) -> Text {
        let piece = [bits; 512];
        let mut left = count;
        while 0 < left {
            let n = left.min(512);
            let run = self
                .recorder
                .samples(&piece[..n as usize], self.store.part());
            self.recorder = run.recorder;
            if run.answer.is_err() {
                return answers::samples_line(run.answer, count - left + run.taken as u32);
            }
            left -= n;
        }
        answers::samples_line(Ok(()), count)
    }

    fn set(&mut self, time: u32) -> Text {
        let set = self.recorder.set_clock(time, self.store.part());
        self.recorder = set.recorder;
        answers::set_line(set.answer)
    }

    fn reading(&mut self, meter: u8, value: i32, status: u8, seq: u8) -> Text {
        let read = self.recorder.reading(meter, value, status, seq);
        self.recorder = read.recorder;
        answers::reading_line(read.answer)
    }

    // A data set behind five words, booked as a reading.
    fn readout(&mut self, of: Readout, text: &[u8]) -> Text {
        let line = lines::text_after(text, 5);
        let read = self
            .recorder
            .readout(of.meter, of.status, of.seq, of.decimals, line);
        self.recorder = read.recorder;
        answers::readout_line(read.answer)
    }

    // The same behind six, the last of which is the block around it.
    fn block_readout(&mut self, of: Readout, text: &[u8]) -> Text {
        let hex = lines::hex_bytes(text, 5);
        let block = &hex.bytes[..hex.count];
        let line = lines::text_after(text, 6);
        let read = self
            .recorder
            .block_readout(of.meter, of.status, of.seq, of.decimals, block, line);
        self.recorder = read.recorder;
        answers::readout_line(read.answer)
    }

    fn reset(&mut self) -> Text {
        self.recorder = self.recorder.reset_bills();
        answers::ok()
    }

    fn register(&self, asked: Request) -> Text {
        let mut bytes = [0u8; 13];
        let buffer = &mut bytes[..room_of(asked.room, 13)];
        let answer = registers::read_register(self.recorder, asked.group, asked.number, buffer);
        answers::register_line(answer, bytes)
    }

    fn maker_register(&self, maker: u8, asked: Request) -> Text {
        let mut bytes = [0u8; 13];
        let buffer = &mut bytes[..room_of(asked.room, 13)];
        let answer = makers::read_own(self.recorder, maker, asked.group, asked.number, buffer);
        answers::maker_line(answer, bytes)
    }

    fn read_record(&mut self, index: u32, room: u32) -> Text {
        let mut bytes = [0u8; 69];
        let buffer = &mut bytes[..room_of(room, 69)];
        let answer = self.recorder.read_record(index, self.store.part(), buffer);
        answers::record_line(answer, bytes)
    }

    // A format string behind three words, the last of which is the argument bytes.
    fn display(&self, room: u32, text: &[u8]) -> Text {
        let hex = lines::hex_bytes(text, 2);
        let arguments = &hex.bytes[..hex.count];
        let format = lines::text_after(text, 3);
        let mut bytes = [0u8; 32];
        let buffer = &mut bytes[..room_of(room, 32)];
        let answer = display::show(self.recorder, format, arguments, buffer);
        answers::display_line(answer, bytes)
    }

    // The image's line, part by part.
    fn write_image<R: Print>(&self, out: &mut Output<R>) -> io::Result<()> {
        let mut image = [0u8; IMAGE_LENGTH];
        let answer = image::write_image(self.recorder.config, &mut image);
        for k in 0..12 {
            out.put(answers::image_part(answer, &image, k * 100))?;
        }
        Ok(())
    }

    // Answers line `number`: by one line, or by none where nothing is asked.
    pub(crate) fn answer<R: Print>(
        &mut self,
        out: &mut Output<R>,
        number: u64,
        text: &[u8],
    ) -> io::Result<()> {
        let line = match lines::line_of(text) {
            Ok(line) => line,
            Err(mistake) => return out.put(answers::error_line(number, mistake)),
        };
        let answer = match line {
            Line::Nothing => return Ok(()),
            Line::Image => return self.write_image(out),
            Line::Start(time) => self.start(time),
            Line::Sample(bits, count) => self.sample(bits, count),
            Line::Set(time) => self.set(time),
            Line::Reading(meter, value, status, seq) => self.reading(meter, value, status, seq),
            Line::Reset => self.reset(),
            Line::Register(asked) => self.register(asked),
            Line::Date(seconds) => answers::date_line(seconds),
            Line::Fleet => answers::fleet_line(registers::fleet_of(self.recorder)),
            Line::Profile(length, slots) => self.profile(length, slots),
            Line::Record(index, room) => self.read_record(index, room),
            Line::Dataset(decimals) => answers::dataset_line(lines::text_after(text, 2), decimals),
            Line::Readout(of) => self.readout(of, text),
            Line::Block => block_line(text),
            Line::Blockreadout(of) => self.block_readout(of, text),
            Line::List(maker, masks) => self.list(maker, masks),
            Line::Maker(maker, asked) => self.maker_register(maker, asked),
            Line::Display(room) => self.display(room, text),
        };
        out.put(answer)
    }
}

// The block is word 1.
fn block_line(text: &[u8]) -> Text {
    let hex = lines::hex_bytes(text, 1);
    answers::block_line(&hex.bytes[..hex.count])
}

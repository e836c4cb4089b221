// `hall IMAGE`: a recorder, and calls on it as lines of standard input. Each line is answered by one line; a blank line and one that begins with # by none.
// The lines are those of crate lines, the calls those of crates recorder, registers, makers and display, the answers those of crate answers. They are written in
// large pieces, and all of them before more input is waited for.
#![tactic(auto)]

mod calls;
mod output;

ghost use Rattle.std.specs.Prelude.{◌≤◌, length};

use arrayvec::ArrayVec;
use calls::Hall;
use image::IMAGE_LENGTH;
use output::Output;
use std::env::{Env, FillError};
use std::io::Read;
use std::rt::Files;
use std::{fs, io, str};

// The recorder with its output, how many lines were read, and what there is of the next one. A line of 257 bytes is too long already, so no more of it is kept.
#[derive(Drop)]
struct Work<'a, R> {
    hall: Hall<'a>,
    out: Output<'a, R>,
    lines: u64,
    line: ArrayVec<u8, 257>,
}

impl<'a, R: Print> Work<'a, R> {
    // Answers the line that was read. The count stops at the largest number.
    fn end_line(&mut self) -> io::Result<()> {
        self.lines = self.lines.saturating_add(1);
        self.hall
            .answer(&mut self.out, self.lines, self.line.as_slice())?;
        self.line.clear();
        Ok(())
    }

    // Keeps what there is room for of a part of a line.
    fn keep(&mut self, part: &[u8]) {
        let fits = part.len().min(self.line.remaining_capacity());
        let _ = self.line.try_extend_from_slice(&part[..fits]);
    }

    // Answers each line that ends in these bytes, and keeps what is left of the last. The answers are written before more input is waited for.
    // Each part but the first has a line end in front of it. Part by part: byte by byte a long line takes half as long again.
    fn take(&mut self, bytes: &[u8]) -> io::Result<()> {
        for (k, part) in bytes.split(|byte| *byte == b'\n').enumerate() {
            if 0 < k {
                self.end_line()?;
            }
            self.keep(part);
        }
        self.out.flush()
    }
}

// A read that fails ends the input. A proved loop has to end, and nothing says that the input does: so it has a number of turns that no run uses up.
fn run(rt: &(impl Input + Print), image: &[u8]) -> io::Result<()> {
    let mut input = rt.reader();
    let mut work = Work {
        hall: Hall::new(image),
        out: Output::new(rt),
        lines: 0,
        line: ArrayVec::new(),
    };
    for _ in 0..u64::MAX {
        let mut buffer = [0u8; 65536];
        let n = input.read(&mut buffer).unwrap_or(0);
        if n == 0 {
            break;
        }
        work.take(&buffer[..n])?;
    }
    // A last line may have no end.
    if !work.line.is_empty() {
        work.end_line()?;
    }
    work.out.flush()
}

// Reads until the buffer is full, the input ends or a read fails, and hands back how many bytes it put at the start.
// Each read asks for all the room that is left: input may come in packets, and what a read doesn't ask for of a packet is lost.
fn read_full(mut input: impl Read + Drop, buffer: &mut [u8]) -> usize
    ensures { result ≤ length buffer.new }
{
    let mut done = 0;
    while done < buffer.len() {
        let n = input.read(&mut buffer[done..]).unwrap_or(0);
        if n == 0 {
            return done;
        }
        done += n;
    }
    done
}

fn cannot_be_read(rt: &impl Print) -> io::Result<()> {
    rt.write_all(b"error: the image cannot be read\n")
}

// One byte more than an image has is read, so that a longer file is told from an image. As in image_tester: a library could promise nothing of what is read.
// A path that is not UTF-8 names no file here.
fn with_image(rt: &(impl Files + Input + Print), path: &[u8]) -> io::Result<()> {
    let Ok(name) = str::from_utf8(path) else {
        return cannot_be_read(rt);
    };
    let Ok(file) = fs::open(rt, name) else {
        return cannot_be_read(rt);
    };
    let mut image = [0u8; IMAGE_LENGTH + 1];
    let n = read_full(file, &mut image);
    run(rt, &image[..n])
}

// Whether the program was given an argument of this number. In bench, too: nothing says which arguments there are, so a library could promise nothing of it.
fn is_given(rt: &impl Env, number: usize) -> bool {
    !matches!(rt.arg(number, &mut []), Err(FillError::NotPresent))
}

fn main(rt: HostRuntime) -> io::Result<()> {
    if !is_given(&rt, 1) || is_given(&rt, 2) {
        return rt.write_all(b"usage: hall IMAGE\n");
    }
    let mut path = [0u8; 4096];
    let n = rt.arg(1, &mut path).unwrap_or(0);
    with_image(&rt, &path[..n])
}

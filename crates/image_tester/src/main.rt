// The image tester: it reads an image from standard input and prints one line, `ok` or `refused N at OFFSET`.
#![tactic(auto)]

ghost use Rattle.std.specs.Prelude.{◌≤◌, length};

use image::IMAGE_LENGTH;
use std::io;
use std::io::Read;

// Reads until the buffer is full, the input ends or a read fails, and hands back how many bytes it put at the start.
// Each read asks for all the room that is left: input may come in packets, and what a read doesn't ask for of a packet is lost.
fn read_full(mut input: impl Read + Drop, buffer: &mut [u8]) -> usize
    ensures { result ≤ length buffer.new }
{
    let mut done = 0;
    while done < buffer.len() {
        let n = input.read(&mut buffer[done..]).unwrap_or(0);
        if n == 0 {
            return done;
        }
        done += n;
    }
    done
}

// One byte more than an image has is read, so that a longer input is told from an image.
fn main(rt: HostRuntime) -> io::Result<()> {
    let mut input = [0u8; IMAGE_LENGTH + 1];
    let n = read_full(rt.reader(), &mut input);
    let line = answers::check_line(&input[..n]);
    rt.write_all(&line.bytes[..line.length])
}

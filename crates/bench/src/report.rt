// What a job prints: its check sum, and every register.
use recorder::Recorder;
use std::io;

pub(crate) fn write_number(rt: &impl Print, n: u64) -> io::Result<()> {
    println!(rt; "{n}")
}

// The last digit of a number in hexadecimal.
fn hex_digit(n: u8) -> u8 {
    let d = n % 16;
    if d < 10 { b'0' + d } else { b'a' + (d - 10) }
}

// The line is put together first: each write is a call of the system. By places: over pairs and bytes it takes five times the instructions.
fn write_bytes(rt: &impl Print, bytes: [u8; 13]) -> io::Result<()> {
    let mut line = [b'\n'; 27];
    for i in 0..13usize {
        line[2 * i] = hex_digit(bytes[i] / 16);
        line[2 * i + 1] = hex_digit(bytes[i]);
    }
    rt.write_all(&line)
}

// The bytes of a register, and zeros to 13; nothing where it is refused.
fn write_register(
    rt: &impl Print,
    recorder: Recorder,
    group: u32,
    register: u32,
) -> io::Result<()> {
    let mut bytes = [0u8; 13];
    if registers::read_register(recorder, group, register, &mut bytes).is_err() {
        return Ok(());
    }
    write_bytes(rt, bytes)
}

fn write_group(rt: &impl Print, recorder: Recorder, group: u32, registers: u32) -> io::Result<()> {
    for i in 0..registers {
        write_register(rt, recorder, group, i)?;
    }
    Ok(())
}

// A call for each group: with a loop over them a register read of a job takes 630 instructions for 537.
pub(crate) fn write_registers(rt: &impl Print, recorder: Recorder) -> io::Result<()> {
    write_group(rt, recorder, 82, 32)?;
    write_group(rt, recorder, 89, 1)?;
    write_group(rt, recorder, 90, 32)?;
    write_group(rt, recorder, 91, 16)?;
    write_group(rt, recorder, 201, 16)?;
    write_group(rt, recorder, 202, 16)?;
    write_group(rt, recorder, 203, 16)?;
    write_group(rt, recorder, 204, 1)?;
    write_group(rt, recorder, 206, 1)
}

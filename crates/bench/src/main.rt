// `bench JOBS ROUNDS`: work to be measured. Standard input has an image, 1,000 samples of two bytes each, the lower first, and a data set of 25 bytes. Each letter of JOBS is a job,
// done ROUNDS times on a recorder of its own, and its results are printed; those of bench/peer.c, the same jobs in C, are the same.
#![tactic(auto)]

mod jobs;
mod numbers;
mod report;

use image::IMAGE_LENGTH;
use jobs::Data;
use std::env::{Env, FillError};
use std::io::Read;
use std::{array, io};

// The samples of these bytes.
fn samples_of(bytes: [u8; 2000]) -> [u16; 1000] {
    array::from_fn(|i| u16::from_le_bytes([bytes[2 * i], bytes[2 * i + 1]]))
}

// A number past 32 bits is cut to them.
fn number_of(digits: &[u8]) -> u32 {
    digits.iter().fold(0u32, |number, digit| {
        number.wrapping_mul(10).wrapping_add(u32::from(digit % 16))
    })
}

fn rounds(rt: &impl Env) -> u32 {
    let mut word = [0u8; 4096];
    let n = rt.arg(2, &mut word).unwrap_or(0);
    number_of(&word[..n])
}

// What input lacks is zeros.
fn data(rt: &impl Input) -> Data {
    let mut reader = rt.reader();
    let mut image = [0u8; IMAGE_LENGTH];
    let mut bytes = [0u8; 2000];
    let mut line = [0u8; 25];
    let _ = reader.read_exact(&mut image);
    let _ = reader.read_exact(&mut bytes);
    let _ = reader.read_exact(&mut line);
    Data {
        image,
        bits: samples_of(bytes),
        line,
    }
}

// Whether the program was given an argument of this number. In hall, too: nothing says which arguments there are, so a library could promise nothing of it.
fn is_given(rt: &impl Env, number: usize) -> bool {
    !matches!(rt.arg(number, &mut []), Err(FillError::NotPresent))
}

fn main(rt: HostRuntime) -> io::Result<()> {
    if !is_given(&rt, 2) || is_given(&rt, 3) {
        return rt.write_all(b"usage: bench JOBS ROUNDS < DATA\n");
    }
    let data = data(&rt);
    let rounds = rounds(&rt);
    let mut letters = [0u8; 4096];
    let n = rt.arg(1, &mut letters).unwrap_or(0);
    for letter in &letters[..n] {
        jobs::run(&rt, *letter, data, rounds)?;
    }
    Ok(())
}

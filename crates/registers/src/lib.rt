// Register requests: a group, a register and a lent buffer. Each ends with the register's bytes or with the refusal that document 01 names for it.
#![tactic(auto)]

mod contents;
mod fleet;

ghost use Rattle.std.specs.Prelude.{◌≡◌, ◌<◌};
ghost use Rattle.registers.specs.Registers.{layout_said, layout_of, registers_of, fitted, register_said, replied, register_reply};

use contents::contents;
pub use fleet::{Fleet, fleet_of};
use image::Config;
use recorder::Recorder;

// The refusals of a request.
#[derive(Clone, Copy, Debug, PartialEq, Eq)]
pub enum RegisterError {
    NoGroup,
    NoRegister,
    NotFitted,
    NoRoom,
}

// How many registers a group has, and how many bytes each.
#[derive(Clone, Copy)]
struct Layout {
    registers: u32,
    bytes: usize,
}

#[tactic(auto, unfolding(crate::specs::Registers::groups, crate::specs::Registers::look_up))]
fn layout_of(group: u32) -> Option<Layout>
    ensures { layout_said result ≡ layout_of group }
{
    let (registers, bytes) = match group {
        82 => (32, 10),
        89 => (1, 2),
        90 => (32, 1),
        91 => (16, 1),
        201..=202 => (16, 13),
        203 => (16, 4),
        204 => (1, 13),
        206 => (1, 5),
        _ => return None,
    };
    Some(Layout { registers, bytes })
}

// A meter, slot, bill register or input that is not in use has no register; all others are there always.
// Each array is copied to a local before its index: indexed in its struct, the whole struct would be copied (r of the bench, 696 for 539).
#[tactic(auto, unfolding(crate::specs::Registers::groups, crate::specs::Registers::look_up))]
fn is_fitted(config: Config, group: u32, register: u32) -> bool
    requires { register < registers_of group }
    ensures { result ≡ fitted config group register }
{
    let i = register as usize;
    match group {
        82 => {
            let limits = config.limits;
            limits[i] != 0
        }
        201 => {
            let slots = config.slots;
            slots[i].level != 255
        }
        202 => {
            let bills = config.registers;
            bills[i].sum != 255
        }
        203 => {
            let inputs = config.inputs;
            inputs[i].kind != 0
        }
        _ => true,
    }
}

// The refusals in their order. A refused request changes no byte of the buffer, an answered one only the first, as many as the register has.
#[tactic(auto, using(crate::proofs::Groups::refusals), unfolding(crate::specs::Registers::register_reply))]
pub fn read_register(
    recorder: Recorder,
    group: u32,
    register: u32,
    buf: &mut [u8],
) -> Result<usize, RegisterError>
    ensures { replied result buf.new ≡ register_reply recorder group register buf.old }
{
    let Layout { registers, bytes } = layout_of(group).ok_or(RegisterError::NoGroup)?;
    if register >= registers {
        return Err(RegisterError::NoRegister);
    }
    if !is_fitted(recorder.config, group, register) {
        return Err(RegisterError::NotFitted);
    }
    if bytes > buf.len() {
        return Err(RegisterError::NoRoom);
    }
    let held = contents(recorder, group, register);
    buf[..bytes].copy_from_slice(&held[..bytes]);
    Ok(bytes)
}

// Each maker reads only their own: the lists that a start is given, and a maker's register requests.
#![tactic(auto)]

ghost use Rattle.std.specs.Prelude.{◌≡◌, if◌then◌else◌};
ghost use Rattle.laws.specs.Answers.{reply_to};
ghost use Rattle.makers.specs.Lists.{listing_said, list_reply};
ghost use Rattle.makers.specs.declared.MakerError.TheVariants.{Register};
ghost use Rattle.makers.specs.Requests.{on_list, only_meters, maker_replied, maker_reply};

use recorder::{MakerList, Recorder, Setup};
use registers::{RegisterError, read_register};
use std::array;
use tariff::bit_at;

// The refusals of a maker's request: that there is no such maker, or those of a register request.
#[derive(Clone, Copy, Debug, PartialEq, Eq)]
pub enum MakerError {
    NoMaker,
    Register(RegisterError),
}

impl From<RegisterError> for MakerError {
    ghost from_gives = { λ error given. given ≡ Register error };

    fn from(error: RegisterError) -> MakerError {
        MakerError::Register(error)
    }
}

// The refusal of a list.
#[derive(Clone, Copy, Debug, PartialEq, Eq)]
pub struct NoMaker;

// What the next start is given, with another list for a maker.
#[tactic(auto, unfolding(crate::specs::Lists::list_reply))]
pub fn give_list(setup: Setup, maker: u8, list: MakerList) -> Result<Setup, NoMaker>
    ensures { reply_to setup (listing_said result) ≡ list_reply setup maker list }
{
    let place = maker as usize;
    if place > 2 {
        return Err(NoMaker);
    }
    let mut next = setup;
    next.lists[place] = list;
    Ok(next)
}

// Meters, slots, bill registers and inputs are asked of the list; all other groups are common.
#[tactic(auto, unfolding(crate::specs::Requests::on_list))]
fn on_list(list: MakerList, group: u32, register: u32) -> bool
    ensures { result ≡ on_list list group register }
{
    let place = register as usize;
    match group {
        82 => bit_at(list.meters, place),
        201 => bit_at(list.slots as u32, place),
        202 => bit_at(list.bills as u32, place),
        203 => bit_at(list.inputs as u32, place),
        _ => true,
    }
}

// Only the meters of a mask are fitted: those off the list have no age limit any more, so no class, and their values are not added.
fn only_meters(recorder: Recorder, mask: u32) -> Recorder
    ensures { result ≡ only_meters recorder mask }
{
    let limits = recorder.config.limits;
    let mut own = recorder;
    own.config.limits = array::from_fn(|i| if bit_at(mask, i) { limits[i] } else { 0 });
    own
}

// A maker's register request. What is not on the list is no register; all else is answered as the operator's request, but for the fleet, which is that of the list's meters.
#[tactic(auto, unfolding(crate::specs::Requests::maker_reply))]
pub fn read_own(
    recorder: Recorder,
    maker: u8,
    group: u32,
    register: u32,
    buf: &mut [u8],
) -> Result<usize, MakerError>
    ensures { maker_replied result buf.new ≡ maker_reply recorder maker group register buf.old }
{
    let place = maker as usize;
    if place > 2 {
        return Err(MakerError::NoMaker);
    }
    let list = recorder.setup.lists[place];
    if !on_list(list, group, register) {
        return Err(MakerError::Register(RegisterError::NoRegister));
    }
    if group == 204 {
        let fleet = only_meters(recorder, list.meters);
        return Ok(read_register(fleet, group, register, buf)?);
    }
    Ok(read_register(recorder, group, register, buf)?)
}

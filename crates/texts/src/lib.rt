// The jobs on texts, for the program desk, whose head has what each takes and answers: a text and a room are taken, and one call made.
#![tactic(auto)]

use arguments::{NoJob, files, numbers};
use image::refusals::Refusal;
use std::rt::{Env, Files};

// The places of what a job takes: argument 1 is the job itself.
const TEXT: usize = 2;

const ROOM: usize = 3;

pub fn answered<R: Env + Files + Input + Print, F: Fn(&[u8], &mut [u8]) -> Result<u32, Refusal>>(
    rt: &R,
    call: F,
) -> Result<(), NoJob>
    requires { F.IsAlwaysCallable call }
{
    let mut text = files::text_buffer();
    let mut room = rooms::room_buffer();
    let text = files::take_file(rt, TEXT, &mut text)?;
    let room = numbers::take_room(rt, ROOM, &mut room)?;
    rooms::answered(rt, text, room, call)?;
    Ok(())
}

// The operations of the test driver on books and lists (crate replay): a case is taken, and its line written.
#![tactic(auto)]

use cases::{Stop, input};
use std::io::Read;

pub fn read_case<R: Print, I: Read>(rt: &R, input: &mut I) -> Result<(), Stop> {
    let mut image = input::image_buffer();
    let image = input::take_image(input, &mut image)?;
    answers::read(rt, image)?;
    Ok(())
}

pub fn judge_case<R: Print, I: Read>(rt: &R, input: &mut I) -> Result<(), Stop> {
    let mut image = input::image_buffer();
    let image = input::take_image(input, &mut image)?;
    let set = input::take_u64(input)?;
    answers::judge(rt, image, set)?;
    Ok(())
}

pub fn list_case<R: Print, I: Read>(rt: &R, input: &mut I) -> Result<(), Stop> {
    let mut image = input::image_buffer();
    let mut sets = input::list_buffer();
    let mut work = input::work_buffer();
    let image = input::take_image(input, &mut image)?;
    let budget = input::take_u32(input)?;
    let sets = input::take_room(input, &mut sets)?;
    let work = input::take_area(input, &mut work)?;
    answers::list(rt, image, budget, sets, work)?;
    Ok(())
}

pub fn verdict_case<R: Print, I: Read>(rt: &R, input: &mut I) -> Result<(), Stop> {
    let mut image = input::image_buffer();
    let mut sets = input::list_buffer();
    let mut work = input::work_buffer();
    let image = input::take_image(input, &mut image)?;
    let hypothesis = input::take_u32(input)?;
    let budget = input::take_u32(input)?;
    let sets = input::take_room(input, &mut sets)?;
    let work = input::take_area(input, &mut work)?;
    answers::verdict(rt, image, hypothesis, budget, sets, work)?;
    Ok(())
}

pub fn admits_case<R: Print, I: Read>(rt: &R, input: &mut I) -> Result<(), Stop> {
    let mut image = input::image_buffer();
    let mut work = input::work_buffer();
    let image = input::take_image(input, &mut image)?;
    let hypothesis = input::take_u32(input)?;
    let budget = input::take_u32(input)?;
    let work = input::take_area(input, &mut work)?;
    answers::admits(rt, image, hypothesis, budget, work)?;
    Ok(())
}

pub fn join_case<R: Print, I: Read>(rt: &R, input: &mut I) -> Result<(), Stop> {
    let mut left = input::list_buffer();
    let mut right = input::list_buffer();
    let mut out = input::list_buffer();
    let left = input::take_list(input, &mut left)?;
    let right = input::take_list(input, &mut right)?;
    let out = input::take_room(input, &mut out)?;
    answers::join(rt, left, right, out)?;
    Ok(())
}

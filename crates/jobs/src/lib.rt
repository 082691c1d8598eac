// The jobs on books and lists, for the program desk, whose head has what each takes and answers: arguments are taken, and one call made.
#![tactic(auto)]

use arguments::{NoJob, files, numbers};
use cases::input;
use std::rt::{Env, Files};

// The places of what a job takes: argument 1 is the job itself.
const FIRST: usize = 2;

const SECOND: usize = 3;

const THIRD: usize = 4;

const FOURTH: usize = 5;

pub fn check<R: Env + Files + Input + Print>(rt: &R) -> Result<(), NoJob> {
    let mut image = files::image_buffer();
    let image = files::take_file(rt, FIRST, &mut image)?;
    answers::read(rt, image)?;
    Ok(())
}

pub fn judge<R: Env + Files + Input + Print>(rt: &R) -> Result<(), NoJob> {
    let mut image = files::image_buffer();
    let image = files::take_file(rt, FIRST, &mut image)?;
    let set = numbers::take_set(rt, SECOND)?;
    answers::judge(rt, image, set)?;
    Ok(())
}

pub fn list<R: Env + Files + Input + Print>(rt: &R) -> Result<(), NoJob> {
    let mut image = files::image_buffer();
    let mut sets = input::list_buffer();
    let mut work = input::work_buffer();
    let image = files::take_file(rt, FIRST, &mut image)?;
    let budget = numbers::take_number(rt, SECOND)?;
    let sets = numbers::take_room(rt, THIRD, &mut sets)?;
    answers::list(rt, image, budget, sets, &mut work)?;
    Ok(())
}

pub fn verdict<R: Env + Files + Input + Print>(rt: &R) -> Result<(), NoJob> {
    let mut image = files::image_buffer();
    let mut sets = input::list_buffer();
    let mut work = input::work_buffer();
    let image = files::take_file(rt, FIRST, &mut image)?;
    let hypothesis = numbers::take_number(rt, SECOND)?;
    let budget = numbers::take_number(rt, THIRD)?;
    let sets = numbers::take_room(rt, FOURTH, &mut sets)?;
    answers::verdict(rt, image, hypothesis, budget, sets, &mut work)?;
    Ok(())
}

pub fn admits<R: Env + Files + Input + Print>(rt: &R) -> Result<(), NoJob> {
    let mut image = files::image_buffer();
    let mut work = input::work_buffer();
    let image = files::take_file(rt, FIRST, &mut image)?;
    let hypothesis = numbers::take_number(rt, SECOND)?;
    let budget = numbers::take_number(rt, THIRD)?;
    answers::admits(rt, image, hypothesis, budget, &mut work)?;
    Ok(())
}

pub fn join<R: Env + Input + Print>(rt: &R) -> Result<(), NoJob> {
    let mut left = input::list_buffer();
    let mut right = input::list_buffer();
    let mut out = input::list_buffer();
    let out = numbers::take_room(rt, FIRST, &mut out)?;
    let mut lists = rt.reader();
    let left = input::take_list(&mut lists, &mut left).map_err(|_| NoJob::Unlisted)?;
    let right = input::take_list(&mut lists, &mut right).map_err(|_| NoJob::Unlisted)?;
    answers::join(rt, left, right, out)?;
    Ok(())
}

// The bytes of the files that arguments name.
ghost use Rattle.std.specs.Prelude.{◌≤◌, ◌<◌, ◌≡◌, length, IfOk};
ghost use Rattle.arguments.specs.Buffers.{file_bytes, text_bytes};

use crate::{NoJob, argument};
use cases::input;
use image::limits::LONGEST_IMAGE;
use spelling::LONGEST_TEXT;
use std::fs;
use std::io::Read;
use std::rt::{Env, Files};

// One more than the longest, so that a longer one is still refused.
const IMAGE: usize = LONGEST_IMAGE + 1;

const TEXT: usize = LONGEST_TEXT + 1;

// The longest name of a file, and one more.
const PATH: usize = 4096;

pub fn image_buffer() -> [u8; IMAGE]
    ensures { file_bytes ≡ length result }
{
    [0; IMAGE]
}

pub fn text_buffer() -> [u8; TEXT]
    ensures { text_bytes ≡ length result }
{
    [0; TEXT]
}

// The file of this name, where it can be opened.
fn opened<R: Files>(rt: &R, path: &[u8]) -> Option<R::File> {
    let name = str::from_utf8(path).ok()?;
    fs::open(rt, name).ok()
}

// Whether it is the name that stands for standard input.
fn names_input(path: &[u8]) -> bool {
    path == b"-".as_slice()
}

// Whether this argument stands for standard input.
pub fn is_input<R: Env>(rt: &R, place: usize) -> bool {
    let mut buffer = [0; PATH];
    names_input(argument(rt, place, &mut buffer))
}

// The bytes of the file that this argument names.
fn filled<'a, F: Read>(file: &mut F, place: usize, buffer: &'a mut [u8]) -> Result<&'a [u8], NoJob>
    ensures { IfOk result (λ bytes. length bytes.now ≤ length buffer.old) }
{
    input::take_all(file, buffer).map_err(|_| NoJob::Unread(place))
}

// The bytes of the file that this argument names, as many as the buffer takes.
pub fn take_file<'a, R: Env + Files + Input>(
    rt: &R,
    place: usize,
    buffer: &'a mut [u8],
) -> Result<&'a [u8], NoJob>
    ensures { IfOk result (λ bytes. length bytes.now ≤ length buffer.old) }
{
    let mut name = [0; PATH];
    let path = argument(rt, place, &mut name);
    if names_input(path) {
        return filled(&mut rt.reader(), place, buffer);
    }
    let mut file = opened(rt, path).ok_or(NoJob::Unopened(place))?;
    filled(&mut file, place, buffer)
}

// All bytes of the file that this argument names, which must be fewer than the buffer takes.
pub fn take_whole<'a, R: Env + Files + Input>(
    rt: &R,
    place: usize,
    buffer: &'a mut [u8],
) -> Result<&'a [u8], NoJob>
    ensures { IfOk result (λ bytes. length bytes.now < length buffer.old) }
{
    let room = buffer.len();
    let bytes = take_file(rt, place, buffer)?;
    if room <= bytes.len() {
        return Err(NoJob::Overlong(place));
    }
    Ok(bytes)
}

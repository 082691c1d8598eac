// Calls that write bytes into a room, for the programs: the buffers, the cases of the test driver, and the line that tells the answer and how
// the room was left. Before each call every byte of a room is 165.
//
//   written N bytes, a space and the first N bytes of the room in small hex, then ` rest untouched` or ` rest other`
//   refused R room untouched | refused R room other
#![tactic(auto)]

ghost use Rattle.std.specs.Prelude.{◌≤◌, ◌≡◌, length, take, drop};
ghost use Rattle.rooms.specs.Buffers.{text_bytes, room_bytes};

use cases::{Stop, input};
use image::refusals::Refusal;
use std::io;
use std::io::Read;

// The most that a case may name: bytes of a text, and of a room.
const TEXT: usize = 40000;

pub const ROOM: usize = 10000;

// What every byte of a room is before a call.
const BYTE: u8 = 165;

const TEN: u8 = 10;

const SIXTEEN: u8 = 16;

pub fn text_buffer() -> [u8; TEXT]
    ensures { text_bytes ≡ length result }
{
    [0; TEXT]
}

pub fn room_buffer() -> [u8; ROOM]
    ensures { room_bytes ≡ length result }
{
    [BYTE; ROOM]
}

fn digit(x: u8) -> u8
    requires { x ≤ 15 }
{
    if x < TEN {
        return b'0' + x;
    }
    b'a' + (x - TEN)
}

// These bytes, two digits each: a room at a time, which one write tells.
fn hex<R: Print>(rt: &R, bytes: &[u8]) -> io::Result<()> {
    for chunk in bytes.chunks(ROOM) {
        let mut digits = [[0; 2]; ROOM];
        for (pair, byte) in digits.iter_mut().zip(chunk) {
            *pair = [digit(byte / SIXTEEN), digit(byte % SIXTEEN)];
        }
        rt.write_all(digits[..chunk.len()].as_flattened())?;
    }
    Ok(())
}

// What is told of a room where n bytes were written, no more than it has, and the rest.
fn parted(room: &[u8], n: u32) -> (&[u8], &[u8])
    ensures told { result.0.now ≡ take n room.now }
    ensures rest { result.1.now ≡ drop n room.now }
{
    let told = room.len().min(n as usize);
    room.split_at(told)
}

// How these bytes were left.
fn state(bytes: &[u8]) -> &'static str {
    if bytes.iter().all(|byte| *byte == BYTE) {
        "untouched"
    } else {
        "other"
    }
}

// The line of an answer.
pub fn tell<R: Print>(rt: &R, answer: Result<u32, Refusal>, room: &[u8]) -> io::Result<()> {
    match answer {
        Ok(n) => {
            let (bytes, rest) = parted(room, n);
            print!(rt; "written {n} bytes ")?;
            hex(rt, bytes)?;
            println!(rt; " rest {}", state(rest))
        }
        Err(refusal) => println!(rt; "refused {refusal} room {}", state(room)),
    }
}

// The line of this call.
pub fn answered<R: Print, F: Fn(&[u8], &mut [u8]) -> Result<u32, Refusal>>(
    rt: &R,
    text: &[u8],
    room: &mut [u8],
    call: F,
) -> io::Result<()>
    requires { F.IsAlwaysCallable call }
{
    let answer = call(text, room);
    tell(rt, answer, room)
}

// A case of this call is taken, and its line written.
pub fn case<R: Print, I: Read, F: Fn(&[u8], &mut [u8]) -> Result<u32, Refusal>>(
    rt: &R,
    input: &mut I,
    call: F,
) -> Result<(), Stop>
    requires { F.IsAlwaysCallable call }
{
    let mut text = text_buffer();
    let mut room = room_buffer();
    let text = input::take_image(input, &mut text)?;
    let room = input::take_area(input, &mut room)?;
    answered(rt, text, room, call)?;
    Ok(())
}

// The cases' numbers, images and lists, taken from a reader. An image, a list or a room stands at the front of a buffer that is lent for it.

ghost use Rattle.std.specs.Prelude.{◌≤◌, ◌≡◌, length, IfOk};
ghost use Rattle.cases.specs.Buffers.{image_room, group_room, list_entries, area_numbers};

use std::io;
use std::io::Read;

// What the reader has not, or cannot read, or what is more than a case may name.
#[derive(Clone, Copy, Debug, PartialEq, Eq)]
pub struct Malformed;

// The most that a case may name: bytes of an image and of a group's record, entries of a list, numbers of a work area.
const IMAGE: usize = 16384;

const GROUP: usize = 1000;

pub const ENTRIES: usize = 1100;

pub const WORK: usize = 20000;

// What every list entry and every work number is before a call.
const ENTRY: u64 = 7;

pub const NUMBER: u32 = 9;

pub fn image_buffer() -> [u8; IMAGE]
    ensures { image_room ≡ length result }
{
    [0; IMAGE]
}

pub fn group_buffer() -> [u8; GROUP]
    ensures { group_room ≡ length result }
{
    [0; GROUP]
}

pub fn list_buffer() -> [u64; ENTRIES]
    ensures { list_entries ≡ length result }
{
    [ENTRY; ENTRIES]
}

pub fn work_buffer() -> [u32; WORK]
    ensures { area_numbers ≡ length result }
{
    [NUMBER; WORK]
}

fn take_bytes<const N: usize, I: Read>(input: &mut I) -> Result<[u8; N], Malformed> {
    let mut bytes = [0; N];
    input.read_exact(&mut bytes).map_err(|_| Malformed)?;
    Ok(bytes)
}

pub fn take_u8<I: Read>(input: &mut I) -> Result<u8, Malformed> {
    Ok(u8::from_be_bytes(take_bytes(input)?))
}

fn take_u16<I: Read>(input: &mut I) -> Result<u16, Malformed> {
    Ok(u16::from_be_bytes(take_bytes(input)?))
}

// A budget or a hypothesis.
pub fn take_u32<I: Read>(input: &mut I) -> Result<u32, Malformed> {
    Ok(u32::from_be_bytes(take_bytes(input)?))
}

// A set.
pub fn take_u64<I: Read>(input: &mut I) -> Result<u64, Malformed> {
    Ok(u64::from_be_bytes(take_bytes(input)?))
}

// The first n of the buffer, which is as long as the most that a case may name.
fn front<T>(buffer: &mut [T], n: usize) -> Result<&mut [T], Malformed>
    ensures { IfOk result (λ front. length front.now ≤ length buffer.old) }
{
    if buffer.len() < n {
        return Err(Malformed);
    }
    Ok(&mut buffer[..n])
}

// As many bytes as the length says.
fn filled<'a, I: Read>(input: &mut I, n: usize, buffer: &'a mut [u8]) -> Result<&'a [u8], Malformed>
    ensures { IfOk result (λ filled. length filled.now ≤ length buffer.old) }
{
    let bytes = front(buffer, n)?;
    input.read_exact(bytes).map_err(|_| Malformed)?;
    Ok(bytes)
}

// An image, or a text, with a length of four bytes.
pub fn take_image<'a, I: Read>(input: &mut I, buffer: &'a mut [u8]) -> Result<&'a [u8], Malformed>
    ensures { IfOk result (λ image. length image.now ≤ length buffer.old) }
{
    let n = take_u32(input)?;
    filled(input, n as usize, buffer)
}

// A group's record, with a length of two bytes.
pub fn take_group<'a, I: Read>(input: &mut I, buffer: &'a mut [u8]) -> Result<&'a [u8], Malformed>
    ensures { IfOk result (λ group. length group.now ≤ length buffer.old) }
{
    let n = take_u16(input)?;
    filled(input, usize::from(n), buffer)
}

// A room for a list, with a length of two bytes.
pub fn take_room<'a, I: Read>(
    input: &mut I,
    list: &'a mut [u64],
) -> Result<&'a mut [u64], Malformed>
    ensures { IfOk result (λ room. length room.now ≤ length list.old) }
{
    let n = take_u16(input)?;
    front(list, usize::from(n))
}

// A work area, or a room for bytes, with a length of four bytes.
pub fn take_area<'a, T, I: Read>(input: &mut I, area: &'a mut [T]) -> Result<&'a mut [T], Malformed>
    ensures { IfOk result (λ taken. length taken.now ≤ length area.old) }
{
    let n = take_u32(input)?;
    front(area, n as usize)
}

// A count and as many sets.
pub fn take_list<'a, I: Read>(input: &mut I, buffer: &'a mut [u64]) -> Result<&'a [u64], Malformed>
    ensures { IfOk result (λ list. length list.now ≤ length buffer.old) }
{
    let list = take_room(input, buffer)?;
    for entry in list.iter_mut() {
        *entry = take_u64(input)?;
    }
    Ok(list)
}

// All that the reader has, as far as the buffer goes.
pub fn take_all<'a, I: Read>(input: &mut I, buffer: &'a mut [u8]) -> io::Result<&'a [u8]>
    ensures { IfOk result (λ bytes. length bytes.now ≤ length buffer.old) }
{
    let mut n = 0;
    while n < buffer.len() {
        let more = input.read(&mut buffer[n..])?;
        if more == 0 {
            break;
        }
        n += more;
    }
    Ok(&buffer[..n])
}

// Rules as surveyors type them, paper 02, A1: a text in, the image of the book that it says out; and the names of its atoms.
#![tactic(auto)]

mod lines;
mod numbers;

ghost use Rattle.std.specs.Prelude.{◌≡◌, ◌≤◌, length};
ghost use Rattle.image.specs.paper.Writing.{writing, answer_of, room_of};
ghost use Rattle.spelling.specs.paper.Answer.{image_of, name_lines, Writes};
ghost use Rattle.naming.specs.Names.{Fresh};
ghost use Rattle.writer.specs.Writable.{image_room};
ghost use Rattle.text.specs.Delivered.{delivery, most_bytes};
ghost use Rattle.text.specs.Made.{Made};

use grammar::goal_place;
use image::refusals::Refusal;
use lines::write_lines;
use naming::Table;
use numbers::give_numbers;
use spelling::LONGEST_TEXT;
use writer::IMAGE_ROOM;
use writer::document::Document;

// The image of the book that a text says, at the front of `image`, if the reader of images accepts it, and how long it is; and the table of its names.
fn make(text: &[u8], table: &mut Table, image: &mut [u8]) -> Result<usize, Refusal>
    requires { Fresh table.old × (image_room ≤ length image.old) }
    ensures { Made text.now table.new image.new result }
{
    if LONGEST_TEXT < text.len() {
        return Err(Refusal::MalformedText);
    }
    let mut codes = [0u16; LONGEST_TEXT];
    let words = table.take_words(text, &mut codes);
    let codes = &codes[..words];
    let Some(goal) = goal_place(codes) else {
        return Err(Refusal::MalformedText);
    };
    if table.clash {
        return Err(Refusal::Clash);
    }
    // The links of the table are needed no more: in their place stand the atoms' numbers.
    give_numbers(
        &table.entries,
        table.names,
        table.marked,
        &mut table.earlier,
    );
    let document = Document {
        codes,
        goal,
        numbers: &table.earlier,
        atoms: table.names,
        abducibles: table.marked,
    };
    let size = document.write_image(image);
    book::read(&image[..size])?;
    Ok(size)
}

// Writes the bytes at the front of the room, if they fit.
fn deliver(made: &[u8], room: &mut [u8]) -> Result<u32, Refusal>
    requires { length made.now ≤ most_bytes }
    ensures answer { writing result ≡ answer_of (delivery (length room.old) made.now) }
    ensures left { room.new ≡ room_of (delivery (length room.old) made.now) room.old }
{
    if room.len() < made.len() {
        return Err(Refusal::ShortRoom);
    }
    room[..made.len()].copy_from_slice(made);
    Ok(made.len() as u32)
}

// Reads a text, and writes the image of the book that it says at the front of the room.
pub fn read(text: &[u8], image: &mut [u8]) -> Result<u32, Refusal>
    ensures { Writes image_of text.now image.old (writing result) image.new }
{
    let mut table = Table::new();
    let mut made = [0u8; IMAGE_ROOM];
    let size = make(text, &mut table, &mut made)?;
    deliver(&made[..size], image)
}

// Reads a text, and writes the names of its atoms, in their order and a line each, at the front of the room.
pub fn names(text: &[u8], room: &mut [u8]) -> Result<u32, Refusal>
    ensures { Writes name_lines text.now room.old (writing result) room.new }
{
    let mut table = Table::new();
    let mut made = [0u8; IMAGE_ROOM];
    make(text, &mut table, &mut made)?;
    let n = write_lines(text, &table.entries[..table.names], &mut made);
    deliver(&made[..n], room)
}

// The names of the table, one line each: first those of the abducibles, then the others.
ghost use Rattle.std.specs.Prelude.{◌≡◌, [], ◌∷◌, ◌++◌, ◌+◌, ◌≤◌, length};
ghost use Rattle.spelling.specs.Table.{name_at};
ghost use Rattle.text.specs.Lines.{line_at, lines_by, Lined};

use cutting::in_name;

const LINE_END: u8 = b'\n';

// An entry's mark, where its first mention is marked, and where it is not.
const MARKED: u16 = 1;

const BARE: u16 = 0;

// Writes the name at a place of the text; the place behind it.
fn write_name(text: &[u8], from: usize, room: &mut [u8], at: usize) -> usize
    requires { at + length (name_at text.now from) ≤ length room.old }
    ensures { Lined (name_at text.now from) room.old at room.new result }
{
    let mut end = at;
    for i in from..text.len() {
        if !in_name(text[i]) {
            return end;
        }
        room[end] = text[i];
        end += 1;
    }
    end
}

// The name, and the end of its line.
fn write_line(text: &[u8], from: usize, room: &mut [u8], at: usize) -> usize
    requires { at + length (line_at text.now from) ≤ length room.old }
    ensures { Lined (line_at text.now from) room.old at room.new result }
{
    let end = write_name(text, from, room, at);
    room[end] = LINE_END;
    end + 1
}

// The line of an entry, if it has this mark; the place behind.
fn write_entry(text: &[u8], entry: u16, mark: u16, room: &mut [u8], at: usize) -> usize
    requires { at + length (lines_by text.now mark (entry ∷ [])) ≤ length room.old }
    ensures { Lined (lines_by text.now mark (entry ∷ [])) room.old at room.new result }
{
    if entry % 2 != mark {
        return at;
    }
    write_line(text, usize::from(entry) / 2, room, at)
}

// The lines of the entries with this mark; the place behind.
fn write_kind(text: &[u8], entries: &[u16], mark: u16, room: &mut [u8], at: usize) -> usize
    requires { at + length (lines_by text.now mark entries.now) ≤ length room.old }
    ensures { Lined (lines_by text.now mark entries.now) room.old at room.new result }
{
    let mut end = at;
    for entry in entries {
        end = write_entry(text, *entry, mark, room, end);
    }
    end
}

// All lines, from the front of the room; how many bytes they are.
pub fn write_lines(text: &[u8], entries: &[u16], room: &mut [u8]) -> usize
    requires { length (lines_by text.now 1 entries.now ++ lines_by text.now 0 entries.now) ≤ length room.old }
    ensures { Lined (lines_by text.now 1 entries.now ++ lines_by text.now 0 entries.now) room.old 0 room.new result }
{
    let first = write_kind(text, entries, MARKED, room, 0);
    write_kind(text, entries, BARE, room, first)
}

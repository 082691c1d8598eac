// The image's fields: two bytes, the high one first.

ghost use Rattle.std.specs.Prelude.{◌≡◌, ◌+◌, ◌≤◌, ◌<◌, length, leb};
ghost use Rattle.image.specs.paper.Walk.{field_at, field_values};

pub const BYTE_VALUES: u32 = 256;

// How many values a field has.
pub const FIELD_VALUES: usize = BYTE_VALUES as usize * BYTE_VALUES as usize;

// The value of the field at a place where there is one.
pub fn field_at(image: &[u8], at: usize) -> u32
    requires { at + 2 ≤ length image.now }
    ensures { (result ≡ field_at image.now at) × (result < field_values) }
{
    BYTE_VALUES * u32::from(image[at]) + u32::from(image[at + 1])
}

// Whether there is a field at this place.
pub fn is_there(image: &[u8], at: usize) -> bool
    ensures { result ≡ leb (at + 2) (length image.now) }
{
    2 <= image.len().saturating_sub(at)
}

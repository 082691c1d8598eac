// Writing an image's fields: two bytes, the high one first.

ghost use Rattle.std.specs.Prelude.{◌≡◌, ◌∷◌, [], ◌+◌, ◌≤◌, length};
ghost use Rattle.image.specs.Laid.{laid};

use super::fields::BYTE_VALUES;

const VALUES: usize = BYTE_VALUES as usize;

// Writes a field; of a value with more bytes, the last two.
pub fn put_field(image: &mut [u8], at: usize, value: usize)
    requires { at + 2 ≤ length image.old }
    ensures { image.new ≡ laid image.old at (value ∷ []) }
{
    image[at] = (value / VALUES % VALUES) as u8;
    image[at + 1] = (value % VALUES) as u8;
}

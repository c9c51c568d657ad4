// Tests on a type's name.
ghost use Rattle.std.specs.Prelude.{◌≡◌, ◌∷◌, []};
ghost use Rattle.type_names.specs.Text.{starts_with, contains as contains_in};

use type_book::block::same_name;

// Whether a name begins with these bytes.
pub fn starts_with(name: &[u8], start: &[u8]) -> bool
    ensures { result ≡ starts_with name.now start.now }
{
    if name.len() < start.len() {
        return false;
    }
    same_name(&name[..start.len()], start)
}

// Whether a byte stands somewhere in a name.
pub fn contains_byte(name: &[u8], byte: u8) -> bool
    ensures { result ≡ contains_in name.now (byte ∷ []) }
{
    name.contains(&byte)
}

// Whether these bytes stand somewhere in a name, one after the other.
pub fn contains(name: &[u8], part: &[u8]) -> bool
    ensures { result ≡ contains_in name.now part.now }
{
    for i in 0..name.len() {
        if starts_with(&name[i..], part) {
            return true;
        }
    }
    part.is_empty()
}

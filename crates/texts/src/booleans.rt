// Booleans.
ghost use Rattle.std.specs.Prelude.{◌≡◌, Bool, length, Some};
ghost use Rattle.std.specs.Result.{result_ok};
ghost use Rattle.texts.specs.Booleans.{boolean_of, boolean_spelling};
ghost use Rattle.texts.specs.Pages.{Writes};

use crate::Malformed;
use crate::bytes::unblanked;
use crate::pages::write_text;

// What a text says: `0` is false and `1` is true.
pub fn read_boolean(text: &[u8]) -> Result<bool, Malformed>
    ensures { result_ok result ≡ boolean_of text.now }
{
    match unblanked(text) {
        [b'0'] => Ok(false),
        [b'1'] => Ok(true),
        _ => Err(Malformed),
    }
}

// How long the spelling of either boolean is.
pub fn boolean_len() -> usize
    ensures { (value : Bool) → result ≡ length (boolean_spelling value) }
{
    1
}

// Writes a boolean's spelling.
pub fn write_boolean(value: bool, page: &mut [u8]) -> Option<usize>
    ensures page { Writes (boolean_spelling value) page.old page.new result }
    ensures reads_back { boolean_of (boolean_spelling value) ≡ Some value }
{
    write_text(if value { b"1" } else { b"0" }, page)
}

// What a text reads as, and its canonical spelling.
use crate::line::TextKind;
use crate::unread::Unread;
use base64_texts::{Decoded, base64_len, check_base64, write_base64};
use characters::{Characters, characters_len, check_characters, write_characters};
use dates::text::{date_len, read_date, write_date};
use hex_texts::Hex;
use numbers::doubles::{double_len, read_double, write_double};
use numbers::ints::{int_len, read_int, write_int};
use std::alloc::{AllocError, Global};
use std::fmt;
use texts::booleans::{boolean_len, read_boolean, write_boolean};
use texts::methods::read_method_name;
use texts::pages::write_text;

// All four, whatever the kind: the answer shows each.
#[derive(Drop)]
pub struct Reading {
    number: i64,
    scale: u8,
    text: Vec<u8>,
    written: Vec<u8>,
}

impl fmt::Display for Reading {
    fn fmt<W: fmt::Write>(&self, f: &mut fmt::Formatter<W>) -> fmt::Result {
        let (number, scale) = (self.number, self.scale);
        let text = Hex(self.text.as_slice());
        let written = Hex(self.written.as_slice());
        write!(f, "ok {number} {scale} {text} {written}")
    }
}

// A page of a length, with what is written on it.
fn page_with<F: FnOnce(&mut [u8]) -> Option<usize>>(
    heap: Global,
    len: usize,
    write: F,
) -> Result<Vec<u8>, AllocError>
    requires { F.IsAlwaysCallable write }
{
    let mut page = vec![in heap; 0u8; len]?;
    let _ = write(page.as_mut_slice());
    Ok(page)
}

fn number_reading(heap: Global, number: i64, scale: u8, written: Vec<u8>) -> Reading {
    Reading {
        number,
        scale,
        text: Vec::new(heap),
        written,
    }
}

fn text_reading(text: Vec<u8>, written: Vec<u8>) -> Reading {
    Reading {
        number: 0,
        scale: 0,
        text,
        written,
    }
}

// Reads a text of a kind and writes it again. Each kind has its own reader, length and writer and a value of its own
// type; what they share is above. The kinds are a closed list, and the heap is handed on as every allocation asks.
pub(crate) fn read_text(heap: Global, kind: TextKind, text: &[u8]) -> Result<Reading, Unread> {
    match kind {
        TextKind::Method => method(heap, text),
        TextKind::Int => int(heap, text),
        TextKind::Boolean => boolean(heap, text),
        TextKind::Double => double(heap, text),
        TextKind::Date => date(heap, text),
        TextKind::Base64 => base64(heap, text),
        TextKind::String => string(heap, text),
    }
}

fn method(heap: Global, text: &[u8]) -> Result<Reading, Unread> {
    let name = read_method_name(text)?;
    let written = page_with(heap, name.len(), |page| write_text(name, page))?;
    Ok(text_reading(name.to_vec(heap)?, written))
}

fn int(heap: Global, text: &[u8]) -> Result<Reading, Unread> {
    let number = i64::from(read_int(text)?);
    let written = page_with(heap, int_len(number), |page| write_int(number, page))?;
    Ok(number_reading(heap, number, 0, written))
}

fn boolean(heap: Global, text: &[u8]) -> Result<Reading, Unread> {
    let value = read_boolean(text)?;
    let written = page_with(heap, boolean_len(), |page| write_boolean(value, page))?;
    Ok(number_reading(heap, i64::from(value), 0, written))
}

fn double(heap: Global, text: &[u8]) -> Result<Reading, Unread> {
    let (number, scale) = read_double(text)?;
    let len = double_len(number, scale);
    let written = page_with(heap, len, |page| write_double(number, scale, page))?;
    Ok(number_reading(heap, number, scale, written))
}

fn date(heap: Global, text: &[u8]) -> Result<Reading, Unread> {
    let date = read_date(text)?;
    let written = page_with(heap, date_len(), |page| write_date(&date, page))?;
    Ok(text_reading(date.text().to_vec(heap)?, written))
}

fn base64(heap: Global, text: &[u8]) -> Result<Reading, Unread> {
    let _ = check_base64(text)?;
    let text: Vec<u8> = Decoded::new(text).collect(heap)?;
    let bytes = text.as_slice();
    let written = page_with(heap, base64_len(bytes), |page| write_base64(bytes, page))?;
    Ok(text_reading(text, written))
}

fn string(heap: Global, text: &[u8]) -> Result<Reading, Unread> {
    let _ = check_characters(text)?;
    let text: Vec<u8> = Characters::new(text).collect(heap)?;
    let plain = text.as_slice();
    let len = characters_len(plain).unwrap_or(0);
    let written = page_with(heap, len, |page| write_characters(plain, page))?;
    Ok(text_reading(text, written))
}

// The text of a <base64> element: checking, decoding byte by byte, and the canonical spelling.
#![tactic(auto)]

ghost use Rattle.std.specs.Prelude.{◌≡◌, ◌+◌, ◌%◌, ◌^◌, ◌<◌, ◌≤◌, true, false, ◌&&◌, [], ◌∷◌, ◌++◌, length, drop, Decides, MatchOption, MatchResult, ◌==◌, nat_le};
ghost use Rattle.std.specs.List.{prefix_len};
ghost use Rattle.texts.specs.Pages.{Writes};
ghost use Rattle.texts.specs.Streams.{shown_laws};
ghost use Rattle.base64_texts.specs.Base64.{is_letter, is_pad, sextet, letter as letterOf, nonblank, sextets, padding, last_or, decoded, is_base64, base64_spelling, SpellsBytes};
ghost use Rattle.base64_texts.specs.Cursor.{ahead, left as bytesLeft};
ghost use Rattle.std.specs.Iterator.{YieldsFirst, item_count};

use texts::Malformed;
use texts::bytes::{Blank, Class};
use texts::streams::Stream;

fn is_letter(byte: u8) -> bool
    ensures { result ≡ is_letter byte }
{
    matches!(byte, b'A'..=b'Z' | b'a'..=b'z') || matches!(byte, b'0'..=b'9' | b'+' | b'/')
}

// What a letter is worth.
fn worth(letter: u8) -> u8
    ensures { result ≡ sextet letter }
{
    match letter {
        b'A'..=b'Z' => letter - b'A',
        b'a'..=b'z' => letter - b'a' + 26,
        b'0'..=b'9' => letter - b'0' + 52,
        b'+' => 62,
        _ => 63,
    }
}

// The letter worth `value`.
fn letter(value: u8) -> u8
    requires { value < 64 }
    ensures { result ≡ letterOf value }
{
    match value {
        0..26 => value + b'A',
        26..52 => value - 26 + b'a',
        52..62 => value - 52 + b'0',
        62 => b'+',
        _ => b'/',
    }
}

// The letters at the front of a text, blanks aside: how many, what the last is worth, and what stands behind them.
#[derive(Drop)]
struct Front<'a> {
    count: usize,
    last: u8,
    rest: &'a [u8],
}

fn front_of(text: &[u8]) -> Front<'_>
    ensures count { result.count ≡ length (sextets text.now) }
    ensures last { result.last ≡ last_or 0 (sextets text.now) }
    ensures rest { nonblank result.rest.now ≡ padding text.now }
    ensures within { result.count + length result.rest.now ≤ length text.now }
{
    let mut count = 0;
    let mut last = b'A';
    let mut rest = text;
    while let Some((byte, behind)) = rest.split_first() {
        if is_letter(*byte) {
            count += 1;
            last = *byte;
        } else if !Blank::has(*byte) {
            break;
        }
        rest = behind;
    }
    Front {
        count,
        last: worth(last),
        rest,
    }
}

// How many `=` a text holds, where it holds nothing else but blanks. None is no count; the caller says that it is an error.
fn pads_of(text: &[u8]) -> Option<usize>
    ensures { MatchOption result (prefix_len is_pad (nonblank text.now) < length (nonblank text.now)) (λ n. (prefix_len is_pad (nonblank text.now) ≡ length (nonblank text.now)) × (n ≡ length (nonblank text.now)) × (n ≤ length text.now)) }
{
    let mut pads = 0;
    for byte in text {
        if *byte == b'=' {
            pads += 1;
        } else if !Blank::has(*byte) {
            return None;
        }
    }
    Some(pads)
}

// Whether the bits of the last sextet that the `=` leave unused are zero; nothing goes with more than two `=`.
fn ends_well(last: u8, pads: usize) -> bool
    ensures { result ≡ (nat_le pads 2 && last % (4 ^ pads) == 0) }
{
    match pads {
        0 => true,
        1 => last % 4 == 0,
        2 => last % 16 == 0,
        _ => false,
    }
}

// How many bytes a base64 text stands for.
pub fn check_base64(text: &[u8]) -> Result<usize, Malformed>
    ensures verdict { MatchResult result (λ n. (is_base64 text.now ≡ true) × (n ≡ length (decoded text.now))) (λ _. is_base64 text.now ≡ false) }
    ensures spells { Decides (is_base64 text.now) (SpellsBytes text.now) }
    ensures canonical { is_base64 text.now ≡ true → base64_spelling (decoded text.now) ≡ nonblank text.now }
{
    let Front { count, last, rest } = front_of(text);
    let pads = pads_of(rest).ok_or(Malformed)?;
    if (count + pads) % 4 != 0 || !ends_well(last, pads) {
        return Err(Malformed);
    }
    Ok(count / 4 * 3 + count % 4 * 3 / 4)
}

// The bits of the last sextet read that belong to the next byte: its low four, or its low two. They are data and no
// closure, since a cursor stands still between its calls.
#[derive(Clone, Copy)]
enum Held {
    Nothing,
    Four(u8),
    Two(u8),
}

// Gives the bytes that a text stands for, one after another, up to the first byte that is neither letter nor blank.
#[derive(Drop)]
pub struct Decoded<'a> {
    rest: &'a [u8],
    held: Held,
}

impl<'a> Decoded<'a> {
    pub fn new(text: &'a [u8]) -> Decoded<'a>
        ensures { bytesLeft result ≡ decoded text.now }
    {
        Decoded {
            rest: text,
            held: Held::Nothing,
        }
    }

    // Reads the next letter.
    #[tactic(auto, using(crate::proofs::Scan::sextets_letter, crate::proofs::Groups::sextet_below))]
    fn next_sextet(&mut self) -> Option<u8>
        ensures sextets { MatchOption result ((ahead self.old ≡ []) × (ahead self.new ≡ [])) (λ s. (s < 64) × (ahead self.old ≡ s ∷ ahead self.new)) }
        ensures held { self.new.held ≡ self.old.held }
    {
        while let Some((byte, behind)) = self.rest.split_first() {
            if is_letter(*byte) {
                self.rest = behind;
                return Some(worth(*byte));
            }
            if !Blank::has(*byte) {
                break;
            }
            self.rest = behind;
        }
        None
    }
}

impl<'a> Iterator for Decoded<'a> {
    type Item = u8;

    ghost next_gives = { YieldsFirst bytesLeft };

    ghost remaining = { item_count bytesLeft };

    fn next(&mut self) -> Option<u8> {
        let value = self.next_sextet()?;
        match self.held {
            Held::Nothing => {
                let second = self.next_sextet()?;
                self.held = Held::Four(second);
                Some(value * 4 + second / 16)
            }
            Held::Four(before) => {
                self.held = Held::Two(value);
                Some(before % 16 * 16 + value / 4)
            }
            Held::Two(before) => {
                self.held = Held::Nothing;
                Some(before % 4 * 64 + value)
            }
        }
    }
}

impl Stream for Decoded<'_> {
    ghost left = { bytesLeft };

    ghost laws = { shown_laws bytesLeft };
}

// How long the spelling of these bytes is.
pub fn base64_len(bytes: &[u8]) -> usize
    ensures { result ≡ length (base64_spelling bytes.now) }
{
    bytes.len().div_ceil(3) * 4
}

// The four characters that stand for one to three bytes.
fn quad(group: &[u8]) -> [u8; 4]
    requires { (0 < length group.now) × (length group.now ≤ 3) }
    ensures { result ≡ base64_spelling group.now }
{
    match group {
        [a, b, c] => [
            letter(*a / 4),
            letter(*a % 4 * 16 + *b / 16),
            letter(*b % 16 * 4 + *c / 64),
            letter(*c % 64),
        ],
        [a, b] => [
            letter(*a / 4),
            letter(*a % 4 * 16 + *b / 16),
            letter(*b % 16 * 4),
            b'=',
        ],
        [a] => [letter(*a / 4), letter(*a % 4 * 16), b'=', b'='],
        _ => unreachable(),
    }
}

// Writes the spelling of the bytes at the front of a page that has room for it.
fn spell(bytes: &[u8], page: &mut [u8])
    requires { length (base64_spelling bytes.now) ≤ length page.old }
    ensures { page.new ≡ base64_spelling bytes.now ++ drop (length (base64_spelling bytes.now)) page.old }
{
    // A place that is counted along, since nothing is known of what is written through `chunks_exact_mut`.
    let mut to = 0;
    for group in bytes.chunks(3) {
        page[to..to + 4].copy_from_slice(&quad(group));
        to += 4;
    }
}

// Writes the canonical spelling of the bytes at the front of the page, or nothing where it does not fit.
pub fn write_base64(bytes: &[u8], page: &mut [u8]) -> Option<usize>
    ensures writes { Writes (base64_spelling bytes.now) page.old page.new result }
    ensures reads_back { (is_base64 (base64_spelling bytes.now) ≡ true) × (decoded (base64_spelling bytes.now) ≡ bytes.now) }
{
    let len = base64_len(bytes);
    if len > page.len() {
        return None;
    }
    spell(bytes, page);
    Some(len)
}

// Characters written in their canonical form.
ghost use Rattle.std.specs.Prelude.{◌≡◌, ◌+◌, ◌^◌, ◌≤◌, true, ◌++◌, length, drop, MatchOption};
ghost use Rattle.characters.specs.References.{all_characters};
ghost use Rattle.characters.specs.Spelling.{reference_for, escape, characters_spelling, ReadsBack};
ghost use Rattle.std.specs.Option.{option_map};
ghost use Rattle.texts.specs.Pages.{Writes};

// The reference that is written for a character; none where it stands for itself.
pub fn escaped(c: char) -> Option<&'static str>
    ensures { option_map (λ x. x.now) result ≡ reference_for c }
{
    match c {
        '&' => Some("&amp;"),
        '<' => Some("&lt;"),
        '>' => Some("&gt;"),
        '\r' => Some("&#13;"),
        _ => None,
    }
}

// How many bytes a character takes where it is written.
#[tactic(auto, using(crate::proofs::Pages::escape_some, crate::proofs::Pages::escape_none), unfolding(crate::specs::Spelling::escape))]
fn escaped_len(b: u8) -> usize
    ensures { result ≡ length (escape b) }
{
    escaped(char::from(b)).map_or(1, |reference| reference.len())
}

// How long the characters are where they are written; none where that is no `usize`.
pub fn characters_len(plain: &[u8]) -> Option<usize>
    ensures { MatchOption result (2 ^ 64 ≤ length (characters_spelling plain.now)) (λ n. n ≡ length (characters_spelling plain.now)) }
{
    let mut len: usize = 0;
    for b in plain {
        len = len.checked_add(escaped_len(*b))?;
    }
    Some(len)
}

// Writes a character to the front of a page, and gives its length there.
#[tactic(auto, using(crate::proofs::Pages::escape_some, crate::proofs::Pages::escape_none), unfolding(crate::specs::Spelling::escape))]
fn put(b: u8, page: &mut [u8]) -> usize
    requires { length (escape b) ≤ length page.old }
    ensures len { result ≡ length (escape b) }
    ensures page { page.new ≡ escape b ++ drop (length (escape b)) page.old }
{
    match escaped(char::from(b)) {
        Some(reference) => {
            page[..reference.len()].copy_from_slice(reference.as_bytes());
            reference.len()
        }
        None => {
            page[0] = b;
            1
        }
    }
}

// Writes characters to the front of a page, and gives their length; none, and nothing is written, where the page is too short.
pub fn write_characters(plain: &[u8], page: &mut [u8]) -> Option<usize>
    ensures written { Writes (characters_spelling plain.now) page.old page.new result }
    ensures reads_back { all_characters plain.now ≡ true → ReadsBack plain.now }
{
    let len = characters_len(plain)?;
    if len > page.len() {
        return None;
    }
    // Mostly all stand for themselves, and go to the page together.
    if len == plain.len() {
        page[..len].copy_from_slice(plain);
        return Some(len);
    }
    // The place is counted along, since the characters take one to five bytes each.
    let mut at = 0;
    for b in plain {
        at += put(*b, &mut page[at..]);
    }
    Some(len)
}

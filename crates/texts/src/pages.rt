// Writing to the front of a page, which is any lent slice.
ghost use Rattle.std.specs.Prelude.{length};
ghost use Rattle.texts.specs.Pages.{Writes};

// Writes a text as it stands, and gives its length; nothing where the page is too short.
pub fn write_text(text: &[u8], page: &mut [u8]) -> Option<usize>
    ensures { Writes text.now page.old page.new result }
{
    let len = text.len();
    if len > page.len() {
        return None;
    }
    page[..len].copy_from_slice(text);
    Some(len)
}

#![tactic(auto)]

// Tests of what the program `spell` does not show: texts compared as they are read, and writers on short pages.
#[cfg(test)]
mod tests {
    use characters::{characters_are, same_characters, write_characters};

    #[test]
    fn compares_with_bytes(rt: HostRuntime) {
        assert!(rt; characters_are(b"&amp;lt;", b"&lt;"));
        assert!(rt; characters_are(b"\r\n&#13;\n\r\r", b"\n\r\n\n\n"));
        assert!(rt; !characters_are(b"a&#98;", b"a"));
    }

    #[test]
    fn compares_texts(rt: HostRuntime) {
        assert!(rt; same_characters(b"&#x3C;&apos;", b"&lt;&#00039;"));
        assert!(rt; !same_characters(b"a", b"ab"));
        assert!(rt; !same_characters(b"&#13;", b"\r"));
    }

    #[test]
    fn writes_whole_or_not_at_all(rt: HostRuntime) {
        let mut page = *b"..............";
        assert_eq!(rt; write_characters(b"<\r>", &mut page), Some(13));
        assert!(rt; characters_are(&page, b"<\r>."));
        assert_eq!(rt; write_characters(b"&&&", &mut page), None);
        assert!(rt; characters_are(&page, b"<\r>."));
    }
}

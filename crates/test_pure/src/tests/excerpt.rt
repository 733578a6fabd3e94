//! A word as it stands in an error line.

use brc_text::{Excerpt, put_quoted};
use std::test::Fail;

#[test]
fn words_are_shown(rt: HostRuntime) -> Result<(), Fail> {
    let cases: [(&[u8], &[u8]); 6] = [
        (b"foo", b"\"foo\""),
        (b"", b"\"\""),
        (b" ~\x1f\x7f", b"\" ~\\x1F\\x7F\""),
        (b"\xc3\xa9\x00\xff", b"\"\\xC3\\xA9\\x00\\xFF\""),
        (b"a\"b\\", b"\"a\"b\\\""),
        (
            b"0123456789012345678901234567890123456789012345678901234567890123456789",
            b"\"0123456789012345678901234567890123456789012345678901234567890123\"",
        ),
    ];
    for (word, shown) in cases {
        let mut text = Vec::new(rt.alloc());
        put_quoted(&mut text, &Excerpt::of(word)).map_err(|_fault| "full")?;
        assert_eq!(rt; text.as_slice(), shown);
    }
    assert!(rt; Excerpt::of(b"foo") == Excerpt::of(b"foo"));
    assert!(rt; Excerpt::of(b"foo") != Excerpt::of(b"fo"));
    Ok(())
}

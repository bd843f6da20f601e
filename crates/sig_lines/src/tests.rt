use crate::{Lines, hex_of, next_line, number_of};
use std::test::Fail;

#[test]
fn writes_words_and_lines(rt: HostRuntime) -> Result<(), Fail> {
    let mut lines = Lines::new(rt.alloc());
    lines.word("group")?;
    lines.number(3)?;
    lines.hex(&[7, 0, 0, 0, 0, 0, 0, 0])?;
    lines.number(u64::MAX)?;
    lines.end_line()?;
    lines.hex(&[0; 8])?;
    lines.hex(&[1, 0xf0, 0, 0, 0, 0, 0, 0])?;
    lines.end_line()?;
    let bytes = lines.into_bytes();
    assert_eq!(rt;
        bytes.as_slice(),
        b"group 3 7 18446744073709551615\n0 f00000000000000001\n".as_slice()
    );
    Ok(())
}

#[test]
fn reads_numbers(rt: HostRuntime) -> Result<(), Fail> {
    for (word, number) in [
        (b"0".as_slice(), Some(0)),
        (b"18446744073709551615".as_slice(), Some(u64::MAX)),
        (b"18446744073709551616".as_slice(), None),
        (b"007".as_slice(), None),
        (b"+1".as_slice(), None),
        (b"".as_slice(), None),
    ] {
        assert_eq!(rt; number_of(word), number);
    }
    assert_eq!(rt;
        hex_of(b"f00000000000000001"),
        Some([1, 0xf0, 0, 0, 0, 0, 0, 0])
    );
    assert_eq!(rt; hex_of(b"01"), None);
    assert_eq!(rt; hex_of(b"F"), None);
    Ok(())
}

#[test]
fn finds_the_ends_of_lines(rt: HostRuntime) -> Result<(), Fail> {
    assert_eq!(rt; next_line(b"ab\ncd\ne", 0), Some(2));
    assert_eq!(rt; next_line(b"ab\ncd\ne", 2), Some(2));
    assert_eq!(rt; next_line(b"ab\ncd\ne", 3), Some(5));
    assert_eq!(rt; next_line(b"ab\ncd\ne", 6), None);
    Ok(())
}

use crate::wrapped;
use std::test::*;

/// Texts, a width, an indent, and the lines, each with a line feed behind it.
const CASES: [(&str, usize, usize, &str); 6] = [
    ("", 5, 0, ""),
    ("  ", 5, 0, ""),
    ("one two", 7, 2, "one two\n"),
    ("one two", 6, 2, "one\n  two\n"),
    ("a  longerword b", 6, 2, "a long\n  erwo\n  rd b\n"),
    ("pin h 5 1 write", 8, 0, "pin h 5\n1 write\n"),
];

#[test]
fn texts_are_wrapped(rt: HostRuntime) -> Result<(), Fail> {
    for (text, width, indent, expected) in CASES {
        let lines = wrapped(rt.alloc(), text.as_bytes(), width, indent)?;
        let mut found = Vec::new(rt.alloc());
        for line in lines.iter() {
            found.extend_from_slice(line.as_slice())?;
            found.push(b'\n')?;
        }
        assert_eq!(rt; found.as_slice(), expected.as_bytes(), "{text}");
    }
    Ok(())
}

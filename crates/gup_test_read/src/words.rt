use gup_base::{PageNo, WordNo};
use gup_read_words::{
    address, are_spaced, count, cut_words, index, is_name, is_passed, is_printable, line_text,
    number, page, range, segment, turn, word_no,
};
use std::process::Abort;
use std::test::*;

#[test]
fn numbers(rt: HostRuntime) {
    for (word, expected) in [
        ("0", Some(0)),
        ("7", Some(7)),
        ("18446744073709551615", Some(u64::MAX)),
        ("18446744073709551616", None),
        ("00", None),
        ("07", None),
        ("", None),
        ("+7", None),
        ("-7", None),
        ("7 ", None),
        ("7a", None),
    ] {
        assert_eq!(rt; number(word), expected, "{word}");
    }
}

#[test]
fn counts(rt: HostRuntime) {
    for (least, most, word, expected) in [
        (1, 64, "0", None),
        (1, 64, "1", Some(1)),
        (1, 64, "64", Some(64)),
        (1, 64, "65", None),
        (1, 64, "01", None),
        (0, u64::MAX, "18446744073709551615", Some(u64::MAX)),
        (9, 8, "9", None),
    ] {
        assert_eq!(rt; count(least, most, word), expected, "{word}");
    }
}

#[test]
fn indices(rt: HostRuntime) {
    for (word, expected) in [
        ("0", Some(0)),
        ("4294967295", Some(u32::MAX)),
        ("4294967296", None),
        ("01", None),
        ("", None),
    ] {
        assert_eq!(rt; index(word), expected, "{word}");
    }
}

#[test]
fn pages(rt: HostRuntime) {
    for (word, expected) in [
        ("0", Some(0)),
        ("34359738367", Some(34_359_738_367)),
        ("34359738368", None),
        ("05", None),
        ("", None),
    ] {
        assert_eq!(rt; page(word).map(|p| p.get()), expected, "{word}");
    }
}

#[test]
fn word_numbers(rt: HostRuntime) {
    for (word, expected) in [
        ("0", Some(0)),
        ("511", Some(511)),
        ("512", None),
        ("00", None),
        ("", None),
    ] {
        assert_eq!(rt; word_no(word).map(|w| w.get()), expected, "{word}");
    }
}

#[test]
fn addresses(rt: HostRuntime) {
    for (text, expected) in [
        ("5.0", Some((5, 0))),
        ("34359738367.511", Some((34_359_738_367, 511))),
        ("34359738368.0", None),
        ("5.512", None),
        ("5", None),
        ("5.", None),
        (".0", None),
        ("5.0.0", None),
        ("05.0", None),
        ("5.00", None),
        ("5:0", None),
        ("", None),
    ] {
        let found = address(text).map(|(page, word)| (page.get(), word.get()));
        assert_eq!(rt; found, expected, "{text}");
    }
}

#[test]
fn ranges(rt: HostRuntime) {
    for (most, first, count, expected) in [
        (1_024, "5", "1", Some((5, 1))),
        (1_024, "0", "1024", Some((0, 1_024))),
        (1_024, "0", "1025", None),
        (1_024, "5", "0", None),
        (64, "5", "64", Some((5, 64))),
        (64, "5", "65", None),
        (1_024, "34359738367", "1", Some((34_359_738_367, 1))),
        (1_024, "34359738367", "2", None),
        (1_024, "34359738368", "1", None),
        (1_024, "05", "1", None),
        (1_024, "5", "", None),
    ] {
        let found = range(most, first, count).map(|(page, n)| (page.get(), n));
        assert_eq!(rt; found, expected, "{first} {count}");
    }
}

#[test]
fn segments(rt: HostRuntime) {
    for (text, expected) in [
        ("0:1", Some((0, 1))),
        ("1:64", Some((1, 64))),
        ("1:65", None),
        ("1:0", None),
        ("4294967295:1", Some((u32::MAX, 1))),
        ("4294967296:1", None),
        ("1", None),
        (":1", None),
        ("1:", None),
        ("1:1:1", None),
        ("", None),
    ] {
        assert_eq!(rt; segment(text), expected, "{text}");
    }
}

#[test]
fn turns(rt: HostRuntime) {
    for (word, expected) in [
        ("a", Some(("a", 1))),
        ("a*1", Some(("a", 1))),
        ("a*0", None),
        ("a*1000000", Some(("a", 1_000_000))),
        ("a*1000001", None),
        ("a*02", None),
        ("a*b*2", None),
        ("a*", None),
        ("*2", Some(("", 2))),
        ("", Some(("", 1))),
    ] {
        assert_eq!(rt; turn(word), expected, "{word}");
    }
}

#[test]
fn names(rt: HostRuntime) {
    for (word, expected) in [
        ("a", true),
        ("process0", true),
        ("a234567890123456", true),
        ("a2345678901234567", false),
        ("9a", false),
        ("A", false),
        ("aB", false),
        ("a_b", false),
        ("a b", false),
        ("\u{e9}", false),
        ("", false),
    ] {
        assert_eq!(rt; is_name(word), expected, "{word}");
    }
}

#[test]
fn lines(rt: HostRuntime) {
    for (line, printable, passed) in [
        ("on t load 5.0", true, false),
        (" ~", true, false),
        ("", true, true),
        ("# a comment", true, true),
        ("#", true, true),
        (" #", true, false),
        ("on\tt", false, false),
        ("on t\r", false, false),
        ("\u{7f}", false, false),
        ("# \u{e9}", false, true),
    ] {
        let bytes = line.as_bytes();
        let text = if printable { Some(line) } else { None };
        let found = (is_printable(bytes), is_passed(bytes), line_text(bytes));
        assert_eq!(rt; found, (printable, passed, text), "{line}");
    }
    assert_eq!(rt; line_text(&[255]), None);
}

#[test]
fn words_of_lines(rt: HostRuntime) -> Result<(), Fail> {
    let mut parts = Vec::new(rt.alloc());
    for (line, count, spaced) in [
        ("on t load 5.0", 4, true),
        ("a", 1, true),
        ("", 1, false),
        (" a", 2, false),
        ("a ", 2, false),
        ("a  b", 3, false),
    ] {
        cut_words(line, &mut parts)?;
        assert_eq!(rt;
            (parts.len(), are_spaced(&parts)),
            (count, spaced),
            "{line}"
        );
    }
    cut_words("gup 1", &mut parts)?;
    assert_eq!(rt; parts.as_slice(), ["gup", "1"].as_slice());
    Ok(())
}

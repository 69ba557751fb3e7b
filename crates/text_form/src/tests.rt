use super::*;

#[test]
fn lines(rt: HostRuntime) {
    let long = b"do 3 open 65535 nf_conntrack:12 17592186044415\ndo\n";
    // A text, whether it has a whole line, the first one, and what stands behind its newline.
    let cases: [(&[u8], bool, &[u8], &[u8]); 7] = [
        (b"", false, b"", b""),
        (b"ker", false, b"", b""),
        (b"\n", true, b"", b""),
        (b"\nker", true, b"", b"ker"),
        (b"cpus 4\n\nker", true, b"cpus 4", b"\nker"),
        (b"kernel\n", true, b"kernel", b""),
        (long, true, &long[..46], b"do\n"),
    ];
    for (text, is_whole, first, behind) in cases {
        match next_line(text) {
            None => assert!(rt; !is_whole),
            Some((line, rest)) => {
                assert!(rt; is_whole);
                assert_eq!(rt; line, first);
                assert_eq!(rt; rest, behind);
            }
        }
    }
}

#[test]
fn bytes_of_lines(rt: HostRuntime) {
    let cases: [(&[u8], bool); 7] = [
        (b"", true),
        (b" ~", true),
        (b"do 3 open 65535 nf_conntrack:12 17592186044415", true),
        (b"a\tb", false),
        (b"a\x7f", false),
        (b"\x1fa", false),
        (b"do 3 open 65535 nf_conntrack:12 1759218604441\x80", false),
    ];
    for (line, wanted) in cases {
        assert_eq!(rt; has_form_bytes(line), wanted);
    }
}

#[test]
fn words(rt: HostRuntime) {
    // A line, how many words it has, a place, and the word there. No words where one would be empty.
    let cases: [(&[u8], usize, usize, &[u8]); 14] = [
        (b"print", 1, 0, b"print"),
        (b"do m load ext4", 4, 0, b"do"),
        (b"do m load ext4", 4, 3, b"ext4"),
        (b"do m load ext4", 4, 4, b""),
        (b"a b c d e f", 6, 5, b"f"),
        (b"a b c d e f g hi", 8, 7, b"hi"),
        (b"a b c d e f g hi", 8, 8, b""),
        (b"", 0, 0, b""),
        (b" ", 0, 0, b""),
        (b"print ", 0, 0, b"print"),
        (b" print", 0, 1, b"print"),
        (b"go  m", 0, 2, b"m"),
        (b"a b c d e f ", 0, 5, b"f"),
        (b"a b c d e f  g", 0, 7, b"g"),
    ];
    for (line, count, place, word) in cases {
        assert_eq!(rt; word_at(line, place), word);
        assert_eq!(rt; has_empty_word(line), count == 0);
        match cut_words(line) {
            None => assert_eq!(rt; count, 0),
            Some(words) => {
                assert_eq!(rt; words.count(), count);
                assert_eq!(rt; word_count(line), count);
                assert_eq!(rt; words.at(place), word);
            }
        }
    }
}

#[test]
fn numbers(rt: HostRuntime) {
    let cases: [(&[u8], u64, u64, Option<u64>); 12] = [
        (b"0", 0, 896, Some(0)),
        (b"896", 0, 896, Some(896)),
        (b"897", 0, 896, None),
        (b"0", 1, 64, None),
        (b"007", 0, 64, None),
        (b"00", 0, 64, None),
        (b"-1", 0, 64, None),
        (b"1 ", 0, 64, None),
        (b"", 0, 64, None),
        (b"18446744073709551615", 0, u64::MAX, Some(u64::MAX)),
        (b"18446744073709551616", 0, u64::MAX, None),
        (b"99999999999999999999", 0, u64::MAX, None),
    ];
    for (word, low, high, wanted) in cases {
        assert_eq!(rt; parse_number(word, low, high), wanted);
    }
    assert_eq!(rt; parse_below(b"3", 4), Some(3));
    assert_eq!(rt; parse_below(b"4", 4), None);
}

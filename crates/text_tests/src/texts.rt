use dim_text::{
    Parts, frame_sides, is_name, is_number, name, number, number64, signed, state_in, state_word,
};

const NUMBERS: [(&[u8], Option<u32>); 9] = [
    (b"0", Some(0)),
    (b"65536", Some(65536)),
    (b"65537", None),
    (b"", None),
    (b"00", None),
    (b"016", None),
    (b"-1", None),
    (b"+1", None),
    (b"1x", None),
];

#[test]
fn a_number_has_one_spelling(rt: HostRuntime) {
    for (word, want) in &NUMBERS {
        assert_eq!(rt; number(word, 65536), *want);
    }
    assert_eq!(rt; number(b"4294967295", u32::MAX), Some(4294967295));
    assert_eq!(rt; number(b"4294967296", u32::MAX), None);
    assert_eq!(rt;
        number64(b"18446744073709551615", u64::MAX),
        Some(18446744073709551615)
    );
    assert_eq!(rt; number64(b"18446744073709551616", u64::MAX), None);
}

#[test]
fn a_number_may_be_long_and_is_in_no_range_then(rt: HostRuntime) {
    let digits = [b'7'; 5000];
    assert!(rt; is_number(&digits));
    assert_eq!(rt; number64(&digits, u64::MAX), None);
    assert_eq!(rt; signed(&digits), None);
}

const SIGNED: [(&[u8], Option<i64>); 9] = [
    (b"0", Some(0)),
    (b"-1", Some(-1)),
    (b"9223372036854775807", Some(9223372036854775807)),
    (b"9223372036854775808", None),
    (b"-9223372036854775808", Some(-9223372036854775808)),
    (b"-9223372036854775809", None),
    (b"-0", None),
    (b"-", None),
    (b"--1", None),
];

#[test]
fn a_signed_number_has_64_bits(rt: HostRuntime) {
    for (word, want) in &SIGNED {
        assert_eq!(rt; signed(word), *want);
    }
}

const NAMES: [(&[u8], bool); 9] = [
    (b"f", true),
    (b"_1", true),
    (b"abcdefghijklmnopqrstuvwX", true),
    (b"abcdefghijklmnopqrstuvwXY", false),
    (b"", false),
    (b"1x", false),
    (b"a-b", false),
    (b"a:0", false),
    (b"\xc3\xa9", false),
];

#[test]
fn a_name_has_1_to_24_bytes(rt: HostRuntime) {
    for (word, want) in &NAMES {
        assert_eq!(rt; is_name(word), *want);
        assert_eq!(rt; name(word).is_some(), *want);
    }
    assert_eq!(rt; name(b"left"), Some("left"));
}

#[test]
fn a_state_has_one_word(rt: HostRuntime) {
    assert!(rt; state_word(true) == "on" && state_word(false) == "off");
    assert_eq!(rt; state_in(b"on"), Some(true));
    assert_eq!(rt; state_in(b"off"), Some(false));
    assert!(rt; state_in(b"").is_none() && state_in(b"On").is_none());
    assert!(rt; state_in(b"off ").is_none() && state_in(b"yes").is_none());
}

#[test]
fn parts_stand_between_separators(rt: HostRuntime) {
    let mut lines = Parts::lines(b"a\n\nb");
    assert_eq!(rt; lines.next_ended(), Some(b"a".as_slice()));
    assert_eq!(rt; lines.next_ended(), Some(b"".as_slice()));
    assert_eq!(rt; lines.next_ended(), None);
    assert_eq!(rt; lines.next_part(), Some(b"b".as_slice()));
    assert!(rt; lines.is_done());
    let mut words = Parts::words(b"a  b");
    assert_eq!(rt; words.next_part(), Some(b"a".as_slice()));
    assert_eq!(rt; words.next_part(), Some(b"".as_slice()));
    assert_eq!(rt; words.next_part(), Some(b"b".as_slice()));
    assert_eq!(rt; words.next_part(), None);
}

#[test]
fn a_frame_has_one_colon(rt: HostRuntime) {
    assert_eq!(rt;
        frame_sides(b"left:0"),
        Some((b"left".as_slice(), b"0".as_slice()))
    );
    assert_eq!(rt; frame_sides(b":"), Some((b"".as_slice(), b"".as_slice())));
    assert_eq!(rt; frame_sides(b"left"), None);
    assert_eq!(rt; frame_sides(b"a:b:c"), None);
}

use texts::{NumberError, after_last, first_position, is_numeral, number_up_to, value_up_to};

const WORDS: [(&str, u64, Result<u64, NumberError>); 6] = [
    ("0", 0, Ok(0)),
    ("18446744073709551615", u64::MAX, Ok(u64::MAX)),
    (
        "18446744073709551616",
        u64::MAX,
        Err(NumberError::OutOfRange),
    ),
    ("", 9, Err(NumberError::NotANumber)),
    ("007", 9, Err(NumberError::NotANumber)),
    ("1e0", 9, Err(NumberError::NotANumber)),
];

#[test]
fn numbers(rt: HostRuntime) {
    for (word, most, number) in &WORDS {
        assert!(rt; number_up_to(word.as_bytes(), *most) == *number, "{word}");
    }
}

#[test]
fn numerals_and_positions(rt: HostRuntime) {
    let word = b"41";
    assert!(rt; is_numeral(word) && value_up_to(word, 41) == Some(41));
    assert!(rt; first_position(b"a/b/c", b'/') == 1 && after_last(b"a/b/c", b'/') == Some(4));
}

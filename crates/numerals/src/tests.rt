// Numbers as text, and text as numbers.
use crate::{Numeral, numbers};
use std::test::Fail;

#[test]
fn numbers_are_written_in_decimal(rt: HostRuntime) -> Result<(), Fail> {
    for (number, text) in [
        (0, "0"),
        (7, "7"),
        (-7, "-7"),
        (1_020_500_001, "1020500001"),
        (i128::from(i64::MIN), "-9223372036854775808"),
        (i128::from(u64::MAX), "18446744073709551615"),
    ] {
        let written = format!(in rt.alloc(); "{}", Numeral(number))?;
        assert_eq!(rt; written.as_str(), text);
    }
    Ok(())
}

#[test]
fn numbers_are_read(rt: HostRuntime) {
    assert_eq!(rt; numbers::<0>(""), Some([]));
    assert_eq!(rt; numbers::<0>(" \t "), Some([]));
    assert_eq!(rt; numbers::<1>("7"), Some([7]));
    assert_eq!(rt; numbers::<3>("1 -2 +3"), Some([1, -2, 3]));
    assert_eq!(rt; numbers::<3>("  007\t-0 \u{2003}12\r\n"), Some([7, 0, 12]));
    assert_eq!(rt;
        numbers::<2>("-9223372036854775808 9223372036854775807"),
        Some([i64::MIN, i64::MAX])
    );
}

// Too few words, too many, and words that are no numbers of 64 bits.
#[test]
fn other_texts_have_no_numbers(rt: HostRuntime) {
    for text in [
        "",
        "1",
        "1 2 3",
        "1 two",
        "1 -",
        "1 +",
        "1 --2",
        "1 2.0",
        "1,2",
        "1 9223372036854775808",
        "1 -9223372036854775809",
    ] {
        assert_eq!(rt; numbers::<2>(text), None, "at {text}");
    }
}

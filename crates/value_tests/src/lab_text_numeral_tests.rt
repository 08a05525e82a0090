//! Tests of `lab_text`.

use lab_text::*;

const NUMBERS: [(&str, Option<u32>); 12] = [
    ("0", Some(0)),
    ("16384", Some(16_384)),
    ("4294967295", Some(4_294_967_295)),
    ("4294967296", None),
    ("99999999999999999999999", None),
    ("", None),
    ("00", None),
    ("07", None),
    ("+7", None),
    ("-7", None),
    ("7 ", None),
    ("0x7", None),
];

#[test]
fn numbers_have_neither_sign_nor_leading_zero(rt: HostRuntime) {
    for &(word, number) in &NUMBERS {
        assert_eq!(rt; read_number(word.as_bytes()), number, "{word:?}");
    }
}

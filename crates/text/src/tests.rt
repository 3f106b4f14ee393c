//! Edges of the encoding, of a text's length and of the rules. The expected values come from RFC 3629's table and from
//! the rules' words.
use crate::*;

#[test]
fn edges_that_are_read(rt: HostRuntime) {
    assert_eq!(rt; read_char(b"\x00"), Ok((0, 1)));
    assert_eq!(rt; read_char(b"\x7F\x80"), Ok((0x7F, 1)));
    assert_eq!(rt; read_char(b"\xC2\x80"), Ok((0x80, 2)));
    assert_eq!(rt; read_char(b"\xDF\xBF!"), Ok((0x7FF, 2)));
    assert_eq!(rt; read_char(b"\xE0\xA0\x80"), Ok((0x800, 3)));
    assert_eq!(rt; read_char(b"\xED\x9F\xBF"), Ok((0xD7FF, 3)));
    assert_eq!(rt; read_char(b"\xEE\x80\x80"), Ok((0xE000, 3)));
    assert_eq!(rt; read_char(b"\xEF\xBF\xBF"), Ok((0xFFFF, 3)));
    assert_eq!(rt; read_char(b"\xF0\x90\x80\x80"), Ok((0x1_0000, 4)));
    assert_eq!(rt; read_char(b"\xF4\x8F\xBF\xBF\xFF"), Ok((0x10_FFFF, 4)));
}

#[test]
fn edges_that_are_refused(rt: HostRuntime) {
    let malformed = Err(TextFault::Malformed { at: 0 });
    assert_eq!(rt; read_char(b""), malformed);
    assert_eq!(rt; read_char(b"\x80"), malformed);
    assert_eq!(rt; read_char(b"\xC1\xBF"), malformed, "overlong, two bytes");
    assert_eq!(rt; read_char(b"\xC3"), malformed, "cut short");
    assert_eq!(rt; read_char(b"\xC3\x28"), malformed);
    assert_eq!(rt; read_char(b"\xC3\xC0"), malformed);
    assert_eq!(rt;
        read_char(b"\xE0\x9F\xBF"),
        malformed,
        "overlong, three bytes"
    );
    assert_eq!(rt;
        read_char(b"\xED\xA0\x80"),
        malformed,
        "the first surrogate"
    );
    assert_eq!(rt; read_char(b"\xED\xBF\xBF"), malformed, "the last surrogate");
    assert_eq!(rt; read_char(b"\xE2\x82"), malformed);
    assert_eq!(rt;
        read_char(b"\xF0\x8F\xBF\xBF"),
        malformed,
        "overlong, four bytes"
    );
    assert_eq!(rt; read_char(b"\xF4\x90\x80\x80"), malformed, "above U+10FFFF");
    assert_eq!(rt; read_char(b"\xF5\x80\x80\x80"), malformed);
}

#[test]
fn edge_of_a_text_s_length(rt: HostRuntime) {
    let bytes = [0x61u8; 241];
    assert_eq!(rt; weigh_text(&BlankCounting, &bytes[0..240]), Ok(240));
    assert_eq!(rt;
        weigh_text(&BlankCounting, &bytes[..]),
        Err(TextFault::TooLong)
    );
    assert_eq!(rt; check_text(&bytes[0..240]), Ok(()));
    assert_eq!(rt; check_text(&bytes[..]), Err(TextFault::TooLong));
    let broken = [0xFFu8; 241];
    assert_eq!(rt;
        check_text(&broken[..]),
        Err(TextFault::TooLong),
        "the length is told first"
    );
    assert_eq!(rt;
        check_text(&broken[0..240]),
        Err(TextFault::Malformed { at: 0 })
    );
    assert_eq!(rt;
        check_text(b"caf\xC3\xA9 \xE9"),
        Err(TextFault::Malformed { at: 6 })
    );
}

#[test]
fn blanks_with_and_without(rt: HostRuntime) {
    assert_eq!(rt; weigh_text(&BlankCounting, b"a bc"), Ok(4));
    assert_eq!(rt; weigh_text(&BlankFree, b"a bc"), Ok(3));
    assert_eq!(rt;
        weigh_text(&BlankFree, b"\t\xC2\xA0 \xE3\x80\x80"),
        Ok(1),
        "U+3000 is no blank"
    );
    assert_eq!(rt; BlankCounting.weight_of(1_114_111), 1);
    assert_eq!(rt; BlankCounting.weight_of(1_114_112), 0);
    assert_eq!(rt; BlankFree.weight_of(u32::MAX), 0);
}

#[test]
fn rows_and_what_they_refuse(rt: HostRuntime) {
    let mut table = RowTable::new();
    assert_eq!(rt; table.weight_of(0x301), 1, "no row");
    assert_eq!(rt; table.add(0x300, 0x36F, 0), Ok(()));
    assert_eq!(rt; table.add(0x301, 0x301, 4), Ok(()));
    assert_eq!(rt; table.weight_of(0x300), 0);
    assert_eq!(rt; table.weight_of(0x301), 4, "the last row decides");
    assert_eq!(rt;
        table.add(2, 1, 5),
        Err(RowFault::BadRange { first: 2, last: 1 })
    );
    assert_eq!(rt;
        table.add(0, 1_114_112, 0),
        Err(RowFault::BadRange {
            first: 0,
            last: 1_114_112,
        })
    );
    assert_eq!(rt;
        table.add(0, 1_114_111, 5),
        Err(RowFault::TooHeavy { weight: 5 })
    );
    assert_eq!(rt; table.weight_of(0x61), 1, "a refused row changes nothing");
    for _ in 0..30 {
        assert_eq!(rt; table.add(0x61, 0x7A, 2), Ok(()));
    }
    assert_eq!(rt;
        table.add(2, 1, 5),
        Err(RowFault::TableFull),
        "32 rows, told first"
    );
    assert_eq!(rt;
        weigh_text(&SuppliedRule::RowTable(table), b"ab e\xCC\x81"),
        Ok(11)
    );
}

// The syntax of a sheet at its edges, and what replies look like.
use crate::headings::{MOST_BYTES, SheetOf, heading};
use crate::letters::Letter;
use crate::reader::Reader;
use crate::replies::{Reply, write_names};
use std::test::Fail;

// A line of a sheet, and the value of its last field; none where the line is malformed.
const LINES: [(&[u8], Option<i32>); 26] = [
    (b"1 M 2 0 350 0 0 7\n", Some(7)),
    (b"1 M 2 0 350 0 0 007\n", Some(7)),
    (b"1 M 2 0 350 0 0 -0\n", Some(0)),
    (b"1 M 2 0 350 0 0 9999999\n", Some(9_999_999)),
    (b"1 M 2 0 350 0 0 -9999999\n", Some(-9_999_999)),
    (b"1 M 2 0 350 0 0 0000007\n", Some(7)),
    (b"1 M 2 0 350 0 0 00000007\n", None),
    (b"1 M 2 0 350 0 0 -10000000\n", None),
    (b"1 M 2 0 350 0 0 -\n", None),
    (b"1 M 2 0 350 0 0 --7\n", None),
    (b"1 M 2 0 350 0 0 +7\n", None),
    (b"1 M 2 0 350 0 0 7-\n", None),
    (b"1 M 2 0 350 0 0 7.0\n", None),
    (b"1 M 2 0 350 0 0\n", None),
    (b"1 M 2 0 350 0 0 \n", None),
    (b"1 M 2 0 350 0 0 7 \n", None),
    (b"1 M 2 0 350 0 0 7 8\n", None),
    (b" 1 M 2 0 350 0 0 7\n", None),
    (b"1 M 2 0 350 0  7\n", None),
    (b"1 M 2 0 350 0 0\t7\n", None),
    (b"1 M 2 0 350 0 0 7\r\n", None),
    (b"1 m 2 0 350 0 0 7\n", None),
    (b"1 MM 2 0 350 0 0 7\n", None),
    (b"M 1 2 0 350 0 0 7\n", None),
    (b"\n", None),
    (b"1 M 2 0 350 0 0 7", None),
];

// Each letter with its call.
const LETTERS: [(&[u8], Option<Letter>); 18] = [
    (b"N", Some(Letter::NewStore)),
    (b"M", Some(Letter::Make)),
    (b"R", Some(Letter::Read)),
    (b"W", Some(Letter::Walk)),
    (b"T", Some(Letter::Turns)),
    (b"K", Some(Letter::Keep)),
    (b"D", Some(Letter::Drop)),
    (b"H", Some(Letter::Hand)),
    (b"F", Some(Letter::Fetch)),
    (b"E", Some(Letter::Enter)),
    (b"V", Some(Letter::Down)),
    (b"U", Some(Letter::Up)),
    (b"L", Some(Letter::Leave)),
    (b"S", Some(Letter::Sweep)),
    (b"s", None),
    (b"B", None),
    (b"SS", None),
    (b"", None),
];

// What a sheet begins with, and what it is then of.
const HEADINGS: [(&[u8], Option<SheetOf>); 8] = [
    (b"party call a code number d e f\n", Some(SheetOf::Maps)),
    (b"party call a severity hour d e f\n", Some(SheetOf::Traces)),
    (b"party call a code number d e f", None),
    (b"party call a code number d e f\r\n", None),
    (b"party call a code number d e f \n", None),
    (b"party call a code hour d e f\n", None),
    (b"\nparty call a code number d e f\n", None),
    (b"", None),
];

#[test]
fn lines_at_the_edges(rt: HostRuntime) -> Result<(), Fail> {
    for (text, expected) in LINES {
        let mut reader = Reader::new(text);
        let line = reader.next_line().ok_or("no line")?;
        assert_eq!(rt; line.number, 1);
        assert_eq!(rt; line.values.map(|values| values.f), expected);
        assert!(rt; reader.next_line().is_none());
    }
    Ok(())
}

#[test]
fn letters(rt: HostRuntime) -> Result<(), Fail> {
    for (part, expected) in LETTERS {
        assert_eq!(rt; Letter::of(part), expected);
    }
    Ok(())
}

#[test]
fn lines_are_numbered(rt: HostRuntime) -> Result<(), Fail> {
    let mut reader = Reader::new(b"\n1 R 0 0 0 0 0 0 9\n2 K 3 0 0 0 0 0\n1 R");
    let field = reader.next_field().ok_or("no field")?;
    assert_eq!(rt; field.line, 1);
    assert!(rt; field.part.is_empty());
    for (number, party) in [(2, None), (3, Some(2)), (4, None)] {
        let line = reader.next_line().ok_or("no line")?;
        assert_eq!(rt; line.number, number);
        assert_eq!(rt; line.values.map(|values| values.party), party);
    }
    assert!(rt; reader.next_line().is_none());
    Ok(())
}

#[test]
fn headings(rt: HostRuntime) -> Result<(), Fail> {
    for (sheet, expected) in HEADINGS {
        assert_eq!(rt; heading(sheet).map(|found| found.0), expected);
    }
    let mut sheet = b"party call a code number d e f\n".to_vec(rt.alloc())?;
    sheet.resize(MOST_BYTES, b'\n')?;
    let (_, lines) = heading(&sheet).ok_or("60,000 bytes refused")?;
    assert_eq!(rt; lines.len(), 59_969);
    sheet.push(b'\n')?;
    assert!(rt; heading(&sheet).is_none());
    Ok(())
}

#[test]
fn replies(rt: HostRuntime) -> Result<(), Fail> {
    let mut out = String::new(rt.alloc());
    write_names(&mut out)?;
    let first = Reply {
        line: 1,
        code: 100,
        x: 0,
        y: -350,
        z: 7,
    };
    let last = Reply {
        line: 29_985,
        code: 0,
        x: i64::MIN,
        y: i64::MAX,
        z: -1,
    };
    first.write(rt.alloc(), &mut out)?;
    last.write(rt.alloc(), &mut out)?;
    let expected =
        "line code x y z\n1 100 0 -350 7\n29985 0 -9223372036854775808 9223372036854775807 -1\n";
    assert_eq!(rt; out.as_str(), expected);
    Ok(())
}

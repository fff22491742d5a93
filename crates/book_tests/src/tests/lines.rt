// The text lines.
use super::number;
use line::{Line, put_line};
use std::process::Abort;
use theory::Kind;

// The line stands at the front of the output, what was behind it stays, and one byte less is too little.
fn shows(rt: &impl Abort, line: Line, expected: &[u8]) {
    let mut output = [7u8; 64];
    let count = put_line(&mut output, line).unwrap_or(0);
    assert!(rt; count == expected.len());
    let (front, rest) = output.split_at(count.min(64));
    assert!(rt; front == expected);
    assert!(rt; rest.iter().all(|byte| *byte == 7));
    let mut short = [7u8; 64];
    if count > 0 && count < 64 {
        assert_eq!(rt; number(put_line(&mut short[0..count - 1], line)), Some(23));
    }
    for byte in short {
        assert_eq!(rt; byte, 7);
    }
}

fn residue(index: u32, modulus: u32, residue: u32, kind: Kind) -> Line {
    Line::Residue {
        index,
        modulus,
        residue,
        kind,
    }
}

#[test]
fn lines(rt: HostRuntime) {
    shows(&rt, residue(8, 17, 13, Kind::Direct), b"8 17 13 direct\n");
    shows(&rt, residue(8, 11, 4, Kind::Doubling), b"8 11 4 doubling\n");
    shows(
        &rt,
        residue(32, 37, 0, Kind::Doubling),
        b"32 37 0 doubling\n",
    );
    shows(
        &rt,
        residue(4294967295, 4294967295, 4294967295, Kind::Doubling),
        b"4294967295 4294967295 4294967295 doubling\n",
    );
    shows(
        &rt,
        Line::Refused {
            number: 19,
            record: 0,
        },
        b"refused 19 record 0\n",
    );
    shows(
        &rt,
        Line::Refused {
            number: 255,
            record: 4294967295,
        },
        b"refused 255 record 4294967295\n",
    );
}

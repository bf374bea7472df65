// A line of each kind of answer, and bytes that are read and written.
use crate::command::{Command, Usage};
use crate::fault::{ParseFault, TextFault};
use crate::hex::{Hex, hex_text, unhex};
use crate::parse::parse;
use std::test::Fail;

#[test]
fn lines_are_read(rt: HostRuntime) {
    assert!(rt; matches!(parse(rt.alloc(), b""), Ok(None)));
    assert!(rt; matches!(parse(rt.alloc(), b"# held"), Ok(None)));
    assert!(rt; matches!(parse(rt.alloc(), b"held"), Ok(Some(Command::Held))));
    assert!(rt;
        matches!(
            parse(rt.alloc(), b"entry 48 absent"),
            Ok(Some(Command::Entry(48, _)))
        )
    );
    assert!(rt; matches!(parse(rt.alloc(), b"line 1 c7"), Ok(Some(Command::Line(_)))));
    assert!(rt;
        matches!(
            parse(rt.alloc(), b"held all"),
            Err(ParseFault::Malformed(Usage::Held))
        )
    );
    assert!(rt;
        matches!(
            parse(rt.alloc(), b"holds"),
            Err(ParseFault::Malformed(Usage::Unknown))
        )
    );
}

#[test]
fn bytes_are_read_and_written(rt: HostRuntime) -> Result<(), Fail> {
    for (text, bytes) in [
        ("-", b"".as_slice()),
        ("00ff7a", b"\x00\xff\x7a".as_slice()),
    ] {
        let read = unhex(rt.alloc(), text.as_bytes())?;
        assert_eq!(rt; read.as_slice(), bytes);
        let written = Hex(bytes).to_string(rt.alloc())?;
        assert_eq!(rt; written.as_str(), text);
        let written = hex_text(rt.alloc(), bytes)?;
        assert_eq!(rt; written.as_str(), text);
    }
    assert!(rt; matches!(unhex(rt.alloc(), b"0"), Err(TextFault::Malformed)));
    Ok(())
}

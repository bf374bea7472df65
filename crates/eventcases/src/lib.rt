// The worked examples of reading events, as tables that are run.
#![tactic(auto)]

#[cfg(test)]
mod tests {
    use events::derived::{Derived, Entries, Entry};
    use events::event::Event;
    use events::noting::noted;
    use events::types::TypeSet;
    use lines::line::Line;
    use lines::log::Lines;
    use records::Record;
    use refusals::{Place, Refusal};
    use std::test::Fail;

    // What was asked of an event: the one type that it is of, if it is of one, and its slots.
    type Answers = (Option<u8>, Option<u32>, Option<u32>, Option<u32>);

    fn answers<E: Event>(event: &E) -> Answers {
        let ty = (0..=255u8).rev().find(|ty| event.is_of(*ty));
        (ty, event.slot(0), event.slot(1), event.slot(2))
    }

    // Number, place and length of a refusal.
    fn place(refusal: Refusal) -> (u8, usize, usize) {
        match refusal.place {
            Place::Bytes(span) => (refusal.number, span.at, span.len),
            _ => (refusal.number, usize::MAX, usize::MAX),
        }
    }

    fn told<E: Event + Drop, X: Into<Refusal>>(
        read: Result<E, X>,
    ) -> Result<Answers, (u8, usize, usize)> {
        match read {
            Ok(event) => Ok(answers(&event)),
            Err(fault) => Err(place(fault.into())),
        }
    }

    fn line(text: &[u8]) -> Result<Answers, (u8, usize, usize)> {
        told(Line::read(text))
    }

    fn record(bytes: &[u8]) -> Result<Answers, (u8, usize, usize)> {
        told(Record::read(bytes))
    }

    #[test]
    fn lines_that_are_read(rt: HostRuntime) {
        assert_eq!(rt; line(b"0"), Ok((Some(0), None, None, None)));
        assert_eq!(rt; line(b"47"), Ok((Some(47), None, None, None)));
        assert_eq!(rt; line(b"1 c7"), Ok((Some(1), None, Some(7), None)));
        assert_eq!(rt;
            line(b"1 p0 c0 s0"),
            Ok((Some(1), Some(0), Some(0), Some(0)))
        );
        assert_eq!(rt;
            line(b"4 p4294967295 c4294967295 s255"),
            Ok((Some(4), Some(4294967295), Some(4294967295), Some(255)))
        );
    }

    #[test]
    fn words_that_are_bad(rt: HostRuntime) {
        assert_eq!(rt; line(b""), Err((12, 0, 0)), "an empty line");
        assert_eq!(rt; line(b" 1"), Err((12, 0, 0)), "a leading space");
        assert_eq!(rt; line(b"1 "), Err((12, 2, 0)), "a trailing space");
        assert_eq!(rt; line(b"1  c7"), Err((12, 2, 0)), "a doubled space");
        assert_eq!(rt; line(b"1 c07"), Err((12, 2, 3)), "a leading zero");
        assert_eq!(rt; line(b"048"), Err((12, 0, 3)), "bad before too large");
        assert_eq!(rt; line(b"c7"), Err((12, 0, 2)), "no type");
        assert_eq!(rt; line(b"1 c"), Err((12, 2, 1)), "no digits");
        assert_eq!(rt; line(b"1 x7"), Err((12, 2, 2)), "an unknown letter");
        assert_eq!(rt; line(b"1 C7"), Err((12, 2, 2)), "a capital letter");
        assert_eq!(rt; line(b"1 c7\r"), Err((12, 2, 3)), "a carriage return");
        assert_eq!(rt; line(b"1 c7 c8"), Err((12, 5, 2)), "a letter again");
        assert_eq!(rt; line(b"1 c7 p8"), Err((12, 5, 2)), "letters out of order");
    }

    #[test]
    fn numbers_that_are_too_large(rt: HostRuntime) {
        assert_eq!(rt; line(b"48"), Err((13, 0, 2)));
        assert_eq!(rt; line(b"1 c4294967296"), Err((13, 2, 11)));
        assert_eq!(rt; line(b"1 s256"), Err((13, 2, 4)));
        assert_eq!(rt; line(b"1 p99999999999999999999999"), Err((13, 2, 24)));
        assert_eq!(rt;
            line(b"48 c4294967296"),
            Err((13, 0, 2)),
            "the first of two"
        );
        assert_eq!(rt; line(b"48 c07"), Err((12, 3, 3)), "a bad word after it");
        assert_eq!(rt;
            line(b"1 c4294967296 p7"),
            Err((12, 14, 2)),
            "its letter is used up"
        );
    }

    #[test]
    fn records_that_are_read(rt: HostRuntime) {
        assert_eq!(rt; record(&[2, 1, 0, 0, 0, 7]), line(b"1 c7"));
        assert_eq!(rt; record(&[0, 47]), line(b"47"));
        assert_eq!(rt;
            record(&[7, 4, 1, 2, 3, 4, 255, 255, 255, 255, 255]),
            line(b"4 p16909060 c4294967295 s255")
        );
    }

    #[test]
    fn records_that_are_bad(rt: HostRuntime) {
        assert_eq!(rt;
            record(&[0x0A, 1, 0, 0, 0, 7]),
            Err((11, 0, 6)),
            "a bit over 2"
        );
        assert_eq!(rt; record(&[0, 48]), Err((11, 0, 2)), "a type over 47");
        assert_eq!(rt; record(&[]), Err((11, 0, 0)), "no bytes");
        assert_eq!(rt; record(&[0]), Err((11, 0, 1)), "no type");
        assert_eq!(rt; record(&[2, 1, 0, 0, 7]), Err((11, 0, 5)), "a short field");
        assert_eq!(rt;
            record(&[2, 1, 0, 0, 0, 7, 0]),
            Err((11, 0, 7)),
            "a byte too many"
        );
    }

    #[test]
    fn derived_types(rt: HostRuntime) -> Result<(), Fail> {
        let Ok(below) = Line::read(b"2 c9") else {
            return Err(Fail::new("not read"));
        };
        let entries = Entries::NONE
            .with(48, Entry::AnyOf(TypeSet { bits: 6 }))
            .with(49, Entry::NoneOf(TypeSet { bits: 6 }));
        let first = Derived { below, entries };
        assert_eq!(rt; noted(&first).types.bits, (1 << 2) + (1 << 48));
        let entries = Entries::NONE.with(63, Entry::AnyOf(TypeSet { bits: 1 << 48 }));
        let second = Derived {
            below: first,
            entries,
        };
        assert_eq!(rt; noted(&second).types.bits, (1 << 2) + (1 << 48) + (1 << 63));
        assert_eq!(rt; noted(&second).card, Some(9));
        Ok(())
    }

    // The places of the lines of a log, at most three of them, and how many there are.
    fn cut(log: &[u8]) -> (usize, [(usize, usize); 3]) {
        let mut found = [(0, 0); 3];
        for (place, line) in found.iter_mut().zip(Lines::of(log)) {
            *place = (line.span.at, line.span.len);
        }
        (Lines::of(log).take(3).count(), found)
    }

    #[test]
    fn lines_of_a_log(rt: HostRuntime) {
        assert_eq!(rt; cut(b""), (0, [(0, 0); 3]));
        assert_eq!(rt; cut(b"\n"), (1, [(0, 0); 3]));
        assert_eq!(rt; cut(b"1 c7\n2"), (2, [(0, 4), (5, 1), (0, 0)]));
        assert_eq!(rt; cut(b"1 c7\n\n2\n"), (3, [(0, 4), (5, 0), (6, 1)]));
    }
}

// The worked examples of judging, reporting and excerpts, as tables that are run.
#![tactic(auto)]

#[cfg(test)]
mod tests {
    use calculus::verdict::Verdict;
    use calculus::verdict::Verdict::{Broken, MayEnd, Open};
    use checking::rule::Rule;
    use events::derived::{Entries, Entry, FIRST_DERIVED};
    use events::types::TypeSet;
    use judging::judge::{MOST_BYTES, judge};
    use judging::judgement::Judgement;
    use loading::load;
    use refusals::{Layer, Place, Refusal, Span};
    use reporting::excerpt::excerpt;
    use reporting::report::report;
    use std::alloc::Global;
    use std::test::Fail;

    // Either nothing, or a card is entered and then, shuffled with the same again, adjusted, cap-tested and published.
    const CARD_RULE: &[u8] =
        b"\x08\x07\x04\x01\x02\x00\x13\x06\x03\x00\x4B\x01\x04\x01\x01\x00\x00\x00\x00\x07\x05\x00\x05\x4B\x01\x06\x02\x01\x00\x00\x00\x00\x4B\x01\x07\x03\x01\x00\x00\x00\x00\x4B\x01\x01\x04\x01\x00\x00\x00\x00";

    // One event of type 48, and then nothing.
    const DERIVED_RULE: &[u8] = b"\x02\x0B\x01\x01\x30\x00";

    fn rule_of(bytes: &[u8]) -> Rule {
        load(bytes).unwrap_or(Rule::empty())
    }

    // Both counts, and the verdict.
    type Told = (u32, u32, Verdict);

    // The number of the line that a fault is at, and the refusal.
    type Fault = (usize, Refusal);

    fn told(judgement: &Judgement) -> Told {
        let counts = judgement.counts;
        (counts.shown, counts.taken, judgement.verdict)
    }

    fn fault(judgement: &Judgement) -> Option<Fault> {
        let found = judgement.fault?;
        Some((found.line(), found.refusal()?))
    }

    // A word that cannot be read.
    fn word(number: u8, at: usize, len: usize) -> Refusal {
        let span = Span { at, len };
        Refusal {
            number,
            layer: Layer::Word,
            place: Place::Bytes(span),
        }
    }

    fn nowhere(number: u8, layer: Layer) -> Refusal {
        Refusal {
            number,
            layer,
            place: Place::Nowhere,
        }
    }

    fn cards(heap: Global, log: &[u8]) -> Result<(Told, Option<Fault>), Fail> {
        let judgement = judge(heap, &rule_of(CARD_RULE), &Entries::NONE, log)?;
        Ok((told(&judgement), fault(&judgement)))
    }

    #[test]
    fn plays(rt: HostRuntime) -> Result<(), Fail> {
        let heap = rt.alloc();
        assert_eq!(rt; cards(heap, b"")?, ((0, 0, MayEnd), None), "no line");
        assert_eq!(rt;
            cards(heap, b"1 c7")?,
            ((1, 1, Open), None),
            "no byte 10 at the end"
        );
        assert_eq!(rt;
            cards(heap, b"1 c7\n2 c7\n3 c7\n4 c7\n")?,
            ((4, 4, MayEnd), None),
            "a card"
        );
        assert_eq!(rt;
            cards(heap, b"1 c7\n1 c9\n2 c9\n2 c7\n3 c7\n4 c9\n")?,
            ((6, 5, Broken), None),
            "published before the cap test"
        );
        assert_eq!(rt;
            cards(heap, b"3 c7\n1 c7\n1 c8")?,
            ((3, 0, Broken), None),
            "goes on after a break"
        );
        Ok(())
    }

    #[test]
    fn faults(rt: HostRuntime) -> Result<(), Fail> {
        let heap = rt.alloc();
        assert_eq!(rt;
            cards(heap, b"1 c7\n2 c07\n1 c8\n")?,
            ((1, 1, Open), Some((2, word(12, 7, 3)))),
            "a bad word"
        );
        assert_eq!(rt;
            cards(heap, b"1 c7\n\n")?,
            ((1, 1, Open), Some((2, word(12, 5, 0)))),
            "an empty line"
        );
        assert_eq!(rt;
            cards(heap, b"1 c7\n1 c9\n1 s256")?,
            ((2, 2, Open), Some((3, word(13, 12, 4)))),
            "too large"
        );
        assert_eq!(rt;
            cards(heap, b"3 c7\n1 c7\n48\n")?,
            ((2, 0, Broken), Some((3, word(13, 10, 2)))),
            "a bad line after a break"
        );
        Ok(())
    }

    // So many cards are entered, each on a line of its own.
    fn entered(heap: Global, cards: u32) -> Result<String, Fail> {
        let mut log = String::new(heap);
        for card in 0..cards {
            writeln!(log, "1 c{card}")?;
        }
        Ok(log)
    }

    #[test]
    fn limits(rt: HostRuntime) -> Result<(), Fail> {
        let heap = rt.alloc();
        let most = entered(heap, 32)?;
        assert_eq!(rt; cards(heap, most.as_bytes())?, ((32, 32, Open), None));
        let more = entered(heap, 40)?;
        assert_eq!(rt;
            cards(heap, more.as_bytes())?,
            ((32, 32, Open), Some((33, nowhere(32, Layer::Showing)))),
            "full at the 33rd card"
        );
        let long = vec![in heap; b'\n'; MOST_BYTES + 1]?;
        assert_eq!(rt;
            cards(heap, long.as_slice())?,
            ((0, 0, MayEnd), Some((0, nowhere(14, Layer::Judging)))),
            "one byte too long"
        );
        let fits = vec![in heap; b'\n'; MOST_BYTES]?;
        assert_eq!(rt;
            cards(heap, fits.as_slice())?,
            ((0, 0, MayEnd), Some((1, word(12, 0, 0)))),
            "as long as can be"
        );
        Ok(())
    }

    #[test]
    fn entries(rt: HostRuntime) -> Result<(), Fail> {
        let heap = rt.alloc();
        let rule = rule_of(DERIVED_RULE);
        let entries = Entries::NONE;
        assert_eq!(rt;
            told(&judge(heap, &rule, &entries, b"1 c7\n")?),
            (1, 0, Broken)
        );
        let entries = Entries::NONE.with(FIRST_DERIVED, Entry::AnyOf(TypeSet { bits: 6 }));
        assert_eq!(rt;
            told(&judge(heap, &rule, &entries, b"1 c7\n")?),
            (1, 1, MayEnd)
        );
        let entries = Entries::NONE.with(FIRST_DERIVED, Entry::NoneOf(TypeSet { bits: 6 }));
        assert_eq!(rt;
            told(&judge(heap, &rule, &entries, b"1 c7\n")?),
            (1, 0, Broken)
        );
        Ok(())
    }

    // A fault of a layer, at the bytes from 2 on.
    fn at(layer: Layer, len: usize) -> Refusal {
        let span = Span { at: 2, len };
        Refusal {
            number: 1,
            layer,
            place: Place::Bytes(span),
        }
    }

    #[test]
    fn excerpts(rt: HostRuntime) {
        let rule = b"rules";
        let log = b"a log";
        assert_eq!(rt;
            excerpt(rule, log, &at(Layer::Reading, 2)),
            b"le".as_slice()
        );
        assert_eq!(rt;
            excerpt(rule, log, &at(Layer::Reading, usize::MAX)),
            b"les".as_slice(),
            "cut off"
        );
        assert_eq!(rt; excerpt(rule, log, &at(Layer::Word, 3)), b"log".as_slice());
        assert_eq!(rt;
            excerpt(rule, b"", &at(Layer::Word, 3)),
            b"".as_slice(),
            "past the end"
        );
        for layer in [
            Layer::Checking,
            Layer::Record,
            Layer::Showing,
            Layer::Judging,
            Layer::Report,
        ] {
            assert_eq!(rt; excerpt(rule, log, &at(layer, 3)), b"".as_slice());
        }
        let mut nowhere = at(Layer::Word, 3);
        nowhere.place = Place::Nowhere;
        assert_eq!(rt; excerpt(rule, log, &nowhere), b"".as_slice(), "no place");
    }

    #[test]
    fn reports(rt: HostRuntime) {
        let mut buffer = [b'.'; 44];
        assert_eq!(rt; report(&mut buffer, 6, 5, Broken).ok(), Some(23));
        assert_eq!(rt; &buffer[0..25], b"shown 6 taken 5 broken\n..".as_slice());
        assert_eq!(rt;
            report(&mut buffer, u32::MAX, u32::MAX, MayEnd).ok(),
            Some(42)
        );
        assert_eq!(rt;
            &buffer[0..44],
            b"shown 4294967295 taken 4294967295 may end\n..".as_slice()
        );
        let mut short = [b'.'; 41];
        assert!(rt; report(&mut short, 0, 0, Open).is_err());
        assert_eq!(rt;
            &short[0..41],
            [b'.'; 41].as_slice(),
            "a refusal leaves the buffer as it was"
        );
    }
}

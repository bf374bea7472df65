// The worked examples of reading and checking a rule, as one table that is run.
#![tactic(auto)]

#[cfg(test)]
mod tests {
    use checking::check::check as check_rule;
    use checking::rule::Rule;
    use refusals::{Layer, Place, Refusal, Span};
    use rules::node::{Node, Slot, Var};
    use rules::read::read;
    use rules::record::{MOST_NODES, NodeRecord};
    use rules::span::node_span;
    use std::test::Fail;

    // Reading into a list of all 128 records, and then checking.
    fn load(bytes: &[u8]) -> Result<(), Refusal> {
        let mut list = [NodeRecord::BLANK; MOST_NODES];
        let count = read(bytes, &mut list)?;
        check_rule(&list[..count as usize], &mut Rule::empty())?;
        Ok(())
    }

    // What is refused, if anything.
    fn refused(bytes: &[u8]) -> Option<Refusal> {
        load(bytes).err()
    }

    fn in_bytes(number: u8, at: usize, len: usize) -> Option<Refusal> {
        Some(Refusal {
            number,
            layer: Layer::Reading,
            place: Place::Bytes(Span { at, len }),
        })
    }

    fn at_node(number: u8, node: u8) -> Option<Refusal> {
        Some(Refusal {
            number,
            layer: Layer::Checking,
            place: Place::Node(node),
        })
    }

    #[test]
    fn reading(rt: HostRuntime) {
        assert_eq!(rt; refused(&[]), in_bytes(1, 0, 0), "no bytes");
        assert_eq!(rt; refused(&[0]), in_bytes(2, 0, 1), "no nodes");
        assert_eq!(rt; refused(&[129]), in_bytes(2, 0, 1), "129 nodes");
        assert_eq!(rt;
            refused(&[1, 2]),
            in_bytes(1, 2, 0),
            "a bad map with too few bytes"
        );
        assert_eq!(rt;
            refused(&[2, 2, 0, 7]),
            in_bytes(3, 1, 1),
            "a bad node before a short one"
        );
        assert_eq!(rt; refused(&[1, 1, 9]), in_bytes(3, 1, 1), "a kind of 9");
        assert_eq!(rt; refused(&[1, 0, 8, 9]), in_bytes(4, 2, 2), "surplus bytes");
        let filter = [2, 0x4B, 7, 1, 2, 1, 0, 0, 0, 0, 0];
        assert_eq!(rt;
            refused(&filter),
            in_bytes(3, 1, 1),
            "a variable in a filter"
        );
        let strokes = [2, 0x8B, 1, 1, 2, 0, 0, 0, 1, 0, 0];
        assert_eq!(rt; refused(&strokes), None, "a strokes constant of 256");
    }

    #[test]
    fn loops_and_variables(rt: HostRuntime) {
        assert_eq!(rt; refused(&[1, 7, 4, 0, 0]), at_node(5, 0), "or(0, 0)");
        assert_eq!(rt;
            refused(&[3, 0, 7, 4, 2, 2, 7, 4, 1, 1]),
            at_node(5, 1),
            "unreachable loop"
        );
        assert_eq!(rt;
            refused(&[3, 7, 4, 1, 2, 0, 7, 4, 2, 2]),
            at_node(5, 2),
            "loop off the start"
        );
        assert_eq!(rt;
            refused(&[1, 0x0B, 1, 0, 1]),
            None,
            "a prefix that leads to itself"
        );
        let free = [2, 0x4B, 1, 1, 2, 1, 0, 0, 0, 3, 0];
        assert_eq!(rt; refused(&free), at_node(7, 0), "a free variable at node 0");
    }

    #[test]
    fn weights(rt: HostRuntime) {
        let eight =
            b"\x09\x07\x04\x01\x01\x07\x04\x02\x02\x07\x04\x03\x03\x07\x04\x04\x04\x07\x04\x05\x05\x07\x04\x06\x06\x07\x04\x07\x07\x07\x04\x08\x08\x00";
        assert_eq!(rt; refused(eight), None, "eight doubling ors weigh 511");
        let nine =
            b"\x0A\x07\x04\x01\x01\x07\x04\x02\x02\x07\x04\x03\x03\x07\x04\x04\x04\x07\x04\x05\x05\x07\x04\x06\x06\x07\x04\x07\x07\x07\x04\x08\x08\x07\x04\x09\x09\x00";
        assert_eq!(rt; refused(nine), at_node(6, 0), "nine weigh 1023");
    }

    #[test]
    fn records(rt: HostRuntime) -> Result<(), Fail> {
        let mut short = [NodeRecord::BLANK; 1];
        match read(&[2, 0, 0], &mut short) {
            Ok(_) => return Err(Fail::new("two nodes were read into one record")),
            Err(fault) => assert!(rt; Refusal::from(fault).number == 21),
        }
        let mut rule = Rule::empty();
        match check_rule(&[], &mut rule) {
            Ok(()) => Err(Fail::new("no records were accepted")),
            Err(fault) => {
                assert_eq!(rt; Some(Refusal::from(fault)), at_node(2, 0));
                Ok(())
            },
        }
    }

    #[test]
    fn worked_node(rt: HostRuntime) -> Result<(), Fail> {
        let bytes = [
            2, 0x13, 6, 1, 0, 0x4B, 0x01, 0x00, 0x01, 0x01, 0x00, 0x00, 0x00, 0x00,
        ];
        let mut list = [NodeRecord::BLANK; 2];
        let mut rule = Rule::empty();
        match read(&bytes, &mut list) {
            Ok(count) => assert!(rt; count == 2),
            Err(_) => return Err(Fail::new("not read")),
        }
        let part = node_span(&list, 1);
        assert!(rt; part.at == 5 && part.len == 9);
        match check_rule(&list, &mut rule) {
            Ok(()) => assert!(rt; rule.is_free(Var::V0, 1) && !rule.is_free(Var::V0, 0)),
            Err(_) => return Err(Fail::new("not a rule")),
        }
        match rule.node(1) {
            Node::Prefix(p, tail) => {
                assert!(rt; p.ty == 1 && tail == 0);
                match p.card {
                    Slot::Variable(v) => {
                        assert!(rt; v == Var::V0);
                        Ok(())
                    },
                    _ => Err(Fail::new("no variable")),
                }
            }
            _ => Err(Fail::new("no prefix")),
        }
    }
}

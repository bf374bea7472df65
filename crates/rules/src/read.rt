// Reading a rule's bytes into a list of node records that the caller lends.
ghost use Rattle.std.specs.Prelude.{◌≡◌, true, length, is_ok, Ok, Err, MatchResult};
ghost use Rattle.rules.specs.Bytes.{ending, node_of, nodes_of, rule_of, checked, answered, written};
ghost use Rattle.rules.specs.Writing.{Decodes};

use crate::fault::ReadFault;
use crate::fields::read_fields;
use crate::layout::decode;
use crate::record::{MOST_NODES, NodeRecord};
use refusals::Span;

// A rule of `count` nodes and `all` bytes, and the bytes from its next node on.
#[derive(Clone, Copy)]
struct Nodes<'a> {
    all: usize,
    count: u8,
    rest: &'a [u8],
}

impl Nodes<'_> {
    // The next node; its place is told from how much is left.
    fn node(&mut self) -> Result<NodeRecord, ReadFault>
        ensures node { MatchResult result (λ r. node_of self.old.all self.old.count self.old.rest.now ≡ Ok (r, self.new.rest.now)) (λ e. node_of self.old.all self.old.count self.old.rest.now ≡ Err e) }
        ensures all { self.new.all ≡ self.old.all }
        ensures count { self.new.count ≡ self.old.count }
    {
        let early = ReadFault::EndsEarly(self.all);
        let at = self.all.saturating_sub(self.rest.len());
        let [map, rest @ ..] = self.rest else {
            return Err(early);
        };
        let (record, rest) = read_fields(*map, rest).ok_or(early)?;
        if decode(&record, self.count).is_none() {
            return Err(ReadFault::BadLayout(at));
        }
        self.rest = rest;
        Ok(record)
    }

    // Nothing, after the last node.
    fn end(&self) -> Result<(), ReadFault>
        ensures { result ≡ checked (ending self.now.all self.now.rest.now) }
    {
        if self.rest.is_empty() {
            return Ok(());
        }
        Err(ReadFault::Surplus(Span {
            at: self.all.saturating_sub(self.rest.len()),
            len: self.rest.len(),
        }))
    }

    // Whether the bytes are so many nodes and nothing more.
    fn validate(mut self) -> Result<(), ReadFault>
        ensures { result ≡ checked (nodes_of self.entry.all self.entry.count self.entry.count self.entry.rest.now) }
    {
        for _ in 0..self.count {
            self.node()?;
        }
        self.end()
    }

    // Writes the nodes, which are known to be good, into a list of as many.
    fn fill(mut self, list: &mut [NodeRecord])
        requires fits { length list.old ≡ self.count }
        requires fine { is_ok (nodes_of self.all self.count self.count self.rest.now) ≡ true }
        ensures { nodes_of self.entry.all self.entry.count self.entry.count self.entry.rest.now ≡ Ok list.new }
    {
        // By a rule of the project the caller's records are written by index, and read by index in checking.
        for i in 0..list.len() {
            let Ok(record) = self.node() else {
                return;
            };
            list[i] = record;
        }
    }
}

// Reads a rule into the front of `list`, and answers how many nodes it has. Later records stay, and after a refusal all do:
// so the whole of the bytes is tested before a record is written.
pub fn read(bytes: &[u8], list: &mut [NodeRecord]) -> Result<u8, ReadFault>
    ensures answer { result ≡ answered (rule_of bytes.now) list.old }
    ensures list { list.new ≡ written (rule_of bytes.now) list.old }
    ensures law { Decodes bytes.now list.old result list.new }
{
    let [count, rest @ ..] = bytes else {
        return Err(ReadFault::EndsEarly(0));
    };
    if *count < 1 || *count as usize > MOST_NODES {
        return Err(ReadFault::BadCount);
    }
    let nodes = Nodes {
        all: bytes.len(),
        count: *count,
        rest,
    };
    nodes.validate()?;
    if list.len() < *count as usize {
        return Err(ReadFault::ListTooShort);
    }
    nodes.fill(&mut list[..*count as usize]);
    Ok(*count)
}

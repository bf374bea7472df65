// Reads `rule.bin`, checks it, and prints the rule node by node, or why it is refused.
#![tactic(auto)]

use checking::check::check;
use checking::rule::Rule;
use refusals::{Place, Refusal, Span};
use rules::node::Var;
use rules::read::read;
use rules::record::{MOST_NODES, NodeRecord};
use rules::span::node_span;
use std::{fmt, fs, io};

// The variables that are free in a node, or that there is none.
fn print_free(rt: HostRuntime, rule: &Rule, n: u8) -> Result<(), io::Error> {
    if !Var::ALL.iter().any(|v| rule.is_free(*v, n)) {
        return println!(rt; " none");
    }
    for v in Var::ALL {
        if rule.is_free(v, n) {
            print!(rt; " {v}")?;
        }
    }
    println!(rt; "")
}

fn print_rule(rt: HostRuntime, rule: &Rule) -> Result<(), io::Error> {
    let count = rule.count();
    println!(rt; "a rule of {count} nodes")?;
    for n in 0..count {
        let node = rule.node(n);
        let weight = rule.weight(n);
        let rank = rule.rank(n);
        println!(rt; "{n}: {node}")?;
        print!(rt; "    weight {weight}, rank {rank}, free:")?;
        print_free(rt, rule, n)?;
    }
    Ok(())
}

// The faulty part of the bytes; what of it lies past their end is left out.
fn print_bytes(rt: HostRuntime, bytes: &[u8], part: Span) -> Result<(), io::Error> {
    let at = part.at;
    print!(rt; "bytes from {at}:")?;
    for b in bytes.iter().skip(part.at).take(part.len) {
        print!(rt; " {b:02x}")?;
    }
    println!(rt; "")
}

// The number, layer, cause and place of a refusal, with the faulty part of the bytes.
fn print_refusal<F: Copy + Into<Refusal> + fmt::Display>(
    rt: HostRuntime,
    bytes: &[u8],
    list: &[NodeRecord],
    fault: F,
) -> Result<(), io::Error> {
    let refusal: Refusal = fault.into();
    let number = refusal.number;
    let layer = refusal.layer;
    println!(rt; "refused: {number}, {layer}: {fault}")?;
    match refusal.place {
        Place::Nowhere => Ok(()),
        Place::Bytes(part) => print_bytes(rt, bytes, part),
        Place::Node(n) => {
            print!(rt; "node {n}, ")?;
            print_bytes(rt, bytes, node_span(list, n))
        }
    }
}

fn main(rt: HostRuntime) -> Result<(), io::Error> {
    let bytes = fs::read(&rt, "rule.bin")?;
    let mut list = [NodeRecord::BLANK; MOST_NODES];
    let count = match read(&bytes, &mut list) {
        Ok(count) => count as usize,
        Err(fault) => return print_refusal(rt, &bytes, &list, fault),
    };
    let mut rule = Rule::empty();
    match check(&list[..count], &mut rule) {
        Ok(()) => print_rule(rt, &rule),
        Err(fault) => print_refusal(rt, &bytes, &list, fault),
    }
}

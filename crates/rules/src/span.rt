// Where a node lies in the bytes of a rule.
ghost use Rattle.std.specs.Prelude.{◌≡◌, ◌<◌, ◌≤◌, length, take, slice_get};
ghost use Rattle.std.specs.Option.{option_map_or};
ghost use Rattle.rules.specs.Writing.{encoded_rule};
ghost use Rattle.rules.specs.Spans.{widths_of, size_of, sizes_of, span_of};

use crate::map::Field;
use crate::record::NodeRecord;
use refusals::Span;

// How many bytes some fields have in a node with this map.
fn widths(fields: &[Field], map: u8) -> usize
    requires { length fields.now < 9 }
    ensures { result ≡ widths_of map fields.now }
{
    fields.iter().map(|f| f.width(map)).sum()
}

// How many bytes a node with this map has.
fn size(map: u8) -> usize
    ensures is { result ≡ size_of map }
    ensures most { result ≤ 21 }
{
    1 + widths(&Field::ALL, map)
}

// How many bytes some nodes have.
fn sizes(list: &[NodeRecord]) -> usize
    requires { length list.now < 256 }
    ensures { result ≡ sizes_of list.now }
{
    list.iter().map(|r| size(r.map)).sum()
}

// How many bytes there are before node `n`.
fn front(list: &[NodeRecord], n: u8) -> usize
    ensures { result ≡ length (encoded_rule (take n list.now)) }
{
    1 + sizes(&list[..(n as usize).min(list.len())])
}

// How many bytes node `n` has; none past the last node.
fn own(list: &[NodeRecord], n: u8) -> usize
    ensures { result ≡ option_map_or (λ r. size_of r.map) (slice_get list.now n) 0 }
{
    list.get(n as usize).map_or(0, |r| size(r.map))
}

// The part of the bytes that a node of these records takes; past the last node an empty part.
pub fn node_span(list: &[NodeRecord], n: u8) -> Span
    ensures { result ≡ span_of list.now n }
{
    Span {
        at: front(list, n),
        len: own(list, n),
    }
}

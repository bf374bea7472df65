// The bytes that a fault lies in.
ghost use Rattle.std.specs.Prelude.{◌≡◌};
ghost use Rattle.reporting.specs.Excerpts.{excerpt_of};

use refusals::{Layer, Place, Refusal};

// The faulty part of a rule's bytes or of a log: reading's places lie in the rule, words' in the log, and each is cut off where the
// bytes end. Any other fault gives the empty part at the rule's start.
pub fn excerpt<'a>(rule: &'a [u8], log: &'a [u8], fault: &Refusal) -> &'a [u8]
    ensures { result.now ≡ excerpt_of rule.now log.now fault.now }
{
    match (fault.layer, fault.place) {
        (Layer::Reading, Place::Bytes(span)) => span.part(rule),
        (Layer::Word, Place::Bytes(span)) => span.part(log),
        _ => &[],
    }
}

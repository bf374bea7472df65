// Loading a rule: its bytes are read and its nodes checked, in one call.
#![tactic(auto)]

ghost use Rattle.std.specs.Prelude.{◌≡◌};
ghost use Rattle.loading.specs.Loading.{Loads};

use checking::check::check;
use checking::rule::Rule;
use fault::RuleFault;
use rules::read::read;
use rules::record::{MOST_NODES, NodeRecord};

pub mod fault;

// The rule that some bytes are, or why they are none.
pub fn load(bytes: &[u8]) -> Result<Rule, RuleFault>
    ensures { Loads bytes.now result }
{
    load_by(bytes, &mut [NodeRecord::BLANK; MOST_NODES])
}

// The same, by a list of node records, which any rule fits in: reading fills records that its caller lends.
fn load_by(bytes: &[u8], list: &mut [NodeRecord; MOST_NODES]) -> Result<Rule, RuleFault>
    ensures { Loads bytes.now result }
{
    let count = read(bytes, list)?;
    let mut rule = Rule::empty();
    check(&list[..count as usize], &mut rule)?;
    Ok(rule)
}

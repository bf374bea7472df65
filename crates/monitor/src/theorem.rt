// The promise over any sequence of calls.
ghost use Rattle.monitor.specs.Promise.{AnyUse};

// After any calls on a monitor, of all sorts and in any order, carried out or refused, with events of any kinds: the counts and the
// verdict are what the reading of the rule says of the events shown, and the states held are those that the steps derive.
pub fn any_use_follows_the_reading()
    ensures { AnyUse }
{}

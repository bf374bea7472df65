// Plays that reach the limits or mix the kinds of event, run one after the other: each prints what it comes to.
#![tactic(auto)]

ghost use Rattle.std.specs.Prelude.{◌≡◌};

mod play;
mod rulebook;

use anyhow::anyhow;
use checking::rule::Rule;
use events::derived::{Derived, Entries, Entry, FIRST_DERIVED};
use events::fields::Fields;
use events::types::TypeSet;
use lines::line::Line;
use monitor::MOST_SHOWN;
use play::Play;
use records::Record;
use rulebook::{AGAIN, CARD_RULE, MIXED, UNBOUND, deep_rule, rule_of};
use std::env;

fn line(ty: u8, card: u32) -> Line {
    Line {
        fields: Fields {
            ty,
            player: None,
            card: Some(card),
            strokes: None,
        },
    }
}

// Plays lines of the card rule.
fn play_cards(rt: &HostRuntime, name: &str, lines: &[(u8, u32)]) -> anyhow::Result<()> {
    let mut play = Play::begin(rt.alloc(), &rule_of(CARD_RULE)?)?;
    for (ty, card) in lines {
        play.show(&line(*ty, *card))?;
    }
    play.tell(rt, name)
}

// So many events of type 1, each with the card that its number chooses, and then one more event.
fn play_many<F: Fn(u32) -> u32>(
    rt: &HostRuntime,
    name: &str,
    rule: &Rule,
    many: u32,
    card: F,
    last: Line,
) -> anyhow::Result<()>
    requires { F.IsAlwaysCallable card }
{
    let mut play = Play::begin(rt.alloc(), rule)?;
    for n in 0..many {
        play.show(&line(1, card(n)))?;
    }
    play.show(&last)?;
    play.tell(rt, name)
}

// A derived event, a record and a line, shown to one monitor.
fn play_mixed(rt: &HostRuntime) -> anyhow::Result<()> {
    let not_entered = Entry::NoneOf(TypeSet { bits: 2 });
    let derived = Derived {
        below: line(3, 7),
        entries: Entries::NONE.with(FIRST_DERIVED, not_entered),
    };
    let record = Record::read(&[2, 1, 0, 0, 0, 7]).map_err(|_| anyhow!("no record"))?;
    let mut play = Play::begin(rt.alloc(), &rule_of(MIXED)?)?;
    play.show(&derived)?;
    play.tell(rt, "a derived event")?;
    play.show(&record)?;
    play.tell(rt, "then a record")?;
    play.show(&line(1, 0))?;
    play.tell(rt, "then a line too many")
}

// Plays that stay far from the limits.
fn run_short(rt: &HostRuntime) -> anyhow::Result<()> {
    play_cards(rt, "nothing", &[])?;
    play_cards(rt, "one card entered", &[(1, 7)])?;
    play_cards(rt, "one card through", &[(1, 7), (2, 7), (3, 7), (4, 7)])?;
    play_cards(rt, "cap before adjustment", &[(1, 7), (3, 7)])?;
    play_cards(
        rt,
        "two cards, one capped early",
        &[(1, 7), (1, 9), (2, 9), (2, 7), (3, 7), (4, 9)],
    )
}

// Plays that reach a limit.
fn run_long(rt: &HostRuntime) -> anyhow::Result<()> {
    let cards = rule_of(CARD_RULE)?;
    play_many(rt, "33 cards", &cards, 33, |n| n, line(1, 0))?;
    play_many(
        rt,
        "33 cards, then one adjusted",
        &cards,
        33,
        |n| n,
        line(2, 0),
    )?;
    play_many(
        rt,
        "one card 16 times, then adjusted",
        &cards,
        16,
        |_| 7,
        line(2, 7),
    )?;
    play_many(
        rt,
        "one card 17 times, then adjusted",
        &cards,
        17,
        |_| 7,
        line(2, 7),
    )?;
    let unbound = rule_of(UNBOUND)?;
    play_many(
        rt,
        "a binder that nothing binds",
        &unbound,
        63,
        |n| n,
        line(1, 0),
    )?;
    let again = rule_of(AGAIN)?;
    play_many(
        rt,
        "a million events and one more",
        &again,
        MOST_SHOWN,
        |n| n,
        line(1, 0),
    )?;
    let deep = rule_of(deep_rule(rt.alloc())?.as_slice())?;
    play_many(rt, "the deepest rule", &deep, 100, |n| n, line(1, 0))
}

fn run(rt: &HostRuntime) -> anyhow::Result<()> {
    run_short(rt)?;
    run_long(rt)?;
    play_mixed(rt)
}

// For measurements: so many cards are entered together and then go on together, on a fresh monitor each time; with no card, a
// million events of a small rule are shown.
fn measure(rt: &HostRuntime, cards: u32, times: u32) -> anyhow::Result<()> {
    let rule = rule_of(CARD_RULE)?;
    for _ in 0..times {
        if cards == 0 {
            play_many(
                rt,
                "small rule",
                &rule_of(AGAIN)?,
                MOST_SHOWN,
                |n| n,
                line(1, 0),
            )?;
        }
        let mut play = Play::begin(rt.alloc(), &rule)?;
        for ty in 1..5u8 {
            for card in 0..cards {
                play.show(&line(ty, card))?;
                if play.refused > 0 {
                    return Err(anyhow!("refused"));
                }
            }
        }
    }
    Ok(())
}

// With two numbers, measures; otherwise runs the plays.
fn main(rt: HostRuntime) -> anyhow::Result<()> {
    let numbers: Vec<u32> = env::args(&rt)?
        .skip(1)
        .take(2)
        .map(|word| -> anyhow::Result<u32> { Ok(word.as_str().parse::<u32>()?) })
        .try_collect(rt.alloc())?;
    match numbers.as_slice() {
        [cards, times] => measure(&rt, *cards, *times),
        _ => run(&rt),
    }
}

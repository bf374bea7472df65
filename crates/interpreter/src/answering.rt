// Answering commands.
ghost use Rattle.std.specs.Prelude.{◌≡◌, IfOk, MatchResult};
ghost use Rattle.std.specs.Option.{option_map};
ghost use Rattle.events.specs.Derivation.{derived};
ghost use Rattle.commands.specs.Said.{said_by};
ghost use Rattle.commands.specs.Commands.{parsed_of};
ghost use Rattle.replies.specs.Told.{told_by};
ghost use Rattle.interpreter.specs.Answering.{Showing, SetsRule, part_of, Does, ComesTo, Answers, Opens};

use crate::Interpreter;
use crate::sizes::rising_sizes;
use crate::stop::Stop;
use checking::rule::Rule;
use commands::command::{Asked, Command};
use commands::fault::ParseFault;
use commands::parse::parse;
use events::derived::{Derived, Entries};
use events::event::Event;
use judging::judge::judge;
use lines::line::Line;
use loading::load;
use monitor::Monitor;
use records::Record;
use refusals::{Place, Refusal};
use replies::reply::Reply;
use reporting::excerpt::excerpt;
use std::alloc::{AllocError, Global};

impl Interpreter {
    // The rule of one empty node is in force, with no entries.
    pub fn new(heap: Global) -> Result<Interpreter, AllocError>
        ensures { IfOk result (λ i. Opens i) }
    {
        let rule = Rule::empty();
        let monitor = Monitor::begin(heap, &rule)?;
        Ok(Interpreter {
            rule,
            entries: Entries::NONE,
            monitor,
        })
    }

    // Answers a line of text: nothing where the line is empty or a remark. Where memory is wanting everything stays as it was.
    pub fn answer(&mut self, heap: Global, line: &[u8]) -> Result<Option<Reply>, AllocError>
        ensures { MatchResult result (λ o. Answers self.old (parsed_of line.now) self.new (option_map told_by o)) (λ _. self.new ≡ self.old) }
    {
        match parse(heap, line) {
            Ok(None) => Ok(None),
            Ok(Some(command)) => Ok(Some(self.run(heap, &command)?)),
            Err(ParseFault::Malformed(usage)) => Ok(Some(Reply::Expected(usage))),
            Err(ParseFault::Memory(error)) => Err(error),
        }
    }

    // Carries out a command, and answers a refusal as a reply. Where memory is wanting everything stays as it was.
    pub fn run(&mut self, heap: Global, command: &Command) -> Result<Reply, AllocError>
        ensures { MatchResult result (λ y. Does self.old (said_by command.now) self.new (told_by y)) (λ _. self.new ≡ self.old) }
    {
        match self.carry_out(heap, command) {
            Ok(reply) => Ok(reply),
            Err(Stop::Refused(refusal)) => Ok(Reply::Refused(refusal)),
            Err(Stop::Memory) => Err(AllocError),
        }
    }

    fn carry_out(&mut self, heap: Global, command: &Command) -> Result<Reply, Stop>
        ensures { ComesTo (Does self.old (said_by command.now)) self.old self.new result }
    {
        match command {
            Command::Rule(bytes) => self.set_rule(heap, bytes.as_slice()),
            Command::Entry(ty, entry) => {
                self.entries = self.entries.with(*ty, *entry);
                Ok(Reply::Done)
            }
            Command::Line(text) => self.show_derived(heap, Line::read(text.as_slice())?),
            Command::Record(bytes) => self.show_derived(heap, Record::read(bytes.as_slice())?),
            Command::BareLine(text) => self.show(heap, &Line::read(text.as_slice())?),
            Command::BareRecord(bytes) => self.show(heap, &Record::read(bytes.as_slice())?),
            Command::Counts => Ok(Reply::Counts(self.monitor.counts())),
            Command::Verdict => Ok(Reply::Verdict(self.monitor.verdict())),
            Command::Held => Ok(Reply::Held(rising_sizes(heap, self.monitor.held())?)),
            Command::Judge(log) => {
                let judgement = judge(heap, &self.rule, &self.entries, log.as_slice())?;
                Ok(Reply::Judged(judgement))
            }
            Command::Excerpt(asked) => Ok(Reply::Part(part_asked(heap, asked)?)),
            Command::Help => Ok(Reply::Help),
        }
    }

    // Puts a rule in force, and begins a new monitor on it.
    fn set_rule(&mut self, heap: Global, bytes: &[u8]) -> Result<Reply, Stop>
        ensures { ComesTo (SetsRule self.old bytes.now) self.old self.new result }
    {
        let rule = load(bytes)?;
        self.monitor = Monitor::begin(heap, &rule)?;
        self.rule = rule;
        Ok(Reply::Rule(rule.count()))
    }

    // Shows an event with the further types that the entries give it.
    fn show_derived<E: Event + Drop>(&mut self, heap: Global, below: E) -> Result<Reply, Stop>
        ensures { ComesTo (Showing self.old (derived (E.Event.meaning below) self.old.entries)) self.old self.new result }
    {
        let entries = self.entries;
        self.show(heap, &Derived { below, entries })
    }

    // Shows an event of any kind.
    fn show<E: Event>(&mut self, heap: Global, event: &E) -> Result<Reply, Stop>
        ensures { ComesTo (Showing self.old (E.meaning event.now)) self.old self.new result }
    {
        self.monitor.show(heap, event)?;
        Ok(Reply::Shown)
    }
}

// The bytes that a fault lies in.
fn part_asked(heap: Global, asked: &Asked) -> Result<Vec<u8>, AllocError>
    ensures { IfOk result (λ v. v.items ≡ part_of asked.now.rule.items asked.now.log.items asked.now.number asked.now.layer asked.now.span) }
{
    let fault = Refusal {
        number: u8::try_from(asked.number).unwrap_or(u8::MAX),
        layer: asked.layer,
        place: Place::Bytes(asked.span),
    };
    excerpt(asked.rule.as_slice(), asked.log.as_slice(), &fault).to_vec(heap)
}

// Cutting a log into its lines, and reading them.
ghost use Rattle.std.specs.Prelude.{◌≡◌};
ghost use Rattle.std.specs.Iterator.{YieldsFirst, item_count};
ghost use Rattle.lines.specs.Logs.{lines_of, left, log_line_of};

use crate::fault::LogFault;
use crate::line::{Line, read_at};
use crate::log::{Lines, LogLine};
use crate::placed::Placed;

const NEWLINE: u8 = b'\n';

impl LogLine {
    // Reads the line out of its log.
    pub fn read(self, log: &[u8]) -> Result<Line, LogFault>
        ensures { result ≡ log_line_of self log.now }
    {
        let bytes = self.span.part(log);
        let at = self.span.at;
        let line = read_at(Placed { bytes, at }, self.number)?;
        Ok(line)
    }
}

impl<'a> Lines<'a> {
    // All lines of a log.
    pub fn of(log: &'a [u8]) -> Lines<'a>
        ensures { left result ≡ lines_of log.now }
    {
        Lines {
            rest: Some(Placed { bytes: log, at: 0 }),
            passed: 0,
        }
    }
}

impl<'a> Iterator for Lines<'a> {
    type Item = LogLine;

    ghost next_gives = { YieldsFirst left };

    ghost remaining = { item_count left };

    fn next(&mut self) -> Option<LogLine> {
        let rest = self.rest?;
        if rest.bytes.is_empty() {
            return None;
        }
        let (line, rest) = rest.cut(NEWLINE);
        let span = line.span();
        let number = self.passed + 1;
        self.rest = rest;
        self.passed = number;
        Some(LogLine { span, number })
    }
}

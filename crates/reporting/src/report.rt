// The report of a play, as text in a buffer that the caller lends.
ghost use Rattle.std.specs.Prelude.{◌≡◌, ◌≤◌, length, IfOk};
ghost use Rattle.reporting.specs.Text.{over, report_text, report_answer, report_buffer};

use crate::fault::ReportFault;
use arrayvec::ArrayString;
use calculus::verdict::Verdict;
use itoa::Buffer;

// Room for the longest report: two counts of ten digits each, and the longest verdict.
pub const ROOM: usize = 42;

// Writes both counts and the verdict as one line into the front of a buffer (by a rule of the project the buffer is lent, and the counts
// are two numbers), and answers the line's length. The bytes after it stay;
// a buffer without room for the longest report is refused and stays whole.
pub fn report(
    buffer: &mut [u8],
    shown: u32,
    taken: u32,
    verdict: Verdict,
) -> Result<usize, ReportFault>
    ensures answer { result ≡ report_answer buffer.old shown taken verdict }
    ensures buffer { buffer.new ≡ report_buffer buffer.old shown taken verdict }
    ensures fits { IfOk result (λ n. n ≤ ROOM) }
{
    if buffer.len() < ROOM {
        return Err(ReportFault::ShortBuffer);
    }
    Ok(put(buffer, &line(shown, taken, verdict)))
}

// The report itself.
fn line(shown: u32, taken: u32, verdict: Verdict) -> ArrayString<ROOM>
    ensures { result.bytes ≡ report_text shown taken verdict }
{
    let mut digits = Buffer::new();
    let mut line = ArrayString::new();
    line.push_str("shown ");
    line.push_str(digits.format(shown));
    line.push_str(" taken ");
    line.push_str(digits.format(taken));
    line.push_str(" ");
    line.push_str(verdict.name());
    line.push_str("\n");
    line
}

// Writes a line over the front of a buffer, and answers its length.
fn put(buffer: &mut [u8], line: &ArrayString<ROOM>) -> usize
    requires { ROOM ≤ length buffer.old }
    ensures length { result ≡ length line.now.bytes }
    ensures buffer { buffer.new ≡ over buffer.old line.now.bytes }
    ensures fits { result ≤ ROOM }
{
    let text = line.as_str().as_bytes();
    buffer[..text.len()].copy_from_slice(text);
    text.len()
}

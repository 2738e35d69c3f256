// Lines: what of one is a request, and what it is answered.
ghost use Rattle.std.specs.Prelude.{◌≤◌, length};

use crate::answers::Answer;
use crate::names;
use text::faults::Fault;
use text::octets::find;

// Of a line that is too long only the start is here, and a comment has no answer even then.
pub fn answer(
    line: &[u8],
    long: bool,
    records: &mut [u8],
    bits: &mut [u8],
    lent: &mut [u8],
) -> Answer {
    if is_comment(line) {
        return Answer::Nothing;
    }
    if long {
        return Answer::Error(Fault::Long);
    }
    let request = without_spaces(line);
    let answer = of_request(request, records, bits, lent);
    if let Answer::Error(_) = answer {
        return with_comment(request, answer, records, bits, lent);
    }
    answer
}

// The answer to a line that was answered with an error. No word of a request begins with #, so a
// line that is a request has no comment, and one is looked for here only.
fn with_comment(
    line: &[u8],
    answer: Answer,
    records: &mut [u8],
    bits: &mut [u8],
    lent: &mut [u8],
) -> Answer {
    let request = without_spaces(before_comment(line));
    if request.len() == line.len() {
        return answer;
    }
    of_request(request, records, bits, lent)
}

fn of_request(request: &[u8], records: &mut [u8], bits: &mut [u8], lent: &mut [u8]) -> Answer {
    if request.is_empty() {
        return Answer::Nothing;
    }
    names::answer(request, records, bits, lent)
}

fn is_comment(line: &[u8]) -> bool {
    line.starts_with(b"#")
}

// A comment behind a request begins with the first space that a # follows. Most lines have no #, which is
// quickly seen, since `find` looks at many octets at once.
fn before_comment(line: &[u8]) -> &[u8]
    ensures { length result.now ≤ length line.now }
{
    let mut at = find(line, 0, b'#');
    while at < line.len() {
        if let Some(request) = line[..at].strip_suffix(b" ") {
            return request;
        }
        at = find(line, at + 1, b'#');
    }
    line
}

fn without_spaces(line: &[u8]) -> &[u8]
    ensures { length result.now ≤ length line.now }
{
    match line.iter().rposition(|x| *x != b' ') {
        Some(last) => &line[..last + 1],
        None => &[],
    }
}

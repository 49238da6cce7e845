// The lines that the program prints.

ghost use Rattle.std.specs.Prelude.{◌+◌, ◌≤◌, ◌≡◌, ◌++◌};
ghost use Rattle.arrayvec.specs.ArrayString.{array_string_len};
ghost use Rattle.rules.specs.Line as Line;
ghost use Rattle.rehearse.specs.Fields.{fields_line};

use arrayvec::ArrayString;
use itoa::{Buffer, Integer};
use salnegris::AnswerFields;

// The longest line, `number -2147483648 steps 4294967295 reached 4294967295`, has 54 bytes and a line feed. Texts are pushed, since
// no contract says of a `write!` that it succeeds where there is room.
pub(crate) type Line = ArrayString<64>;

// The line of an answer, by its kind, which is a number for the C interface.
pub(crate) fn answer(answer: AnswerFields) -> Line
    ensures { result.bytes ≡ fields_line answer }
{
    match answer.kind {
        0 => number(answer.number, answer.steps, answer.reached),
        1 => throw(answer.steps, answer.reached),
        _ => refused(answer.refusal, answer.place),
    }
}

// `number 9 steps 1 reached 1`
fn number(n: i32, steps: u32, reached: u32) -> Line
    ensures { result.bytes ≡ Line.number_line n steps reached }
{
    let mut line = Line::new();
    line.push_str("number ");
    push(&mut line, n);
    push_totals(&mut line, steps, reached);
    line
}

// `throw steps 1 reached 1`
fn throw(steps: u32, reached: u32) -> Line
    ensures { result.bytes ≡ Line.throw_line steps reached }
{
    let mut line = Line::new();
    line.push_str("throw");
    push_totals(&mut line, steps, reached);
    line
}

// `refused 5 at 0`
pub(crate) fn refused(refusal: u32, place: u32) -> Line
    ensures { result.bytes ≡ Line.refused_line refusal place }
{
    let mut line = Line::new();
    line.push_str("refused ");
    push(&mut line, refusal);
    line.push_str(" at ");
    push(&mut line, place);
    line.push_str("\n");
    line
}

// ` steps 1 reached 1`
fn push_totals(line: &mut Line, steps: u32, reached: u32)
    requires { array_string_len line.old + 37 ≤ 64 }
    ensures { line.new.bytes ≡ line.old.bytes ++ Line.totals steps reached }
{
    line.push_str(" steps ");
    push(line, steps);
    line.push_str(" reached ");
    push(line, reached);
    line.push_str("\n");
}

// "Numbers in decimal", "a minus sign where negative".
fn push<N: Integer>(line: &mut Line, n: N)
    requires { array_string_len line.old + N.MAX_STR_LEN ≤ 64 }
    ensures bytes { line.new.bytes ≡ line.old.bytes ++ N.text n }
    ensures len { array_string_len line.new ≤ array_string_len line.old + N.MAX_STR_LEN }
{
    line.push_str(Buffer::new().format(n));
}

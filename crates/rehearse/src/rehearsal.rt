// What the program makes of its input: it compiles, runs, and tells the end in a line.

ghost use Rattle.std.specs.Prelude.{◌≡◌};
ghost use Rattle.rules.specs.Line.{answer_line, rehearsal_line};
ghost use Rattle.rules.specs.Rehearsal.{rehearse};

use super::line;
use super::line::Line;
use rules::Reason;

// "One status byte, two bytes of table length (little-endian), the table, and the rest as schedule .. Input under 3 bytes, or
// shorter than it announces, is `refused 1 at 0`."
pub(crate) fn of_input(input: &[u8]) -> Line
    ensures { result.bytes ≡ rehearsal_line input.now }
{
    let [status, low, high, rest @ ..] = input else {
        return line::refused(Reason::TableSize as u32, 0);
    };
    let length = u16::from_le_bytes([*low, *high]) as usize;
    let Some((table, schedule)) = rest.split_at_checked(length) else {
        return line::refused(Reason::TableSize as u32, 0);
    };
    of_table(*status, table, schedule)
}

// "It compiles, runs", in buffers that are large enough for every table, by the functions of the C interface, which give a refusal
// as a number.
fn of_table(status: u8, table: &[u8], schedule: &[u8]) -> Line
    ensures { result.bytes ≡ answer_line (rehearse status table.now schedule.now) }
{
    let mut code = [0u8; 8184];
    let compiled = salnegris::salnegris_compile(table, &mut code);
    if compiled.refusal != 0 {
        return line::refused(compiled.refusal, compiled.place);
    }
    let bytes = 8 * compiled.length as usize;
    let mut stack = [0u8; 4096];
    let answer = salnegris::salnegris_run(status, &code[..bytes], schedule, &mut stack);
    line::answer(answer)
}

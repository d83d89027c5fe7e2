// Says a refusal by its number, as the lines of `report` say it: the programs `card` and `midi` say theirs so, on standard error.
#![tactic(auto)]

ghost use Rattle.report_lines.specs.Lines.{line_x};
ghost use Rattle.descriptor.specs.Reads.{Writes};

use descriptor::Failed;
use report_lines::put_refusal;
use std::io;

// Writes the line of a refusal: all of it, or none that counts, where the write failed.
pub fn say<W: io::Write>(to: &mut W, number: u32) -> Result<usize, Failed>
    ensures { Writes result (line_x number) }
{
    let mut line = [0u8; 4096];
    let Some(end) = put_refusal(&mut line, 0, number) else {
        return Err(Failed { count: 0 });
    };
    descriptor::write(to, &line[..end])
}

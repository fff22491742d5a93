// What is written to the output.
use crate::stop::Stop;
use line::Line;
use std::io::Write;

// Writes the line whole, and at once.
pub(crate) fn show_line(rt: &HostRuntime, line: Line) -> Result<(), Stop> {
    let mut output = rt.stdout();
    write!(output, "{line}")?;
    output.flush()?;
    Ok(())
}

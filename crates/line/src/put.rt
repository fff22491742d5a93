// Putting out bytes: whole, at the front of a lent output, or not at all.
ghost use Rattle.line.specs.Output.{PutOut};

use arithmetic::Refusal;

// Tells how many bytes were put out. The rest of the output stays, and all of it where it is too short.
pub fn put_out(output: &mut [u8], bytes: &[u8]) -> Result<usize, Refusal>
    ensures puts { PutOut bytes.now output.old output.new result }
{
    let count = bytes.len();
    if output.len() < count {
        return Err(Refusal::OutputShort);
    }
    output[0..count].copy_from_slice(bytes);
    Ok(count)
}

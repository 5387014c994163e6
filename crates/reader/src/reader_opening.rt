//! Opening a gate reader: questions 2 to 6 with the large limits, and 14 of the buffers for the widths.
ghost use Rattle.netlist.specs.Netlist.{masked_limits as limits_of_masked};
ghost use Rattle.reader.specs.Opens.{OpeningIs};

use crate::gate_reader::GateReader;
use crate::header::Header;
use crate::opening::read_opening;
use netlist::{Refusal, Sizes};
use text::count::count_lines;

/// Questions 2 to 6, and 14 of the two buffers: the header's numbers, with the reader before its first call. The widths
/// of the values go to the buffers' fronts; on a refusal they stay untouched.
pub fn open_at<'a>(
    text: &'a [u8],
    inputs: &mut [u32],
    outputs: &mut [u32],
    sizes: Sizes,
) -> Result<(Header, GateReader<'a>), Refusal>
    ensures { OpeningIs (limits_of_masked sizes) text.now inputs.old inputs.new outputs.old
        outputs.new result }
{
    let mut ins = [0u32; 17];
    let mut outs = [0u32; 16];
    let (h, at) = read_opening(text, sizes.masked_limits(), &mut ins, &mut outs)?;
    if count_lines(at) != h.gates as usize {
        return Err(Refusal::Count);
    }
    if inputs.len() < h.input_values {
        return Err(Refusal::Room);
    }
    if outputs.len() < h.output_values {
        return Err(Refusal::Room);
    }
    inputs[..h.input_values].copy_from_slice(&ins[..h.input_values]);
    outputs[..h.output_values].copy_from_slice(&outs[..h.output_values]);
    Ok((h, GateReader::new(text, at.at)))
}

//! The services for programs in C and Rust: a slice comes as a pointer and a length, and the answer is one number, at
//! least 0 for a result and minus the number of the refusing question otherwise. include/fidrovelj.h declares them.
#![tactic(auto)]

mod about;
pub mod answers;
mod certified;
pub mod certified_answer;
mod explain_calls;
mod fewest_calls;
pub mod pair_answers;
mod pair_calls;
mod reading;
mod refused_places;
mod sessions;
mod shapes;
pub mod table_kinds;
pub mod wide_answers;
mod wide_calls;
mod workspace;

ghost use Rattle.convert.specs.RewritePromise.{Promise as RewritePromise};
ghost use Rattle.convert.specs.FromOldPromise.{Promise as FromOldPromise};
ghost use Rattle.convert.specs.ToOldPromise.{Promise as ToOldPromise};
ghost use Rattle.run.specs.Promise.{Promise as RunPromise};
ghost use Rattle.run.specs.SixtyFourPromise.{Promise as Run64Promise};
ghost use Rattle.mask.specs.Promise.{Promise as MaskPromise};
ghost use Rattle.mask.specs.TwinsPromise.{Promise as TwinsPromise};
ghost use Rattle.checker.specs.Promise.{Promise as CheckPromise};
ghost use Rattle.from_aiger.specs.Promise.{Promise as AigerPromise};
ghost use Rattle.join.specs.Promise.{Promise as JoinPromise};
ghost use Rattle.from_verilog.specs.Promise.{Promise as VerilogPromise};
ghost use Rattle.capi.specs.Number.{sizes_of, Told, ToldLeak};

use crate::answers::{number, sizes, tell};

/// Rewrite: how many bytes the written form has at the front of `out`.
#[unsafe(no_mangle)]
pub extern "C" fn fidrovelj_rewrite(
    text: &[u8],
    out: &mut [u8],
    operands: &mut [u64],
    results: &mut [u64],
    marks: &mut [u8],
    whole: u8,
) -> i64
    ensures { Told (RewritePromise (sizes_of whole) text.now out.old out.new operands.old
        operands.new results.old results.new marks.old marks.new) result }
{
    number(convert::rewrite::rewrite(text, out, operands, results, marks, sizes(whole)))
}

/// From the older dialect to Fashion: how many bytes the written form has at the front of `out`.
#[unsafe(no_mangle)]
pub extern "C" fn fidrovelj_from_old(
    text: &[u8],
    out: &mut [u8],
    operands: &mut [u64],
    results: &mut [u64],
    marks: &mut [u8],
    whole: u8,
) -> i64
    ensures { Told (FromOldPromise (sizes_of whole) text.now out.old out.new
        operands.old operands.new results.old results.new marks.old marks.new) result }
{
    number(convert::from_old::from_old(text, out, operands, results, marks, sizes(whole)))
}

/// From Fashion to the older dialect: how many bytes the old written form has at the front of `out`.
#[unsafe(no_mangle)]
pub extern "C" fn fidrovelj_to_old(
    text: &[u8],
    out: &mut [u8],
    operands: &mut [u64],
    results: &mut [u64],
    marks: &mut [u8],
    whole: u8,
) -> i64
    ensures { Told (ToOldPromise (sizes_of whole) text.now out.old out.new
        operands.old operands.new results.old results.new marks.old marks.new) result }
{
    number(convert::to_old::to_old(text, out, operands, results, marks, sizes(whole)))
}

/// Run: how many output bits stand at the front of `out`.
#[unsafe(no_mangle)]
pub extern "C" fn fidrovelj_run(
    text: &[u8],
    list: &[u8],
    out: &mut [u8],
    operands: &mut [u64],
    results: &mut [u64],
    marks: &mut [u8],
    words: &mut [u64],
    whole: u8,
) -> i64
    ensures { Told (RunPromise (sizes_of whole) text.now list.now out.old out.new
        operands.old operands.new results.old results.new marks.old marks.new
        words.old words.new) result }
{
    number(run::run(
        text,
        list,
        out,
        operands,
        results,
        marks,
        words,
        sizes(whole),
    ))
}

/// Sixty-four runs: how many output words stand at the front of `out`.
#[unsafe(no_mangle)]
pub extern "C" fn fidrovelj_run64(
    text: &[u8],
    list: &[u64],
    out: &mut [u64],
    operands: &mut [u64],
    results: &mut [u64],
    marks: &mut [u8],
    words: &mut [u64],
    whole: u8,
) -> i64
    ensures { Told (Run64Promise (sizes_of whole) text.now list.now out.old out.new
        operands.old operands.new results.old results.new marks.old marks.new
        words.old words.new) result }
{
    number(run::sixty_four::run64(
        text,
        list,
        out,
        operands,
        results,
        marks,
        words,
        sizes(whole),
    ))
}

/// Mask: how many bytes the masked text has at the front of `out`; the output codes stand at the front of `out_codes`.
#[unsafe(no_mangle)]
pub extern "C" fn fidrovelj_mask(
    text: &[u8],
    codes: &[u8],
    wanted: &[u8],
    out: &mut [u8],
    out_codes: &mut [u8],
    operands: &mut [u64],
    results: &mut [u64],
    wires: &mut [u32],
    marks: &mut [u8],
    whole: u8,
) -> i64
    ensures { Told (MaskPromise (sizes_of whole) text.now codes.now wanted.now out.old
        out.new out_codes.old out_codes.new operands.old operands.new results.old
        results.new wires.old wires.new marks.old marks.new) result }
{
    number(mask::mask(
        text,
        codes,
        wanted,
        out,
        out_codes,
        operands,
        results,
        wires,
        marks,
        sizes(whole),
    ))
}

/// Twins: how many source wires there are; the masked wire of each stands at the front of `wires`, its code at the
/// front of `out_codes`.
#[unsafe(no_mangle)]
pub extern "C" fn fidrovelj_twins(
    text: &[u8],
    codes: &[u8],
    wires: &mut [u32],
    out_codes: &mut [u8],
    operands: &mut [u64],
    results: &mut [u64],
    marks: &mut [u8],
    whole: u8,
) -> i64
    ensures { Told (TwinsPromise (sizes_of whole) text.now codes.now wires.old wires.new
        out_codes.old out_codes.new operands.old operands.new results.old results.new
        marks.old marks.new) result }
{
    number(mask::twins::twins(
        text,
        codes,
        wires,
        out_codes,
        operands,
        results,
        marks,
        sizes(whole),
    ))
}

/// Check: 0 where the netlist is clean; 1 where it leaks, with the leak's numbers at the front of `leak`.
#[unsafe(no_mangle)]
pub extern "C" fn fidrovelj_check(
    text: &[u8],
    codes: &[u8],
    leak: &mut [u64],
    operands: &mut [u64],
    results: &mut [u64],
    marks: &mut [u8],
    words: &mut [u64],
    base: &mut [u64],
    whole: u8,
) -> i64
    ensures { ToldLeak (CheckPromise (sizes_of whole) text.now codes.now operands.old
        operands.new results.old results.new marks.old marks.new words.old
        words.new base.old base.new) leak.old leak.new result }
{
    tell(
        leak,
        checker::check(
            text,
            codes,
            operands,
            results,
            marks,
            words,
            base,
            sizes(whole),
        ),
    )
}

/// The netlist made of an AIGER file: how many bytes its written form has at the front of `out`.
#[unsafe(no_mangle)]
pub extern "C" fn fidrovelj_from_aiger(
    text: &[u8],
    out: &mut [u8],
    operands: &mut [u64],
    results: &mut [u64],
    variables: &mut [u32],
    whole: u8,
) -> i64
    ensures { Told (AigerPromise (sizes_of whole) text.now out.old out.new operands.old
        operands.new results.old results.new variables.old variables.new) result }
{
    number(from_aiger::from_aiger(text, out, operands, results, variables, sizes(whole)))
}

/// Join: how many bytes the joined netlist's written form has at the front of `out`.
#[unsafe(no_mangle)]
pub extern "C" fn fidrovelj_join(
    first: &[u8],
    second: &[u8],
    codes: &[u8],
    out_codes: &[u8],
    inner: &[u8],
    out: &mut [u8],
    operands: &mut [u64],
    results: &mut [u64],
    marks: &mut [u8],
    words: &mut [u64],
    base: &mut [u64],
    whole: u8,
) -> i64
    ensures { Told (JoinPromise (sizes_of whole) first.now second.now codes.now out_codes.now
        inner.now out.old out.new operands.old operands.new results.old
        results.new marks.old marks.new words.old words.new base.old
        base.new) result }
{
    number(join::join(
        first,
        second,
        codes,
        out_codes,
        inner,
        out,
        operands,
        results,
        marks,
        words,
        base,
        sizes(whole),
    ))
}

/// The netlist made of equations in Verilog: how many bytes its written form has at the front of `out`.
#[unsafe(no_mangle)]
pub extern "C" fn fidrovelj_from_verilog(
    text: &[u8],
    out: &mut [u8],
    operands: &mut [u64],
    results: &mut [u64],
    heads: &mut [u64],
    words: &mut [u64],
    links: &mut [u64],
    states: &mut [u32],
    wires: &mut [u32],
    whole: u8,
) -> i64
    ensures { Told (VerilogPromise (sizes_of whole) text.now out.old out.new operands.old
        operands.new results.old results.new heads.old heads.new words.old
        words.new links.old links.new states.old states.new wires.old
        wires.new) result }
{
    number(from_verilog::from_verilog(
        text,
        out,
        operands,
        results,
        heads,
        words,
        links,
        states,
        wires,
        sizes(whole),
    ))
}

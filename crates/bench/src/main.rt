//! How long preparing takes for texts and rules of growing size. `bench --measure` prints times; without it the sizes alone are printed, which
//! are the same in every run.
#![tactic(auto)]

use lines::line::Line;
use listing::list;
use preparation::prepare::{MAX_LISTING_BYTES, prepare};
use std::alloc::Global;
use std::env;
use std::time::Instant;
use tables::admit::MAX_TABLE_LINES;
use text::table::read;

/// How often each call is timed.
const TURNS: u64 = 200;

/// A text line of 32 bytes.
const LINE: &[u8; 32] = b"add f10 f20 f30 ; some comment.\n";

/// A text of so many such lines.
fn text_of(heap: Global, lines: usize) -> anyhow::Result<Vec<u8>> {
    Ok(LINE.repeat(heap, lines)?)
}

/// Does the work so many times, and answers what it answered last and the nanoseconds of a turn.
fn timed<F: FnMut() -> usize + Drop>(rt: &HostRuntime, mut work: F) -> anyhow::Result<(usize, u128)>
    requires { F.IsAlwaysCallable work }
{
    let start = Instant::now(rt)?;
    let mut answer = 0;
    for _ in 0..TURNS {
        answer = work();
    }
    Ok((answer, start.elapsed(rt)?.as_nanos() / u128::from(TURNS)))
}

/// Ends a line, with the nanoseconds if there are any to print.
fn end_line(rt: &HostRuntime, nanos: Option<u128>) -> anyhow::Result<()> {
    match nanos {
        Some(nanos) => println!(rt; ": {nanos} ns")?,
        None => println!(rt; "")?,
    }
    Ok(())
}

/// Reads a text of many lines, which may be more than a rule may have.
fn measure_read(rt: &HostRuntime, lines: usize, is_timed: bool) -> anyhow::Result<()> {
    let text = text_of(rt.alloc(), lines)?;
    let mut table = vec![in rt.alloc(); Line::End; MAX_TABLE_LINES]?;
    let (count, nanos) = timed(rt, || read(&text, &mut table).unwrap_or(0))?;
    let bytes = text.len();
    print!(rt; "read {bytes} bytes, {count} lines")?;
    end_line(rt, is_timed.then_some(nanos))
}

/// Prepares and lists a rule.
fn measure_prepare(rt: &HostRuntime, lines: usize, is_timed: bool) -> anyhow::Result<()> {
    let text = text_of(rt.alloc(), lines)?;
    let mut rule = vec![in rt.alloc(); Line::End; MAX_TABLE_LINES]?;
    let mut table = vec![in rt.alloc(); Line::End; MAX_TABLE_LINES]?;
    let mut buffer = vec![in rt.alloc(); 0u8; MAX_LISTING_BYTES]?;
    let (listed, nanos) = timed(rt, || match prepare(&text, &mut rule, &mut table) {
        Ok(prepared) => list(&table[..prepared.balanced_lines], &mut buffer).unwrap_or(0),
        Err(_) => 0,
    })?;
    print!(rt; "prepare and list {lines} lines, {listed} bytes listed")?;
    end_line(rt, is_timed.then_some(nanos))
}

fn main(rt: HostRuntime) -> anyhow::Result<()> {
    let is_timed = env::args(&rt)?
        .skip(1)
        .any(|argument| argument.as_str() == "--measure");
    for lines in [256, 512, 1024, 2048] {
        measure_read(&rt, lines, is_timed)?;
    }
    for lines in [32, 64, 128, 256] {
        measure_prepare(&rt, lines, is_timed)?;
    }
    Ok(())
}

//! `prepare`: reads a rule from standard input, and prints its balanced lines and their steps, or why it is refused.
#![tactic(auto)]

use lines::line::Line;
use listing::list;
use preparation::explain::{Refusal, fault_line};
use preparation::fault::PrepareFault;
use preparation::prepare::{MAX_LISTING_BYTES, prepare};
use std::io;
use std::io::{Read, Write};
use std::process::ExitCode;
use tables::admit::MAX_TABLE_LINES;
use text::table::MAX_TEXT;
use text::text_lines::line_text;

/// Standard input, of which at most one byte past the limit is taken.
fn read_text(rt: &HostRuntime) -> io::Result<Vec<u8>> {
    let mut text = Vec::new(rt.alloc());
    rt.stdin().take(MAX_TEXT as u64 + 1).read_to_end(&mut text)?;
    Ok(text)
}

/// Prints the lines of a table and its steps.
fn print_table(rt: &HostRuntime, table: &[Line], steps: u32) -> anyhow::Result<()> {
    let mut buffer = vec![in rt.alloc(); 0u8; MAX_LISTING_BYTES]?;
    let length = list(table, &mut buffer)?;
    rt.stdout().write_all(&buffer[..length])?;
    println!(rt; "steps {steps}")?;
    Ok(())
}

/// Prints the refusal, and says on standard error what is wrong.
fn print_refusal(rt: &HostRuntime, fault: &PrepareFault, text: &[u8]) -> anyhow::Result<()> {
    rt.println(Refusal(*fault))?;
    let Some(line) = fault_line(fault, text) else {
        eprintln!(rt; "prepare: {fault}.")?;
        return Ok(());
    };
    eprintln!(rt; "prepare: line {line}: {fault}:")?;
    if let Some(part) = line_text(text, line) {
        rt.stderr().write_all(part)?;
        eprintln!(rt; "")?;
    }
    Ok(())
}

/// Prepares the rule, and answers the status to end with.
fn run(rt: &HostRuntime) -> anyhow::Result<ExitCode> {
    let text = read_text(rt)?;
    let mut rule = vec![in rt.alloc(); Line::End; MAX_TABLE_LINES]?;
    let mut table = vec![in rt.alloc(); Line::End; MAX_TABLE_LINES]?;
    match prepare(&text, &mut rule, &mut table) {
        Ok(prepared) => {
            let lines = prepared.balanced_lines;
            print_table(rt, &table[..lines], prepared.costs.balanced)?;
            Ok(ExitCode::SUCCESS)
        }
        Err(fault) => {
            print_refusal(rt, &fault, &text)?;
            Ok(ExitCode::FAILURE)
        }
    }
}

fn main(rt: HostRuntime) -> anyhow::Result<ExitCode> {
    run(&rt)
}

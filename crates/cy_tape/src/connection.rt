//! What a connection came to, as a report writes it.

ghost use Rattle.std.specs.Prelude.{◌≡◌, ◌++◌, OnErr, OnOk, codes, decimal, flat_map};
ghost use Rattle.cy_bytes.specs.Quoting.{quoted};
ghost use Rattle.cy_model.specs.Reports.{cause_text, chart_item, chart_line, line_end};
ghost use Rattle.cy_tape.specs.ChartTexts.{charts_text, conn_text};

use crate::chart::Chart;
use crate::names::{call_name, cause_text};
use crate::text::{append, push_quoted};
use cy_bytes::{Bytes, NoMemory};
use cy_event::{ChartItem, CloseCause};
use std::alloc::Global;

/// Appends the lines of the connection of this number: `conn` with why it closes, how many bytes its socket took and
/// how many were written; `out` with the bytes that were written, quoted; and `chart` for each of the charts, in their
/// order and each by the number of its own request. Each line ends with a line feed. `took` counts bytes, and without
/// a cause the connection is `open`.
///
/// # Errors
///
/// `NoMemory` where memory ran out. Then `into` is as before.
#[tactic(auto, unfolding(cy_model::specs::Reports::connection_text, crate::specs::ChartTexts::conn_text))]
pub fn print_conn(
    alloc: Global,
    conn: u64,
    cause: Option<CloseCause>,
    took: u64,
    out: &[u8],
    charts: &[Chart],
    into: &mut Bytes,
) -> Result<(), NoMemory>
    ensures appended { OnOk result (into.new ≡ into.old ++ conn_text conn cause took out.now charts.now) }
    ensures unchanged { OnErr result (into.new ≡ into.old) }
{
    let mut text = Vec::new(alloc);
    push_conn_line(alloc, &mut text, conn, cause, took, out.len())?;
    push_out_line(alloc, &mut text, out)?;
    push_chart_lines(alloc, &mut text, conn, charts)?;
    append(alloc, into, &text)
}

/// Appends the line of why a connection closes, and how much its socket took of how much was written.
fn push_conn_line(
    alloc: Global,
    text: &mut Vec<u8>,
    conn: u64,
    cause: Option<CloseCause>,
    took: u64,
    size: usize,
) -> Result<(), NoMemory>
    ensures { OnOk result (text.new.items ≡ text.old.items ++ (codes "conn " ++ decimal conn ++ codes " " ++ cause_text cause ++ codes " took " ++ decimal took ++ codes " of " ++ decimal size ++ line_end)) }
{
    let why = cause_text(cause);
    let line = format!(in alloc; "conn {conn} {why} took {took} of {size}\n")?;
    text.extend_from_slice(line.as_bytes())?;
    Ok(())
}

/// Appends the line of what was written on a connection.
fn push_out_line(alloc: Global, text: &mut Vec<u8>, out: &[u8]) -> Result<(), NoMemory>
    ensures { OnOk result (text.new.items ≡ text.old.items ++ (codes "out \"" ++ quoted out.now ++ codes "\"\n")) }
{
    text.extend_from_slice(b"out \"")?;
    push_quoted(alloc, text, out)?;
    text.extend_from_slice(b"\"\n")?;
    Ok(())
}

/// Appends the charts, each by the number of its own request.
fn push_chart_lines(
    alloc: Global,
    text: &mut Vec<u8>,
    conn: u64,
    charts: &[Chart],
) -> Result<(), NoMemory>
    ensures { OnOk result (text.new.items ≡ text.old.items ++ charts_text conn charts.now) }
{
    for chart in charts {
        push_chart_line(alloc, text, conn, chart.request, chart.items.as_slice())?;
    }
    Ok(())
}

/// Appends the chart of a request of a connection.
#[tactic(auto, unfolding(cy_model::specs::Reports::chart_line))]
fn push_chart_line(
    alloc: Global,
    text: &mut Vec<u8>,
    conn: u64,
    request: u64,
    items: &[ChartItem],
) -> Result<(), NoMemory>
    ensures { OnOk result (text.new.items ≡ text.old.items ++ chart_line conn request items.now) }
{
    let head = format!(in alloc; "chart {conn} {request}")?;
    text.extend_from_slice(head.as_bytes())?;
    push_chart_items(alloc, text, items)?;
    text.extend_from_slice(b"\n")?;
    Ok(())
}

/// Appends each item, with a space before it.
fn push_chart_items(alloc: Global, text: &mut Vec<u8>, items: &[ChartItem]) -> Result<(), NoMemory>
    ensures { OnOk result (text.new.items ≡ text.old.items ++ flat_map chart_item items.now) }
{
    for item in items {
        push_chart_item(alloc, text, *item)?;
    }
    Ok(())
}

/// Appends a call's name or a number of cycles, with a space before it.
fn push_chart_item(alloc: Global, text: &mut Vec<u8>, item: ChartItem) -> Result<(), NoMemory>
    ensures { OnOk result (text.new.items ≡ text.old.items ++ chart_item item) }
{
    let word = match item {
        ChartItem::One(call) => format!(in alloc; " {}", call_name(call))?,
        ChartItem::Cycles(count) => format!(in alloc; " Cycles {count}")?,
    };
    text.extend_from_slice(word.as_bytes())?;
    Ok(())
}

//! The report of a run: a line for each step, and then lines for each connection.
ghost use Rattle.std.specs.Prelude.{◌≡◌, ◌≤◌, ◌<◌, ◌+◌, ◌++◌, [], false, length, List, map, reverse, IfErr, IfOk, OnOk, Some};
ghost use Rattle.std.specs.List.{list_any};
ghost use Rattle.cy_event.specs.declared.head.TheConstants.{HEAD_ROOM, FIELD_ROOM};
ghost use Rattle.cy_event.specs.declared.steps.Step.{Step as AnyStep};
ghost use Rattle.cy_map.specs.declared.mapper.TheConstants.{MAX_RULES};
ghost use Rattle.cy_map.specs.Refusals.{IsTaken};
ghost use Rattle.cy_model.specs.Marks.{Trace};
ghost use Rattle.cy_model.specs.Reports.{connection_text, reply_line, report, trace_text};
ghost use Rattle.cy_model.specs.Steps.{IsValid};
ghost use Rattle.cy_proc.specs.Processors.{is_over_at};
ghost use Rattle.cy_tape.specs.Laws.{AreNumberedFrom};
ghost use Rattle.cy_world.specs.Answered.{Keeps, Tells, seat_parts};
ghost use Rattle.cy_world.specs.Faults.{IsFaultOf};
ghost use Rattle.cy_world.specs.Places.{charts_in};
ghost use Rattle.cy_world.specs.Reporting.{connections_text, items_of, text_of};
ghost use Rattle.cy_world.specs.Told.{is_clock, replied};
ghost use Rattle.cy_world.specs.Worlds.{StandsFor, find_in};
ghost use Rattle.cy_world.specs.declared.terms.Terms.{Terms};

use super::{Admitted, Replied, World};
use crate::fault::WorldFault;
use crate::seat::{Account, Seat};
use cy_bytes::{Bytes, NoMemory};
use cy_event::{CloseCause, Limits, Step};
use cy_map::Rule;
use cy_slot::Slot;
use cy_tape::{Chart, ChartItems, print_conn, print_reply};
use std::alloc::Global;

/// The report of these steps: what each is answered, and then what each connection came to, by rising number.
///
/// # Errors
///
/// `BadPattern` and `RuleTwice` as `World::new`, `NoMemory` where memory ran out.
pub fn run(
    alloc: Global,
    limits: &Limits,
    rules: &[Rule],
    steps: &[Step],
) -> Result<Bytes, WorldFault>
    requires head_room { limits.now.max_head ≤ HEAD_ROOM }
    requires field_room { limits.now.max_fields ≤ FIELD_ROOM }
    requires rules { length rules.now ≤ MAX_RULES }
    requires valid { IsValid (reverse steps.now) }
    // No step of the clock can be taken so far.
    requires clock { list_any is_clock steps.now ≡ false }
    ensures report { IfOk result (λ text. text ≡ report limits.now rules.now steps.now) }
    ensures taken { OnOk result (IsTaken rules.now) }
    ensures fault { IfErr result (IsFaultOf rules.now) }
{
    let mut world = World::new(alloc, limits, rules)?;
    let mut text = Vec::new(alloc);
    for (index, step) in steps.iter().enumerate() {
        let Ok(answer) = world.step(alloc, step) else {
            return Err(WorldFault::NoMemory);
        };
        push_reply_line(alloc, &mut text, index + 1, &answer)?;
    }
    world.push_connections(alloc, &mut text)?;
    Ok(Bytes::of(text))
}

impl World {
    /// Appends the lines of each connection, by rising number.
    fn push_connections(&self, alloc: Global, text: &mut Vec<u8>) -> Result<(), NoMemory>
        ensures { OnOk result ((w : List AnyStep) → StandsFor w self.now → text.new.items ≡ text.old.items ++ connections_text self.now w) }
    {
        for (number, admitted) in &self.book {
            self.push_connection(alloc, text, *number, admitted)?;
        }
        Ok(())
    }

    /// Appends the lines of a connection of the book.
    fn push_connection(
        &self,
        alloc: Global,
        text: &mut Vec<u8>,
        number: u64,
        admitted: &Admitted,
    ) -> Result<(), NoMemory>
        requires known { find_in number self.now.book ≡ Some admitted.now }
        ensures { OnOk result ((w : List AnyStep) → StandsFor w self.now → text.new.items ≡ text.old.items ++ text_of self.now w number) }
    {
        match admitted {
            Admitted::Seated(place) => {
                push_seat(alloc, text, number, &self.seats[*place as usize])
            }
            Admitted::Gone(account) => push_account(alloc, text, number, account),
        }
    }
}

/// Appends the line of the step of this number.
#[tactic(auto, unfolding(cy_model::specs::Reports::reply_line))]
fn push_reply_line(
    alloc: Global,
    text: &mut Vec<u8>,
    number: usize,
    answer: &Replied,
) -> Result<(), NoMemory>
    ensures { OnOk result (text.new.items ≡ text.old.items ++ reply_line number (replied answer.now)) }
{
    let mut line = Bytes::of(format!(in alloc; "{number} ")?.into_bytes());
    print_reply(alloc, &answer.reply, answer.got.as_slice(), &mut line)?;
    text.extend_from_slice(line.as_slice())?;
    text.extend_from_slice(b"\n")?;
    Ok(())
}

/// Appends the lines of a connection for which the place is held.
fn push_seat(alloc: Global, text: &mut Vec<u8>, number: u64, seat: &Seat) -> Result<(), NoMemory>
    requires kept { is_over_at seat.now.place.live.processor.stage ≡ false }
    ensures { OnOk result ((s : Terms) (T : Trace) → Keeps s T (seat_parts seat.now) → text.new.items ≡ text.old.items ++ trace_text number T) }
{
    let tally = seat.tally();
    let charts = seat_charts(alloc, seat)?;
    let written = seat.written().as_slice();
    push_lines(
        alloc,
        text,
        number,
        tally.cause,
        tally.took,
        written,
        &charts,
    )
}

/// Appends the lines of a connection that is gone.
fn push_account(
    alloc: Global,
    text: &mut Vec<u8>,
    number: u64,
    account: &Account,
) -> Result<(), NoMemory>
    ensures { OnOk result ((T : Trace) → Tells T account.now → text.new.items ≡ text.old.items ++ trace_text number T) }
{
    let charts = numbered(alloc, &account.charts)?;
    let written = account.written.as_slice();
    push_lines(
        alloc,
        text,
        number,
        account.cause,
        account.took,
        written,
        &charts,
    )
}

/// Appends the lines of a connection that came to this.
fn push_lines(
    alloc: Global,
    text: &mut Vec<u8>,
    number: u64,
    cause: Option<CloseCause>,
    took: u64,
    written: &[u8],
    charts: &[Chart],
) -> Result<(), NoMemory>
    requires numbered { AreNumberedFrom 1 charts.now }
    ensures { OnOk result (text.new.items ≡ text.old.items ++ connection_text number cause took written.now (map items_of charts.now)) }
{
    let mut lines = Bytes::of(Vec::new(alloc));
    print_conn(alloc, number, cause, took, written, charts, &mut lines)?;
    text.extend_from_slice(lines.as_slice())?;
    Ok(())
}

/// Copies of the charts of all requests, each with its number.
fn seat_charts(alloc: Global, seat: &Seat) -> Result<Vec<Chart>, NoMemory>
    requires kept { is_over_at seat.now.place.live.processor.stage ≡ false }
    ensures items { IfOk result (λ charts. map items_of charts.items ≡ charts_in seat.now.place.live) }
    ensures numbers { IfOk result (λ charts. AreNumberedFrom 1 charts.items) }
{
    let mut charts = numbered(alloc, seat.charts())?;
    if seat.is_open() {
        let request = charts.len() as u64 + 1;
        let items = open_chart(alloc, seat.slot())?;
        charts.push(Chart { request, items })?;
    }
    Ok(charts)
}

/// Copies of these charts, numbered from 1.
fn numbered(alloc: Global, charts: &[ChartItems]) -> Result<Vec<Chart>, NoMemory>
    ensures items { IfOk result (λ copies. map items_of copies.items ≡ charts.now) }
    ensures numbers { IfOk result (λ copies. AreNumberedFrom 1 copies.items) }
{
    let mut copies = Vec::new(alloc);
    for (index, chart) in charts.iter().enumerate() {
        let items = ChartItems::of(Vec::from_slice(alloc, chart.as_slice())?);
        let request = index as u64 + 1;
        copies.push(Chart { request, items })?;
    }
    Ok(copies)
}

/// A copy of the chart of the request that is open in the slot.
fn open_chart(alloc: Global, slot: &Slot) -> Result<ChartItems, NoMemory>
    ensures { IfOk result (λ items. items ≡ slot.now.processor.progress.chart) }
{
    let mut items = Vec::new(alloc);
    for place in 0..slot.chart_len() {
        items.push(slot.chart_item(place))?;
    }
    Ok(ChartItems::of(items))
}

//! The summary of sessions that the program made itself.

ghost use Rattle.std.specs.Prelude.{◌≡◌, false, map, IfOk, IsTrue};
ghost use Rattle.std.specs.List.{list_all};
ghost use Rattle.core_state.specs.Named.{is_named_snapshot};
ghost use Rattle.generator.specs.Summaries.{summary_text};
ghost use Rattle.pbs_server.specs.Ended.{rows_of as rows_of_listed};
ghost use Rattle.pbs_server.specs.Generating.{IsInMemory, IsJustTold, TellsEnded, TellsText, all_as_memory, in_memory as in_memory_of, memory_status, replies_of as replies_of_ports};
ghost use Rattle.pbs_server.specs.declared.status.Status.TheVariants.{Ok as AllOk};

use crate::ended::Ended;
use crate::input::MadeInput;
use crate::served::Served;
use crate::status::{Status, status_of};
use crate::telling::with_failed_journal;
use core_admin::row_of;
use core_state::Listed;
use generator::summary;
use lane::Ending;
use port_traits::{MemSink, Sink, write_all_of};
use std::alloc::{AllocError, Global};
use store_history::{LaneReport, Port};
use store_types::Bytes;
use wire_commands::ListRow;

/// All snapshots, as LIST tells each.
fn rows_of(alloc: Global, listed: &[Listed]) -> Result<Vec<ListRow>, AllocError>
    requires { IsTrue (list_all is_named_snapshot listed.now) }
    ensures { IfOk result (λ rows. rows.items ≡ rows_of_listed listed.now) }
{
    let mut rows = Vec::new(alloc);
    for snapshot in listed {
        rows.push(row_of(alloc, &snapshot.kept)?)?;
    }
    Ok(rows)
}

/// What the sinks took.
fn replies_of(alloc: Global, ports: &[Port<MadeInput, MemSink>]) -> Result<Vec<Bytes>, AllocError>
    ensures { IfOk result (λ replies. replies.items ≡ replies_of_ports ports.now) }
{
    let mut replies = Vec::new(alloc);
    for port in ports {
        replies.push(Bytes::from_slice(alloc, port.sink.as_bytes())?)?;
    }
    Ok(replies)
}

/// The summary's text, of what the sinks took and these snapshots.
fn text_of(
    alloc: Global,
    ports: &[Port<MadeInput, MemSink>],
    listed: &[Listed],
) -> Result<Vec<u8>, AllocError>
    requires { IsTrue (list_all is_named_snapshot listed.now) }
    ensures { IfOk result (λ text. text.items
        ≡ summary_text (replies_of_ports ports.now) (rows_of_listed listed.now)) }
{
    let rows = rows_of(alloc, listed)?;
    let replies = replies_of(alloc, ports)?;
    summary(alloc, &replies, &rows)
}

/// A sink of the program's own fails where it cannot grow.
fn in_memory(ending: Ending) -> Ending
    ensures { result ≡ in_memory_of ending }
{
    match ending {
        Ending::SinkFault => Ending::NoMemory,
        other => other,
    }
}

fn remember(lanes: &mut [LaneReport])
    ensures { lanes.new ≡ all_as_memory lanes.old }
{
    for lane in lanes.iter_mut() {
        lane.ending = in_memory(lane.ending);
    }
}

/// The status and the lanes' endings, where a sink that failed is one that lacked memory.
fn told_in_memory<D, E>(mut served: Served<D, E>) -> Served<D, E>
    ensures rest { IsInMemory served result }
    ensures status { result.status ≡ memory_status served }
    ensures journal { result.report.journal_failed ≡ served.report.journal_failed }
{
    remember(&mut served.report.lanes);
    served.status = status_of(&served.order, &served.report.lanes, served.report.not_saved);
    served
}

/// Writes the summary of a run that was Ok, if there was memory for it.
fn tell<D, E, J: Sink>(
    mut served: Served<D, E>,
    text: Result<Vec<u8>, AllocError>,
    journal: &mut J,
) -> Served<D, E>
    requires ok { served.status ≡ AllOk }
    requires unfailed { served.report.journal_failed ≡ false }
    ensures journal { TellsText J.Sink text journal.old journal.new
        result.status result.report.journal_failed }
    ensures rest { IsJustTold served result }
{
    let Ok(text) = text else {
        served.status = Status::NoMemory;
        return served;
    };
    match write_all_of(journal, &text) {
        Ok(()) => served,
        Err(_) => with_failed_journal(served),
    }
}

/// Tells the journal the summary of sessions that ended and left these ports, where all is well.
pub fn tell_ended<D, E, C: Drop, J: Sink>(
    alloc: Global,
    ended: Ended<D, E, C>,
    ports: &[Port<MadeInput, MemSink>],
    journal: &mut J,
) -> Served<D, E>
    ensures { TellsEnded J.Sink ended ports.now journal.old journal.new result }
{
    let text = text_of(alloc, ports, ended.core.parts.catalogue.as_slice());
    let served = told_in_memory(ended.handed_back());
    match served.status {
        Status::Ok => tell(served, text, journal),
        _ => served,
    }
}

//! A run is checked.

ghost use Rattle.std.specs.Prelude.{◌≡◌, ◌≤◌, ◌%◌, length, string_bytes, Err, IfErr, IfOk};
ghost use Rattle.replay.specs.Compare.{line as line_of};
ghost use Rattle.disk_trait.specs.Effects.{OnlyReads};
ghost use Rattle.run_check.specs.Checks.{Checks, RemoteIsOnlyRead};
ghost use Rattle.run_check.specs.Ports.{Keeps};
ghost use Rattle.run_check.specs.Sessions.{TellsOrder};

use crate::disks::{load_remote, load_root};
use crate::fault::CheckFault;
use crate::ports::{compare_outs, read_at, read_inputs};
use disk_trait::Disk;
use port_traits::Source;
use replay::{Unequal, line, read_faultless, replay};
use std::alloc::Global;
use store_history::Port;
use store_types::Entry;

/// The order of so many sessions that the first port has.
fn read_order<S: Source, K>(
    alloc: Global,
    ports: &mut [Port<S, K>],
) -> Result<Vec<Entry>, CheckFault>
    requires odd { length ports.old % 2 ≡ 1 }
    requires few { length ports.old ≤ 129 }
    ensures keeps { Keeps S.Source ports.old ports.new }
    ensures order { TellsOrder S.Source ports.old ports.new result }
{
    let bytes = read_at(alloc, ports, 0)?;
    let sessions = (ports.len() / 2) as u32;
    let Some(order) = read_faultless(alloc, sessions, bytes.as_slice())? else {
        return Err(CheckFault::BadOrder);
    };
    Ok(order)
}

/// What a check comes to: the first byte at which replayed and kept replies differ, where one does, and the line that tells it.
#[derive(Debug, Drop)]
pub struct Compared {
    pub unequal: Option<Unequal>,
    pub line: String,
}

fn told(alloc: Global, unequal: Option<Unequal>) -> Result<Compared, CheckFault>
    ensures compared { IfOk result (λ c. c.unequal ≡ unequal) }
    ensures line { IfOk result (λ c. string_bytes c.line ≡ line_of unequal) }
    ensures why { IfErr result (λ fault. fault ≡ CheckFault.NoMemory) }
{
    let line = line(alloc, unequal)?;
    Ok(Compared { unequal, line })
}

/// Replays a run and compares its replies with those that were kept of it. The disks are as they were before the run, and are only
/// read. The first port has the order's file; for each session come its input and its replies, of which at most 64 sessions there
/// are. The disk is read first, then the remote and each port, up to the first that fails; no port's sink is touched.
pub fn check_run<D: Disk, E: Disk, S: Source, K>(
    alloc: Global,
    ports: &mut [Port<S, K>],
    disk: &mut D,
    remote: &mut Option<E>,
) -> Result<Compared, CheckFault>
    requires odd { length ports.old % 2 ≡ 1 }
    requires few { length ports.old ≤ 129 }
    ensures disk { OnlyReads D.Disk disk.old disk.new (result ≡ Err CheckFault.DiskFault) }
    ensures remote { RemoteIsOnlyRead E.Disk remote.old remote.new
        (result ≡ Err CheckFault.RemoteFault) }
    ensures ports { Keeps S.Source ports.old ports.new }
    ensures checks { Checks D.Disk E.Disk S.Source disk.old remote.old ports.old ports.new result }
{
    let (store, is_damaged) = load_root(alloc, disk)?;
    if is_damaged {
        return Err(CheckFault::BadOrder);
    }
    let remote = load_remote(alloc, remote)?;
    let order = read_order(alloc, ports)?;
    let inputs = read_inputs(alloc, ports)?;
    let (order, inputs) = (order.as_slice(), inputs.as_slice());
    let comparison = replay(alloc, &store, remote.as_ref(), order, inputs)?;
    let unequal = compare_outs(comparison, ports)?;
    told(alloc, unequal)
}

//! The plain store and the lanes, as an order goes on.

ghost use Rattle.std.specs.Prelude.{◌≡◌, ◌<◌, ◌≤◌, ◌==◌, false, length, option_map, is_some, Some, None, IfOk, IfErr, OnOk};
ghost use Rattle.std.specs.List.{find};
ghost use Rattle.store_types.specs.Times.{last_moment};
ghost use Rattle.store_types.specs.declared.refusal.Refusal.TheVariants.{CollectorBusy};
ghost use Rattle.wire_commands.specs.HasText.{FitsRefusal, ReplyHasText};
ghost use Rattle.store_model.specs.Lanes.{lane_at, next_of};
ghost use Rattle.store_model.specs.Weave.{tell as told, go_on as gone_on, end_session as without_session, fault_refusal as refusal_of, is_end as is_an_end, is_cut_off as cuts_off, is_replied as has_reply, may_leave_unread as may_stop, want_collector as wants_collector, open_collector as opened, close_collector as closed_by, collected as collected_by, ended_with as after_end, unread as after_unread, begin_sync as begun_sync};
ghost use Rattle.plain_lanes.specs.Jobs.{shown_job, IsSpelledJob};
ghost use Rattle.plain_lanes.specs.Nexts.{shown_next, is_sync_next, left_of_collect, IsFitAhead, IsFitNext};
ghost use Rattle.plain_store.specs.Runs.{run_left, BeginsBy, Enters, EntersBy, EntersEntry, EntersOpen, GivesLeft, IsApart, own_collector as own_open, end_open_at, ends_at, fault_at, fault_open_at, faulted_at, opened_at, opens_at, passed_at, refused_at, remote_failed_at, short_at, short_open, stepped_at};

use crate::plain::Plain;
use plain_lanes::{Ahead, Job, Lane, Next, pull_all};
use plain_sessions::Stop;
use std::alloc::{AllocError, Global};
use std::marker::Model;
use store_model::Ending;
use store_types::{END_KIND, Entry, Refusal};
use wire_commands::Reply;

/// The lane whose collector is open, and whether memory was wanting since it opened.
#[derive(Drop)]
pub struct Collecting {
    pub lane: u32,
    pub is_out_of_memory: bool,
}

impl Model for Collecting {
    ghost use Rattle.store_model.specs.Lanes as model;

    ghost Value = { model.Collecting };

    ghost view = { λ c. record { lane = c.lane; is_out_of_memory = c.is_out_of_memory } };
}

/// The store, the remote where there is one, the lanes, the open collector, and the place of the first fault.
#[derive(Drop)]
pub struct Run<'a> {
    pub store: Plain,
    pub remote: Option<&'a Plain>,
    pub lanes: Vec<Lane<'a>>,
    pub collecting: Option<Collecting>,
    pub fault: Option<u64>,
}

impl<'a> Model for Run<'a> {
    ghost use Rattle.std.specs.Prelude.{option_map};
    ghost use Rattle.store_model.specs.Lanes as model;

    ghost Value = { model.Run };

    ghost view = { λ r. record {
      store = r.store;
      remote = option_map (λ p. p.now.snapshots) r.remote;
      lanes = r.lanes.items;
      collecting = r.collecting;
      fault = r.fault;
    } };
}

/// The refusal at a fault of the disk, where the first was at this place.
fn fault_refusal(first: Option<u64>) -> Refusal
    ensures refusal { result ≡ refusal_of first }
    ensures fits { FitsRefusal result }
{
    match first {
        None => Refusal::DiskFault,
        Some(place) => Refusal::Halted { place },
    }
}

/// The refusal where this lane's collector is open.
fn collector_busy(lane: u32) -> Refusal
    ensures refusal { result ≡ CollectorBusy lane }
    ensures fits { FitsRefusal result }
{
    Refusal::CollectorBusy { lane }
}

fn is_end(entry: Option<&Entry>) -> bool
    ensures { result ≡ is_an_end (option_map (λ e. e.now) entry.entry) }
{
    match entry {
        None => false,
        Some(entry) => entry.kind == END_KIND,
    }
}

/// The lane's next entry.
fn next_entry(lane: u32, later: &[Entry]) -> Option<&Entry>
    ensures { option_map (λ e. e.now) result ≡ find (λ e. e.lane == lane) later.now }
{
    later.iter().find(|entry| entry.lane == lane)
}

fn is_replied(ending: Ending) -> bool
    ensures { result ≡ has_reply ending }
{
    matches!(
        ending,
        Ending::Clean | Ending::Broken { .. } | Ending::SinkFault
    )
}

/// What a collector replies as it closes.
fn collected(is_out_of_memory: bool) -> Reply
    ensures reply { result ≡ collected_by is_out_of_memory }
    ensures spelled { ReplyHasText result }
{
    if is_out_of_memory {
        return Reply::Refused(Refusal::NoMemory);
    }
    Reply::Collected {
        start: 0,
        cutoff: 0,
        used: 0,
        pending: 0,
        removed: 0,
    }
}

fn may_leave_unread(ending: Ending) -> bool
    ensures { result ≡ may_stop ending }
{
    !matches!(ending, Ending::Clean | Ending::Broken { .. })
}

impl<'a> Run<'a> {
    /// A job is open on the lane.
    fn has_job(&self, lane: u32) -> bool
        requires { lane < length self.now.lanes }
        ensures { result ≡ is_some (lane_at self.now lane).job }
    {
        self.lanes[lane as usize].has_job()
    }

    /// Whether memory was wanting since the lane's own collector opened, where it is open.
    pub(crate) fn own_collector(&self, lane: u32) -> Option<bool>
        ensures { result ≡ own_open self.now lane }
    {
        let open = self.collecting.as_ref()?;
        if open.lane == lane {
            Some(open.is_out_of_memory)
        } else {
            None
        }
    }

    /// What stands next on a lane whose collector is not open. A job is taken out of it.
    fn take_next(&mut self, alloc: Global, lane: u32) -> Result<Next<'a>, AllocError>
        requires lane { lane < length self.old.lanes }
        requires apart { IsApart self.old lane }
        ensures next { IfOk result (λ n. shown_next n ≡ next_of self.old lane) }
        ensures fits { IfOk result IsFitNext }
        ensures left { IfOk result (λ n. self.new ≡ run_left n self.old lane) }
        ensures lanes { OnOk result (length self.new.lanes ≡ length self.old.lanes) }
    {
        let lane = &mut self.lanes[lane as usize];
        let next = lane.take_next(alloc)?;
        Ok(next)
    }

    /// Whether a SYNC stands next on a lane whose collector is not open.
    fn next_is_sync(&self, alloc: Global, lane: u32) -> Result<bool, AllocError>
        requires lane { lane < length self.now.lanes }
        requires apart { IsApart self.now lane }
        ensures { IfOk result (λ is_one. is_one ≡ is_sync_next (next_of self.now lane)) }
    {
        self.lanes[lane as usize].next_is_sync(alloc)
    }

    /// The lane's reply, with this left of its input and no job open.
    fn tell(
        &mut self,
        alloc: Global,
        lane: u32,
        left: &'a [u8],
        reply: Reply,
    ) -> Result<(), AllocError>
        requires lane { lane < length self.old.lanes }
        requires spelled { ReplyHasText reply }
        ensures told { OnOk result (self.new ≡ told self.old lane left.now reply) }
        ensures lanes { OnOk result (length self.new.lanes ≡ length self.old.lanes) }
    {
        let lane = &mut self.lanes[lane as usize];
        lane.tell(alloc, left, reply)?;
        Ok(())
    }

    /// The lane's job is over and reports, or goes on, with this left of the lane's input.
    #[tactic(auto, unfolding(store_model::specs::Weave::go_on))]
    fn go_on(
        &mut self,
        alloc: Global,
        lane: u32,
        left: &'a [u8],
        job: Job,
    ) -> Result<(), AllocError>
        requires lane { lane < length self.old.lanes }
        requires spelled { IsSpelledJob job }
        ensures goes { OnOk result (self.new ≡ gone_on self.old lane left.now (shown_job job)) }
        ensures lanes { OnOk result (length self.new.lanes ≡ length self.old.lanes) }
    {
        match job {
            Job::Over(report) => self.tell(alloc, lane, left, report),
            Job::Asking(asking) => {
                let lane = &mut self.lanes[lane as usize];
                lane.set_job(left, asking);
                Ok(())
            }
        }
    }

    /// The lane's session ends.
    fn end_session(&mut self, lane: u32)
        requires { lane < 64 }
        ensures ended { self.new ≡ without_session self.old lane }
        ensures lanes { length self.new.lanes ≡ length self.old.lanes }
    {
        self.store.end(lane);
    }

    /// A collector may open on the lane: it has no session, and no collector is open.
    fn want_collector(&self, lane: u32) -> Result<(), Refusal>
        requires { lane < 64 }
        ensures fits { IfErr result FitsRefusal }
        ensures test { result ≡ wants_collector self.now lane }
    {
        self.store.idle_in(lane)?;
        match &self.collecting {
            None => Ok(()),
            Some(open) => Err(collector_busy(open.lane)),
        }
    }

    /// The lane's collector opens, with this left of the lane's input.
    fn open_collector(&mut self, lane: u32, left: &'a [u8])
        requires { lane < length self.old.lanes }
        ensures opened { self.new ≡ opened self.old lane left.now }
        ensures lanes { length self.new.lanes ≡ length self.old.lanes }
    {
        let own = &mut self.lanes[lane as usize];
        own.set_left(left);
        self.collecting = Some(Collecting {
            lane,
            is_out_of_memory: false,
        });
    }

    /// The lane's collector closes, with this reply.
    fn close_collector(&mut self, alloc: Global, lane: u32, reply: Reply) -> Result<(), AllocError>
        requires lane { lane < length self.old.lanes }
        requires spelled { ReplyHasText reply }
        ensures closed { OnOk result (self.new ≡ closed_by self.old lane reply) }
        ensures lanes { OnOk result (length self.new.lanes ≡ length self.old.lanes) }
    {
        self.collecting = None;
        let own = &mut self.lanes[lane as usize];
        own.tell_here(alloc, reply)?;
        Ok(())
    }

    /// A GC is refused, unless its collector may open. Whether it is.
    #[tactic(auto, using(crate::proofs::Spelled::refusal_spelled))]
    fn refuse_collector(
        &mut self,
        alloc: Global,
        lane: u32,
        left: &'a [u8],
    ) -> Result<bool, AllocError>
        requires lane { lane < length self.old.lanes }
        requires lanes { length self.old.lanes ≤ 64 }
        ensures enters { EntersBy self.old self.new (refused_at self.old lane left.now) result }
        ensures lanes { OnOk result (length self.new.lanes ≡ length self.old.lanes) }
    {
        match self.want_collector(lane) {
            Ok(()) => Ok(false),
            Err(refusal) => {
                self.tell(alloc, lane, left, Reply::Refused(refusal))?;
                Ok(true)
            }
        }
    }

    /// A SYNC's first step: which of the remote's snapshots it pulls, or its refusal.
    #[tactic(auto, unfolding(store_model::specs::Weave::begin_sync), using(crate::proofs::Spelled::refusal_spelled))]
    fn begin_sync(
        &mut self,
        alloc: Global,
        lane: u32,
        group: &[u8],
        left: &'a [u8],
    ) -> Result<(), AllocError>
        requires lane { lane < length self.old.lanes }
        requires lanes { length self.old.lanes ≤ 64 }
        ensures begun { OnOk result (self.new ≡ begun_sync self.old lane group.now left.now) }
        ensures lanes { OnOk result (length self.new.lanes ≡ length self.old.lanes) }
    {
        match self.store.to_pull(alloc, lane, group, self.remote) {
            Ok(snapshots) => {
                let job = pull_all(alloc, snapshots);
                self.go_on(alloc, lane, left, job)
            }
            Err(Stop::Refused(refusal)) => self.tell(alloc, lane, left, Reply::Refused(refusal)),
            Err(Stop::NoMemory) => Err(AllocError),
        }
    }

    /// Does a command that asks for no step of a job. Whether there is anything to do: of a GC only its refusal is.
    #[tactic(auto, unfolding(store_model::specs::Weave::stepped))]
    fn begin_command(
        &mut self,
        alloc: Global,
        lane: u32,
        moment: u64,
        ahead: Ahead,
        left: &'a [u8],
    ) -> Result<bool, AllocError>
        requires lane { lane < length self.old.lanes }
        requires lanes { length self.old.lanes ≤ 64 }
        requires moment { moment ≤ last_moment }
        requires fits { IsFitAhead ahead }
        ensures enters { BeginsBy self.old self.new lane moment ahead left.now result }
        ensures lanes { OnOk result (length self.new.lanes ≡ length self.old.lanes) }
    {
        match ahead {
            Ahead::Plain(command) => {
                let told = self.store.step(alloc, lane, moment, &command);
                drop(command);
                let reply = told?;
                self.tell(alloc, lane, left, reply)?;
                Ok(true)
            }
            Ahead::Sync(group) => {
                self.begin_sync(alloc, lane, group.as_slice(), left)?;
                Ok(true)
            }
            Ahead::Collect => self.refuse_collector(alloc, lane, left),
        }
    }

    /// Kind 0: the next command, or the next step of the lane's job; of a GC its refusal. Whether there is one.
    #[tactic(auto, unfolding(store_model::specs::Weave::stepped))]
    fn stepped(&mut self, alloc: Global, lane: u32, moment: u64) -> Result<bool, AllocError>
        requires lane { lane < length self.old.lanes }
        requires lanes { length self.old.lanes ≤ 64 }
        requires moment { moment ≤ last_moment }
        requires apart { IsApart self.old lane }
        ensures enters { EntersBy self.old self.new (stepped_at self.old lane moment) result }
        ensures lanes { OnOk result (length self.new.lanes ≡ length self.old.lanes) }
    {
        match self.take_next(alloc, lane)? {
            Next::Job(asking, left) => {
                let Ok(reply) = self.store.do_step(alloc, lane, moment, &asking) else {
                    drop(asking);
                    return Err(AllocError);
                };
                let job = asking.take(alloc, reply)?;
                self.go_on(alloc, lane, left, job)?;
                Ok(true)
            }
            Next::Command(ahead, left) => self.begin_command(alloc, lane, moment, ahead, left),
            next => {
                drop(next);
                Ok(false)
            }
        }
    }

    /// Kind 1: a read of the remote for a SYNC, which changes nothing. Whether a SYNC stands next.
    fn passed(&self, alloc: Global, lane: u32) -> Result<bool, AllocError>
        requires lane { lane < length self.now.lanes }
        requires apart { IsApart self.now lane }
        ensures { EntersBy self.now self.now (passed_at self.now lane) result }
    {
        self.next_is_sync(alloc, lane)
    }

    /// What is left of the lane's input behind a GC, where that stands next on a lane with no job and no open collector.
    fn next_collect(&mut self, alloc: Global, lane: u32) -> Result<Option<&'a [u8]>, AllocError>
        requires lane { lane < length self.old.lanes }
        requires apart { IsApart self.old lane }
        requires idle { is_some (lane_at self.old lane).job ≡ false }
        ensures left { GivesLeft result (left_of_collect (next_of self.old lane)) }
        ensures same { OnOk result (self.new ≡ self.old) }
    {
        let next = self.take_next(alloc, lane)?;
        let left = next.behind_collect();
        drop(next);
        Ok(left)
    }

    /// The lane's collector opens where it may, with this left of the lane's input. Whether it does.
    fn open_allowed(&mut self, lane: u32, left: &'a [u8]) -> bool
        requires lane { lane < length self.old.lanes }
        requires lanes { length self.old.lanes ≤ 64 }
        ensures enters { Enters self.old self.new result (opened_at self.old lane left.now) }
        ensures lanes { length self.new.lanes ≡ length self.old.lanes }
    {
        match self.want_collector(lane) {
            Ok(()) => {
                self.open_collector(lane, left);
                true
            }
            Err(_) => false,
        }
    }

    /// Kind 3: the lane's collector opens. Whether it may.
    fn opens(&mut self, alloc: Global, lane: u32) -> Result<bool, AllocError>
        requires lane { lane < length self.old.lanes }
        requires lanes { length self.old.lanes ≤ 64 }
        requires apart { IsApart self.old lane }
        ensures enters { EntersBy self.old self.new (opens_at self.old lane) result }
        ensures lanes { OnOk result (length self.new.lanes ≡ length self.old.lanes) }
    {
        if self.has_job(lane) {
            return Ok(false);
        }
        let Some(left) = self.next_collect(alloc, lane)? else {
            return Ok(false);
        };
        Ok(self.open_allowed(lane, left))
    }

    /// Kind 2: memory is wanting for what stands next. Whether something does.
    #[tactic(auto, unfolding(store_model::specs::Weave::short), using(crate::proofs::Spelled::refusal_spelled))]
    fn short(&mut self, alloc: Global, lane: u32) -> Result<bool, AllocError>
        requires lane { lane < length self.old.lanes }
        requires apart { IsApart self.old lane }
        ensures enters { EntersBy self.old self.new (short_at self.old lane) result }
        ensures lanes { OnOk result (length self.new.lanes ≡ length self.old.lanes) }
    {
        match self.take_next(alloc, lane)? {
            Next::Job(asking, left) => {
                let job = asking.take(alloc, Reply::Refused(Refusal::NoMemory))?;
                self.go_on(alloc, lane, left, job)?;
                Ok(true)
            }
            Next::Command(ahead, left) => {
                drop(ahead);
                self.tell(alloc, lane, left, Reply::Refused(Refusal::NoMemory))?;
                Ok(true)
            }
            Next::Broken(refusal) => {
                drop(refusal);
                self.tell(alloc, lane, &[], Reply::Refused(Refusal::NoMemory))?;
                Ok(true)
            }
            Next::Bye | Next::End => Ok(false),
        }
    }

    /// A fault is told of a command or a step, and not of a lane's end.
    #[tactic(auto, unfolding(store_model::specs::Weave::told_fault), using(crate::proofs::Spelled::refusal_spelled))]
    fn tell_fault(&mut self, alloc: Global, lane: u32, refusal: Refusal) -> Result<(), AllocError>
        requires lane { lane < length self.old.lanes }
        requires fits { FitsRefusal refusal }
        requires apart { IsApart self.old lane }
        ensures told { OnOk result (self.new ≡ fault_at self.old lane refusal) }
        ensures lanes { OnOk result (length self.new.lanes ≡ length self.old.lanes) }
    {
        match self.take_next(alloc, lane)? {
            Next::Job(asking, left) => {
                let job = asking.take(alloc, Reply::Refused(refusal))?;
                self.go_on(alloc, lane, left, job)
            }
            Next::Command(ahead, left) => {
                drop(ahead);
                self.tell(alloc, lane, left, Reply::Refused(refusal))
            }
            next => {
                drop(next);
                Ok(())
            }
        }
    }

    /// Kind 7: a read of the remote failed, for a SYNC. Whether a SYNC stands next.
    fn remote_failed(&mut self, alloc: Global, lane: u32) -> Result<bool, AllocError>
        requires lane { lane < length self.old.lanes }
        requires apart { IsApart self.old lane }
        ensures enters { EntersBy self.old self.new (remote_failed_at self.old lane) result }
        ensures lanes { OnOk result (length self.new.lanes ≡ length self.old.lanes) }
    {
        if !self.next_is_sync(alloc, lane)? {
            return Ok(false);
        }
        self.tell_fault(alloc, lane, Refusal::RemoteFault)?;
        Ok(true)
    }

    /// Want of memory ended the lane, with no job and no collector of it open, and its end comes next.
    #[tactic(auto, using(crate::proofs::RunLemmas::collects_apart))]
    fn is_cut_off(&self, lane: u32, ending: Ending, later: &[Entry]) -> bool
        requires lane { lane < length self.now.lanes }
        requires apart { IsApart self.now lane }
        ensures { result ≡ cuts_off self.now lane ending later.now }
    {
        match ending {
            Ending::NoMemory => !self.has_job(lane) && is_end(next_entry(lane, later)),
            _ => false,
        }
    }

    /// Kind 5: a fault of the disk at this place of the order, or one that came after it.
    fn faulted(
        &mut self,
        alloc: Global,
        lane: u32,
        place: u64,
        ending: Ending,
        later: &[Entry],
    ) -> Result<(), AllocError>
        requires lane { lane < length self.old.lanes }
        requires apart { IsApart self.old lane }
        ensures told { OnOk result (self.new ≡ faulted_at self.old lane place ending later.now) }
        ensures lanes { OnOk result (length self.new.lanes ≡ length self.old.lanes) }
    {
        let first = self.fault;
        if !self.is_cut_off(lane, ending, later) {
            self.tell_fault(alloc, lane, fault_refusal(first))?;
        }
        self.fault = Some(first.unwrap_or(place));
        Ok(())
    }

    /// The lane's session ends, with this reply where the lane's ending has one.
    fn end_with(
        &mut self,
        alloc: Global,
        lane: u32,
        ending: Ending,
        reply: Reply,
    ) -> Result<(), AllocError>
        requires lane { lane < length self.old.lanes }
        requires lanes { length self.old.lanes ≤ 64 }
        requires spelled { ReplyHasText reply }
        ensures ended { OnOk result (self.new ≡ after_end self.old lane ending reply) }
        ensures lanes { OnOk result (length self.new.lanes ≡ length self.old.lanes) }
    {
        self.end_session(lane);
        if !is_replied(ending) {
            drop(reply);
            return Ok(());
        }
        self.tell(alloc, lane, &[], reply)?;
        Ok(())
    }

    /// The lane's session ends with commands unread, where the lane's ending may leave some. Whether
    /// it may.
    #[tactic(auto, unfolding(store_model::specs::Weave::unread))]
    fn end_unread(&mut self, lane: u32, ending: Ending) -> bool
        requires { lane < 64 }
        ensures enters { Enters self.old self.new result (after_unread self.old lane ending) }
        ensures lanes { length self.new.lanes ≡ length self.old.lanes }
    {
        let may = may_leave_unread(ending);
        if may {
            self.end_session(lane);
        }
        may
    }

    /// Kind 6: the lane's end. Commands may be left unread where the source or the sink failed, the
    /// input was too long, or memory was wanting. Whether it fits.
    #[tactic(auto, unfolding(store_model::specs::Weave::ends), using(crate::proofs::Spelled::refusal_spelled))]
    fn ends(&mut self, alloc: Global, lane: u32, ending: Ending) -> Result<bool, AllocError>
        requires lane { lane < length self.old.lanes }
        requires lanes { length self.old.lanes ≤ 64 }
        requires apart { IsApart self.old lane }
        ensures enters { EntersBy self.old self.new (ends_at self.old lane ending) result }
        ensures lanes { OnOk result (length self.new.lanes ≡ length self.old.lanes) }
    {
        if self.has_job(lane) {
            return Ok(self.end_unread(lane, ending));
        }
        match self.take_next(alloc, lane)? {
            Next::Bye => {
                self.end_with(alloc, lane, ending, Reply::Done)?;
                Ok(true)
            }
            Next::Broken(refusal) => {
                self.end_with(alloc, lane, ending, Reply::Refused(refusal))?;
                Ok(true)
            }
            Next::End => {
                self.end_session(lane);
                Ok(true)
            }
            Next::Job(asking, _) => {
                drop(asking);
                Ok(self.end_unread(lane, ending))
            }
            Next::Command(ahead, _) => {
                drop(ahead);
                Ok(self.end_unread(lane, ending))
            }
        }
    }

    /// Memory is wanting for the lane's open collector.
    fn be_short(&mut self, lane: u32)
        ensures short { self.new ≡ short_open self.old lane }
        ensures lanes { length self.new.lanes ≡ length self.old.lanes }
    {
        self.collecting = Some(Collecting {
            lane,
            is_out_of_memory: true,
        });
    }

    /// A fault of the disk closes the lane's collector, which is refused with it.
    #[tactic(auto, using(crate::proofs::Spelled::refusal_spelled))]
    fn fault_open(&mut self, alloc: Global, lane: u32, place: u64) -> Result<(), AllocError>
        requires lane { lane < length self.old.lanes }
        ensures told { OnOk result (self.new ≡ fault_open_at self.old lane place) }
        ensures lanes { OnOk result (length self.new.lanes ≡ length self.old.lanes) }
    {
        let first = self.fault;
        let reply = Reply::Refused(fault_refusal(first));
        self.close_collector(alloc, lane, reply)?;
        self.fault = Some(first.unwrap_or(place));
        Ok(())
    }

    /// The lane's end closes its collector, where the lane's ending may leave commands unread. Whether it may.
    fn end_open(&mut self, lane: u32, ending: Ending) -> bool
        requires { lane < 64 }
        ensures enters { Enters self.old self.new result (end_open_at self.old lane ending) }
        ensures lanes { length self.new.lanes ≡ length self.old.lanes }
    {
        if !may_leave_unread(ending) {
            return false;
        }
        self.collecting = None;
        self.end_session(lane);
        true
    }

    /// Takes one entry of a lane whose collector is open. Whether it fits.
    fn enter_open(
        &mut self,
        alloc: Global,
        place: u64,
        entry: &Entry,
        ending: Ending,
        is_out_of_memory: bool,
    ) -> Result<bool, AllocError>
        requires lane { entry.now.lane < length self.old.lanes }
        requires lanes { length self.old.lanes ≤ 64 }
        requires open { own_open self.old entry.now.lane ≡ Some is_out_of_memory }
        ensures enters { EntersOpen self.old self.new ending place entry.now result }
        ensures lanes { OnOk result (length self.new.lanes ≡ length self.old.lanes) }
    {
        let lane = entry.lane;
        match entry.kind {
            1 => Ok(true),
            2 => {
                self.be_short(lane);
                Ok(true)
            }
            4 => {
                self.close_collector(alloc, lane, collected(is_out_of_memory))?;
                Ok(true)
            }
            5 => {
                self.fault_open(alloc, lane, place)?;
                Ok(true)
            }
            6 => Ok(self.end_open(lane, ending)),
            _ => Ok(false),
        }
    }

    /// Takes one entry of the order, behind which these come. Whether it fits.
    pub fn enter(
        &mut self,
        alloc: Global,
        place: u64,
        entry: &Entry,
        ending: Ending,
        later: &[Entry],
    ) -> Result<bool, AllocError>
        requires lane { entry.now.lane < length self.old.lanes }
        requires lanes { length self.old.lanes ≤ 64 }
        requires moment { entry.now.moment ≤ last_moment }
        ensures enters { EntersEntry self.old self.new ending place entry.now later.now result }
        ensures lanes { OnOk result (length self.new.lanes ≡ length self.old.lanes) }
    {
        let lane = entry.lane;
        if let Some(is_out_of_memory) = self.own_collector(lane) {
            return self.enter_open(alloc, place, entry, ending, is_out_of_memory);
        }
        match entry.kind {
            0 => self.stepped(alloc, lane, entry.moment),
            1 => self.passed(alloc, lane),
            2 => self.short(alloc, lane),
            3 => self.opens(alloc, lane),
            5 => {
                self.faulted(alloc, lane, place, ending, later)?;
                Ok(true)
            }
            6 => self.ends(alloc, lane, ending),
            7 => self.remote_failed(alloc, lane),
            _ => Ok(false),
        }
    }
}

//! The loop of the calling thread: it serves a traffic while workers read rows on threads of their own.

use crate::collected_by_lane::CollectedByLane;
use crate::deliverer_seat::{DelivererSeat, Handed};
use crate::ended::Ended;
use crate::fault::SubmitFault;
use crate::gate::OpenGate;
use crate::hub::Hub;
use crate::lane_seat::LaneSeat;
use crate::pace::{Pace, ROWS_A_WORKER};
use crate::traffic::Traffic;
use crate::worker_seat::{Worked, WorkerSeat};
use scan_core::Runs;
use std::mem;
use std::snapshot::Snapshot;
use std::sync::Wait;

/// How many rows the calling thread submits at most before it collects deliveries, and how many deliveries it
/// collects at most before it submits rows. No proof depends on this number or the next: `bench/serve` measures their
/// effect. docs/ARCHITECTURE.md gives both.
const IN_A_TURN: u32 = 32;

/// How many deliveries it collects at most after it has slept: all that workers posted while it slept, since the
/// queue holds no more (`CAPACITY` in traffic_serving.rt).
const AFTER_A_SLEEP: u32 = 64;

/// What comes after a turn.
#[derive(Clone, Copy)]
enum Turn {
    /// The next turn.
    GoesOn,
    /// All rows that the traffic gave have come back, and no more are there.
    AllBack,
    /// Memory was refused.
    NoMemory,
}

/// The calling thread: the seats that it has, and the traffic that it serves.
#[derive(Drop)]
pub(crate) struct CallingThread<'a, T> {
    pub(crate) hub: &'a Hub,
    /// By lane.
    pub(crate) lanes: Vec<LaneSeat>,
    pub(crate) deliverer: DelivererSeat,
    /// A worker's seat without a thread, if the calling thread may read rows of this traffic itself.
    pub(crate) own: Option<WorkerSeat>,
    /// In a box: the compiler takes minutes if a large value moves from result to result.
    pub(crate) traffic: Box<T>,
    /// The traffic before the first row. It takes no bytes.
    pub(crate) start: Snapshot<T>,
    /// The row in hand, for which the queue of jobs had no room, and its lane.
    pub(crate) held: Option<(u8, Runs)>,
    pub(crate) pace: Pace<'a>,
}

impl<'a, T: Traffic> CallingThread<'a, T> {
    ghost use Rattle.std.specs.Prelude.{◌≡◌, Ok, false, true};
    ghost use Rattle.hub_core.specs.inner.CallingThread.{GoesOn, HasAllBack, EndsServing, IsAtEnd, IsServing, TakesStep};

    /// Submits the next `IN_A_TURN` rows, beginning with the one in hand. Returns false if there were fewer, or no
    /// room for one.
    fn submit_some<R: Wait>(&mut self, rt: &R) -> bool
        requires { IsServing T.Came self.old }
        ensures { GoesOn T.Came self.old self.new }
    {
        for _i in 0..IN_A_TURN {
            let next = match self.held.take() {
                None => self.traffic.next(),
                held => held,
            };
            let Some((lane, row)) = next else {
                return false;
            };
            let index = usize::from(lane);
            match self.hub.submit(rt, &mut self.lanes[index], row) {
                Ok(_) => self.pace.unannounced = self.pace.unannounced.saturating_add(1),
                Err(SubmitFault::Full(row)) => {
                    self.held = Some((lane, row));
                    return false;
                }
                // A traffic gives rows only of lanes that have a ticket left.
                Err(SubmitFault::Spent(_)) => unreachable!(),
            }
        }
        true
    }

    /// Hands the lane its next deliveries and brings each to the traffic at once.
    fn bring_all(&mut self, lane: u8) -> Result<(), T::BringFault>
        requires { IsServing T.Came self.old }
        ensures { TakesStep T.Came T.Leaves self.old result self.new }
    {
        let index = usize::from(lane);
        // A delivery that was set aside as a stranger may name a lane that does not exist.
        if index >= self.lanes.len() {
            return Ok(());
        }
        // The loop ends when `hand` has nothing; no proof depends on its bound. With a low bound a delivery would be
        // left over, and the runs in `tests/commands` would not end.
        for _i in 0..u64::MAX {
            if self.deliverer.hand(lane) == Handed::Nothing {
                break;
            }
            match self.lanes[index].poll() {
                Some(delivery) => self.traffic.bring(delivery)?,
                None => continue,
            }
        }
        Ok(())
    }

    /// Collects at most this many posted deliveries and passes each on.
    fn collect_some<R: Wait>(&mut self, rt: &R, most: u32) -> Result<CollectedByLane, T::BringFault>
        requires { IsServing T.Came self.old }
        ensures { TakesStep T.Came T.Leaves self.old result self.new }
    {
        let mut collected = CollectedByLane::Nothing;
        for _i in 0..most {
            collected = self.hub.collect_by_lane(rt, &mut self.deliverer);
            let CollectedByLane::Taken(lane) = collected else {
                break;
            };
            self.bring_all(lane)?;
        }
        Ok(collected)
    }

    /// Works with its own seat, if it has one: it posts the delivery that the seat holds. If the seat holds none and
    /// the thread is idle, it reads a row and posts its delivery. Returns whether it posted one.
    fn read_row<R: Wait>(&mut self, rt: &R, is_idle: bool) -> bool
        requires { IsServing T.Came self.old }
        ensures { GoesOn T.Came self.old self.new }
    {
        let Some(seat) = &mut self.own else {
            return false;
        };
        if !is_idle && seat.held.is_none() {
            return false;
        }
        let has_posted = self.hub.work(rt, seat, &OpenGate) == Worked::Posted;
        if has_posted {
            // The workers need not know of the row that was read here.
            self.pace.unannounced = self.pace.unannounced.saturating_sub(1);
        }
        has_posted
    }

    /// Whether all rows that were given have come back.
    fn has_all_back(&self) -> bool
        ensures { result ≡ true → HasAllBack self.now }
    {
        self.held.is_none() && self.lanes.iter().all(|seat| seat.polled == seat.issued)
    }

    /// Whether there is work for one more worker.
    fn has_many_under_way(&self) -> bool {
        let under_way = self.lanes.iter().fold(0u32, |sum, seat| {
            sum.saturating_add(seat.issued - seat.polled)
        });
        under_way > ROWS_A_WORKER
    }

    /// Collects and submits. If it can do neither now, it reads a row and posts the delivery. If it posted none, it
    /// waits for a delivery, unless all have come back.
    fn take_turn<R: Wait>(&mut self, rt: &R) -> Result<Turn, T::BringFault>
        requires { IsServing T.Came self.old }
        ensures step { TakesStep T.Came T.Leaves self.old result self.new }
        ensures back { result ≡ Ok Turn.AllBack → HasAllBack self.new }
    {
        // Read before it collects, so that it does not sleep past a delivery that comes meanwhile.
        let seen = self.pace.signals.deliveries.given();
        let has_slept = mem::replace(&mut self.pace.has_slept, false);
        let collected = self.collect_some(rt, if has_slept { AFTER_A_SLEEP } else { IN_A_TURN })?;
        if collected == CollectedByLane::NoMemory {
            return Ok(Turn::NoMemory);
        }
        self.pace.signals.places.notify_all();
        let are_more = self.submit_some(rt);
        let is_idle = collected == CollectedByLane::Nothing && !are_more;
        let has_posted = self.read_row(rt, is_idle);
        self.pace.wake_for_rows(are_more);
        if !is_idle || has_posted {
            return Ok(Turn::GoesOn);
        }
        if self.has_all_back() {
            return Ok(Turn::AllBack);
        }
        let are_many = self.has_many_under_way();
        self.pace.wait(rt, seen, are_many);
        Ok(Turn::GoesOn)
    }

    /// Waits for more rows. Returns false at the end.
    fn wait_for_more(&mut self) -> Result<bool, T::WaitFault>
        requires serves { IsServing T.Came self.old }
        requires back { HasAllBack self.old }
        ensures serves { GoesOn T.Came self.old self.new }
        ensures ended { result ≡ Ok false → IsAtEnd T.has_ended self.new }
    {
        self.traffic.wait()
    }

    /// Serves the traffic until it ends.
    pub(crate) fn run<R: Wait>(
        self,
        rt: &R,
    ) -> (CallingThread<'a, T>, Ended<T::WaitFault, T::BringFault>)
        requires { IsServing T.Came self }
        ensures { EndsServing T.Came T.Leaves T.has_ended self.entry result.0 result.1 }
    {
        let mut thread = self;
        for _ in rt.forever() {
            match thread.take_turn(rt) {
                Ok(Turn::GoesOn) => {}
                Ok(Turn::NoMemory) => return (thread, Ended::NoMemory),
                Ok(Turn::AllBack) => match thread.wait_for_more() {
                    Ok(true) => {}
                    Ok(false) => return (thread, Ended::Done),
                    Err(fault) => return (thread, Ended::WaitFailed(fault)),
                },
                Err(fault) => return (thread, Ended::BringFailed(fault)),
            }
        }
        unreachable!()
    }
}

// The power, the arm and the counts of a disk in memory.
ghost use Rattle.std.specs.Prelude.{◌≡◌, ◌≢◌, ◌⊎◌, ◌≤◌, true, IsTrue, if◌then◌else◌};
ghost use Rattle.e3_disk.specs.Meters.{LAST, Reads, Writes, armed, cut, lit, new_meters};
ghost use Rattle.e3_disk.specs.Leaves.{code_of};

use e3_types::Leave;

/// The numbers of a disk, and what its next stop leaves.
#[derive(Drop)]
pub struct Panel {
    pub capacity: u64,
    pub powered: bool,
    pub calls_left: u64,
    pub leave: Leave,
    pub faults: u64,
    pub arms: u64,
    pub calls: u64,
    pub codes: u64,
    pub cuts: u64,
    pub stops: u64,
    ghost few_faults: { (faults ≤ LAST) × (stops ≤ LAST) },
    ghost few_drills: { (arms ≤ LAST) × (calls ≤ LAST) × (codes ≤ LAST) × (cuts ≤ LAST) },
}

/// How a call goes on.
#[derive(Drop)]
pub enum Turn {
    /// It does its work.
    Go,
    /// The arm runs out in it.
    Stop,
    /// It fails, and changes nothing.
    Fail,
}

impl Panel {
    ghost use Rattle.e3_disk.specs.Panel.{meters_of, as_result, turn_of, after_turn, goes_on, after_read};

    /// The panel of a new disk: powered and not armed.
    pub fn new(capacity: u64) -> Panel
        ensures meters { meters_of result ≡ new_meters capacity }
        ensures leave { result.leave ≡ Leave.None }
    {
        Panel {
            capacity,
            powered: true,
            calls_left: 0,
            leave: Leave::None,
            faults: 0,
            arms: 0,
            calls: 0,
            codes: 0,
            cuts: 0,
            stops: 0,
        }
    }

    /// Counts a write or a sync, which may be one that is to fail.
    pub fn write_turn(&mut self, listed: bool) -> Turn
        ensures turn { result ≡ turn_of listed (meters_of self.old) }
        ensures after { meters_of self.new ≡ after_turn listed (meters_of self.old) }
        ensures leave { self.new.leave ≡ self.old.leave }
        ensures meters { Writes (meters_of self.old) (meters_of self.new) (as_result result) }
        ensures own { self.new.faults ≢ self.old.faults → (self.old.powered ≡ true) × ((self.old.calls_left ≡ 1) ⊎ IsTrue listed) }
    {
        if !self.powered {
            return Turn::Fail;
        }
        if self.calls_left == 1 {
            self.calls_left = 0;
            self.powered = false;
            self.stops = self.stops.saturating_add(1);
            self.faults = self.faults.saturating_add(1);
            return Turn::Stop;
        }
        if listed {
            self.faults = self.faults.saturating_add(1);
            return Turn::Fail;
        }
        self.calls_left = self.calls_left.saturating_sub(1);
        Turn::Go
    }

    /// Counts a call that only reads, which may be one that is to fail, and says whether it goes on.
    pub fn read_turn(&mut self, listed: bool) -> bool
        ensures turn { result ≡ goes_on listed (meters_of self.old) }
        ensures after { meters_of self.new ≡ after_read listed (meters_of self.old) }
        ensures leave { self.new.leave ≡ self.old.leave }
        ensures meters { Reads (meters_of self.old) (meters_of self.new) (as_result (if result then Turn.Go else Turn.Fail)) }
    {
        if !self.powered {
            return false;
        }
        if listed {
            self.faults = self.faults.saturating_add(1);
            return false;
        }
        true
    }

    /// Arms: the `calls`-th write or sync from now on is the stop.
    pub fn arm(&mut self, calls: u32, leave: Leave)
        requires { 1 ≤ calls }
        ensures meters { meters_of self.new ≡ armed (meters_of self.old) calls (code_of leave) }
        ensures leave { self.new.leave ≡ leave }
    {
        self.calls_left = u64::from(calls);
        self.leave = leave;
        self.arms = self.arms.saturating_add(1);
        self.calls = self.calls.saturating_add(u64::from(calls));
        self.codes = self.codes.saturating_add(code(leave));
    }

    /// Takes the power and clears the arm.
    pub fn power_cut(&mut self)
        ensures meters { meters_of self.new ≡ cut (meters_of self.old) }
        ensures leave { self.new.leave ≡ self.old.leave }
    {
        self.powered = false;
        self.calls_left = 0;
        self.cuts = self.cuts.saturating_add(1);
    }

    /// Gives the power.
    pub fn power_on(&mut self)
        ensures meters { meters_of self.new ≡ lit (meters_of self.old) }
        ensures leave { self.new.leave ≡ self.old.leave }
    {
        self.powered = true;
    }
}

fn code(leave: Leave) -> u64
    ensures { result ≡ code_of leave }
{
    match leave {
        Leave::None => 0,
        Leave::Half => 1,
        Leave::All => 2,
        Leave::Junk(byte) => 3 + u64::from(byte),
    }
}

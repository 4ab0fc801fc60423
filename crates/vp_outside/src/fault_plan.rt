//! Plans that say which calls of an object in memory fail.

ghost use Rattle.std.specs.Prelude.{if◌then◌else◌, ◌≡◌, ◌↔◌, IsTrue};
ghost use Rattle.vp_outside.specs.Causes.{count_after};

/// The calls that are to fail: those with these numbers, counted from 1, and each one after a stop.
#[derive(Drop)]
pub struct FaultPlan {
    pub failing: Vec<u64>,
    pub calls: u64,
    pub faults: u64,
    /// How many calls are left before the stop, if there is to be one.
    pub until_stop: Option<u64>,
}

impl FaultPlan {
    ghost use Rattle.vp_outside.specs.Plans.{CountsCall, FailsNext, fail_call, pass_call, new_plan};

    /// Makes a plan in which the calls with these numbers fail. The first call has number 1.
    pub fn new(failing: Vec<u64>) -> FaultPlan
        ensures { result ≡ new_plan failing }
    {
        FaultPlan {
            failing,
            calls: 0,
            faults: 0,
            until_stop: None,
        }
    }

    /// Whether the next call is to fail. Counts nothing.
    pub fn fails_next(&self) -> bool
        ensures { IsTrue result ↔ FailsNext self.now }
    {
        self.until_stop == Some(0) || self.failing.contains(&self.calls.saturating_add(1))
    }

    /// Counts a call that succeeds.
    pub fn pass(&mut self)
        ensures { self.new ≡ pass_call self.old }
    {
        self.calls = self.calls.saturating_add(1);
        self.until_stop = self.until_stop.map(|calls| calls.saturating_sub(1));
    }

    /// Counts a call that fails, and a fault.
    pub fn fail(&mut self)
        ensures { self.new ≡ fail_call self.old }
    {
        self.pass();
        self.faults = self.faults.saturating_add(1);
    }

    /// Counts a call, and returns whether it is to fail, which is counted as a fault.
    pub fn fails_now(&mut self) -> bool
        ensures counted { CountsCall self.old self.new (IsTrue result) }
        ensures faults { self.new.faults ≡
            (if result then count_after self.old.faults 1 else self.old.faults) }
    {
        let fails = self.fails_next();
        if fails {
            self.fail();
        } else {
            self.pass();
        }
        fails
    }
}

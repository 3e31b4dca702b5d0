//! The calls at which a source or a sink in memory fails.

ghost use Rattle.std.specs.Prelude.{◌≡◌, true};
ghost use Rattle.hr_base.specs.Counts.{CountsFault};
ghost use Rattle.hr_edges.specs.Schedules.{after_call, is_due, one_more};

/// Which calls are to fail, counted from 1, and how many calls and faults there were.
#[derive(Drop)]
pub struct Schedule {
    fails: Vec<u64>,
    calls: u64,
    pub count: u64,
}

impl Schedule {
    /// No call, and no fault.
    pub fn new(fails: Vec<u64>) -> Schedule
        ensures { result ≡ record { fails = fails; calls = 0; count = 0 } }
    {
        Schedule {
            fails,
            calls: 0,
            count: 0,
        }
    }

    /// Counts a call, and says whether it fails. A failure is counted too.
    pub fn fails_now(&mut self) -> bool
        ensures due { result ≡ is_due self.old }
        ensures after { self.new ≡ after_call result self.old }
        ensures counted { CountsFault result self.old.count self.new.count }
    {
        self.calls = self.calls.saturating_add(1);
        let failed = self.fails.contains(&self.calls);
        if failed {
            self.raise();
        }
        failed
    }

    /// Counts a fault.
    pub fn raise(&mut self)
        ensures raised { self.new ≡ record self.old { count = one_more self.old.count } }
        ensures counted { CountsFault true self.old.count self.new.count }
    {
        self.count = self.count.saturating_add(1);
    }
}

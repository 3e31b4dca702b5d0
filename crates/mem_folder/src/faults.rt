//! When the calls of a port fail.

ghost use Rattle.std.specs.Prelude.{◌≡◌, ◌≤◌, ◌+◌, ◌-◌, ◌^◌, [], true, min, drop, slice_get};
ghost use Rattle.dir_files.specs.Faults.{CountsFault};
ghost use Rattle.mem_folder.specs.Plans.{FollowsPlan, ForksPlan, IsPlanned, KeepsPlan, fails, is_sound, next_call};

use std::alloc::Global;

/// Which calls of one port fail: the listed ones, counted from 1, and every call whose number is at least `from`.
#[derive(Debug, Drop)]
pub struct FaultPlan {
    pub calls: Vec<u64>,
    pub from: u64,
}

/// The plan of a port, those that its forks will follow, and how many calls were made and failed.
#[derive(Debug, Drop)]
pub struct Faults {
    pub plan: Option<FaultPlan>,
    pub forks: Vec<FaultPlan>,
    pub calls: u64,
    pub count: u64,
}

/// The first plan, if there is one.
fn first_plan(plans: &mut Vec<FaultPlan>) -> Option<FaultPlan>
    ensures first { result ≡ slice_get plans.old.items 0 }
    ensures rest { plans.new.items ≡ drop 1 plans.old.items }
{
    if plans.is_empty() {
        None
    } else {
        Some(plans.remove(0))
    }
}

impl Faults {
    /// Of a port that follows the first plan, and whose forks follow the others.
    pub fn new(mut plans: Vec<FaultPlan>) -> Faults
        ensures planned { IsPlanned result plans.items }
        ensures count { result.count ≡ 0 }
        ensures sound { plans.items ≡ [] → is_sound result ≡ true }
    {
        let plan = first_plan(&mut plans);
        Faults {
            plan,
            forks: plans,
            calls: 0,
            count: 0,
        }
    }

    /// Of a fork, which takes the next plan.
    pub fn fork(&mut self, alloc: Global) -> Faults
        ensures planned { ForksPlan self.old self.new result }
        ensures count { self.new.count ≡ self.old.count }
        ensures fork_count { result.count ≡ 0 }
        ensures sound { is_sound self.old ≡ true → is_sound self.new ≡ true }
        ensures fork_sound { is_sound self.old ≡ true → is_sound result ≡ true }
    {
        let plan = first_plan(&mut self.forks);
        Faults {
            plan,
            forks: Vec::new(alloc),
            calls: 0,
            count: 0,
        }
    }

    /// Adds the faults of another port.
    pub fn adopt(&mut self, other: Faults)
        ensures planned { KeepsPlan self.old self.new }
        ensures added { self.new.count ≡ min (self.old.count + other.count) (2 ^ 64 - 1) }
        ensures kept { self.old.count ≤ self.new.count }
        ensures sound { is_sound self.old ≡ true → is_sound other ≡ true → is_sound self.new ≡ true }
    {
        self.count = self.count.saturating_add(other.count);
    }

    /// Whether the disk will refuse the next call.
    pub fn is_due(&self) -> bool
        ensures { result ≡ fails self.now.plan (next_call self.now.calls) }
    {
        let call = self.calls.saturating_add(1);
        match &self.plan {
            None => false,
            Some(plan) => call >= plan.from || plan.calls.contains(&call),
        }
    }

    /// Counts a call, and answers whether the disk refuses it.
    pub fn strikes(&mut self) -> bool
        ensures planned { FollowsPlan self.old self.new result }
        ensures counts { CountsFault result self.old.count self.new.count }
        ensures sound { is_sound self.old ≡ true → is_sound self.new ≡ true }
    {
        let struck = self.is_due();
        self.calls = self.calls.saturating_add(1);
        if struck {
            self.count = self.count.saturating_add(1);
        }
        struck
    }
}

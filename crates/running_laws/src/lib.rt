//! A running call, whatever its command, that waits beside others: what its steps leave, and what a crash in each leaves.
#![tactic(auto)]

ghost use Rattle.running_laws.specs.Crashes.{FirstCrashLaw, LaterCrashLaw};
ghost use Rattle.running_laws.specs.Numbers.{PlanCostsLaw, StepCostsLaw, HeldIsLeftLaw};
ghost use Rattle.running_laws.specs.Steps.{BeginsLaw, FirstStepLaw, LaterStepLaw, SuperblockLaw};
ghost use Rattle.running_laws.specs.Waits.{StandsBesideLaw, HoldsLaw, StandsLaw, StillWaitsLaw, NamesHeldLaw, BegunHoldsLaw, NextHoldsLaw};

/// A call that waits stands beside what it has left and the others, holds what it has left, and may go on.
pub fn waiting_law()
    ensures beside { StandsBesideLaw }
    ensures holds { HoldsLaw }
    ensures stands { StandsLaw }
{}

/// It waits still when another call has made a step that passes by.
pub fn still_law()
    ensures { StillWaitsLaw }
{}

/// What it holds its command names, and it holds the same inodes to its end.
pub fn holding_law()
    ensures named { NamesHeldLaw }
    ensures begun { BegunHoldsLaw }
    ensures next { NextHoldsLaw }
{}

/// It begins where it is ready, and behind its first step waits or has ended.
pub fn beginning_law()
    ensures begins { BeginsLaw }
    ensures first { FirstStepLaw }
{}

/// Behind each later step it waits on or has ended.
pub fn stepping_law()
    ensures { LaterStepLaw }
{}

/// No step stores to a word of the superblock.
pub fn superblock_law()
    ensures { SuperblockLaw }
{}

/// What a crash in a step leaves.
pub fn crash_law()
    ensures first { FirstCrashLaw }
    ensures later { LaterCrashLaw }
{}

/// What it costs, and how much it holds.
pub fn number_law()
    ensures plan { PlanCostsLaw }
    ensures step { StepCostsLaw }
    ensures held { HeldIsLeftLaw }
{}

// Laws of calls, each the contract of a function with an empty body.
ghost use Rattle.cache_calls.specs.Adds.{AddedFaultsAreRefusals};
ghost use Rattle.cache_calls.specs.Others.{OthersStay, ReadersStay, ReadsLeaveOthers, WritersStay};
ghost use Rattle.cache_calls.specs.Keeping.{GoesBehindCalls, KeepOn, CallsHaveSteps};

use crate::calls::Calls;

/// What every call keeps is kept where nothing is done, and behind two calls.
pub fn calls_keep<S: Calls>()
    ensures goes { GoesBehindCalls S.at S.holds }
    ensures keeps { KeepOn S.at S.holds }
{}

/// Any calls from a moment on are those of a step.
pub fn calls_have_steps()
    ensures { CallsHaveSteps }
{}

/// A fault that a call added is a call of its device that was refused, with that count.
pub fn added_faults_were_refused()
    ensures { AddedFaultsAreRefusals }
{}

/// Records of one put leave the other puts, and all readers, as they are.
pub fn others_stay()
    ensures { OthersStay }
{}

/// And so they leave the writers of other puts.
pub fn writers_stay()
    ensures { WritersStay }
{}

/// Records of one reader leave the other readers, and all puts, as they are.
pub fn reads_leave_others()
    ensures { ReadsLeaveOthers }
{}

/// And a reader whose row is left as it is stays the one of its records.
pub fn readers_stay()
    ensures { ReadersStay }
{}

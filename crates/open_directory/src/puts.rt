// The kept puts, by their numbers.

ghost use Rattle.std.specs.Prelude.{◌≡◌, ◌<◌, ◌^◌, IsSome, OnOk, OnErr, IfOk};
ghost use Rattle.fragment_table.specs.Table.{CanGrow, made_row};
ghost use Rattle.open_directory.specs.Directory.{AddsFollower, Forgets, KeepsFollowers, KeepsStanding, changed, count_of_rows, followers_kept, is_done_put, is_kept_open, kept_cuts, kept_put, kept_with_cut, one_fewer, room_for_fragments, with_follower, with_phase, with_room, without_done};
ghost use Rattle.open_directory.specs.Refusal.{IsWantOfMemory, RefusesCall, writing_refusal};

use crate::kept::{KeptPut, Phase};
use crate::refusal::OpenRefusal;
use std::collections::BTreeMap;
use tape_base::Digest;

pub(crate) type Puts = BTreeMap<u64, KeptPut>;

pub(crate) fn is_open(puts: &Puts, put: u64) -> bool
    ensures { result ≡ is_kept_open put puts.now.entries }
{
    match puts.get(&put) {
        Some(kept) => kept.phase == Phase::Writing,
        None => false,
    }
}

#[tactic(auto, using(crate::proofs::Entries::written, crate::proofs::Entries::absent, crate::proofs::Entries::kept_as_is))]
pub(crate) fn push_row(
    puts: &mut Puts,
    put: u64,
    length: u32,
    digest: Digest,
) -> Result<u32, OpenRefusal>
    requires some { 0 < length }
    requires few { CanGrow (kept_cuts put puts.old.entries) }
    ensures exact { RefusesCall result (writing_refusal put puts.old.entries) }
    ensures ok { OnOk result (puts.new.entries ≡ kept_with_cut put (made_row length digest.0) (room_for_fragments put puts.new.entries) puts.old.entries) }
    ensures count { IfOk result (λ n. n ≡ count_of_rows (kept_cuts put puts.new.entries)) }
    ensures err { OnErr result (puts.new.entries ≡ with_room put (room_for_fragments put puts.new.entries) puts.old.entries) }
    ensures reserved { IsWantOfMemory result → room_for_fragments put puts.old.entries ≡ 0 }
    ensures followers { KeepsFollowers puts.old.entries puts.new.entries }
    ensures standing { KeepsStanding puts.old.entries puts.new.entries }
{
    match puts.get_mut(&put) {
        Some(kept) if kept.phase == Phase::Writing => {
            kept.cuts.push(length, digest.0)?;
            Ok(kept.cuts.len())
        }
        _ => Err(OpenRefusal::NoSuchWriter),
    }
}

#[tactic(auto, using(crate::proofs::Entries::written, crate::proofs::Entries::absent, crate::proofs::Entries::kept_as_is))]
pub(crate) fn reserve_row(puts: &mut Puts, put: u64) -> Result<(), OpenRefusal>
    ensures exact { RefusesCall result (writing_refusal put puts.old.entries) }
    ensures room { OnOk result (0 < room_for_fragments put puts.new.entries) }
    ensures rest { puts.new.entries ≡ with_room put (room_for_fragments put puts.new.entries) puts.old.entries }
    ensures reserved { IsWantOfMemory result → room_for_fragments put puts.old.entries ≡ 0 }
    ensures followers { KeepsFollowers puts.old.entries puts.new.entries }
    ensures standing { KeepsStanding puts.old.entries puts.new.entries }
{
    match puts.get_mut(&put) {
        Some(kept) if kept.phase == Phase::Writing => {
            kept.cuts.reserve(1)?;
            Ok(())
        }
        _ => Err(OpenRefusal::NoSuchWriter),
    }
}

// Ends a put, which is forgotten where no reader follows it.
pub(crate) fn end(puts: &mut Puts, put: u64, phase: Phase)
    ensures ended { puts.new.entries ≡ without_done put (changed (with_phase phase) put puts.old.entries) }
    ensures forgets { Forgets put (changed (with_phase phase) put puts.old.entries) puts.new.entries }
    ensures followers { KeepsFollowers puts.old.entries puts.new.entries }
{
    set_phase(puts, put, phase);
    forget_done(puts, put);
}

#[tactic(auto, using(crate::proofs::Entries::written, crate::proofs::Entries::absent))]
fn set_phase(puts: &mut Puts, put: u64, phase: Phase)
    ensures phase { puts.new.entries ≡ changed (with_phase phase) put puts.old.entries }
    ensures followers { KeepsFollowers puts.old.entries puts.new.entries }
{
    if let Some(kept) = puts.get_mut(&put) {
        kept.phase = phase;
    }
}

pub(crate) fn forget_done(puts: &mut Puts, put: u64)
    ensures forgotten { puts.new.entries ≡ without_done put puts.old.entries }
    ensures forgets { Forgets put puts.old.entries puts.new.entries }
    ensures followers { KeepsFollowers puts.old.entries puts.new.entries }
{
    if is_done(puts, put) {
        puts.remove(&put);
    }
}

fn is_done(puts: &Puts, put: u64) -> bool
    ensures { result ≡ is_done_put (kept_put put puts.now.entries) }
{
    match puts.get(&put) {
        Some(kept) => kept.phase != Phase::Writing && kept.followers == 0,
        None => false,
    }
}

// Counts one follower more.
#[tactic(auto, using(crate::proofs::Entries::absent))]
pub(crate) fn add_follower(puts: &mut Puts, put: u64)
    requires kept { IsSome (kept_put put puts.old.entries) }
    requires few { followers_kept (kept_put put puts.old.entries) < 2 ^ 63 }
    ensures more { puts.new.entries ≡ with_follower put puts.old.entries }
    ensures followers { AddsFollower put puts.old.entries puts.new.entries }
{
    if let Some(kept) = puts.get_mut(&put) {
        kept.followers += 1;
    }
}

// Counts one follower less of a put, which is forgotten where it ended and that was the last.
pub(crate) fn remove_follower(puts: &mut Puts, put: u64)
    requires { 0 < followers_kept (kept_put put puts.old.entries) }
    ensures fewer { puts.new.entries ≡ without_done put (one_fewer put puts.old.entries) }
    ensures forgets { Forgets put (one_fewer put puts.old.entries) puts.new.entries }
    ensures followers { AddsFollower put puts.new.entries puts.old.entries }
{
    count_one_less(puts, put);
    forget_done(puts, put);
}

#[tactic(auto, using(crate::proofs::Entries::absent))]
fn count_one_less(puts: &mut Puts, put: u64)
    requires { 0 < followers_kept (kept_put put puts.old.entries) }
    ensures fewer { puts.new.entries ≡ one_fewer put puts.old.entries }
    ensures followers { AddsFollower put puts.new.entries puts.old.entries }
{
    if let Some(kept) = puts.get_mut(&put) {
        kept.followers -= 1;
    }
}

// The body of a copy: a header, the directory and a footer.
ghost use Rattle.std.specs.Prelude.{◌≡◌, ◌≤◌, ◌+◌, ◌-◌, ◌++◌, ℕ, List, None, length, take, drop, IsTrue, IfOk};
ghost use Rattle.std.specs.List.{slice_index};
ghost use Rattle.stripe_header.specs.declared.states.CopyState.{CopyState};
ghost use Rattle.std.specs.Str.{bytes_eq};
ghost use Rattle.sha2.specs.Sha256.{sha256};
ghost use Rattle.stripe_header.specs.Spelling.{numbers_of, has_cursor, has_counts, has_floor, may_say, clean_mark, then_state, head_bytes, foot_bytes, copy_bytes, IsCopy};
ghost use Rattle.stripe_header.specs.Reading.{block_bytes, version_in, covered_of, footer_of, foot_serial, copy_told, has_magics, form_fault, digest_fault, geometry_fault, copy_fault, CopyAnswers};

use crate::fields::{array, field, number_32, number_64, put, put_extents, put_sizes, put_zeros};
use crate::states::{CopyFault, CopyState};
use tape_base::{Digest, Geometry, lap_end, slot};

const HEAD: [u8; 8] = *b"TSCHEAD1";

const FOOT: [u8; 8] = *b"TSCFOOT1";

const VERSION: u32 = 2;

const BLOCK: usize = 512;

// What serials, puts and cursors stay below.
const LIMIT: u64 = 1 << 62;

fn mark_of(clean: bool) -> u64
    ensures { result ≡ clean_mark clean }
{
    if clean { 1 } else { 0 }
}

// Bytes 56 to 95.
fn put_state(into: &mut [u8], at: usize, state: &CopyState) -> usize
    requires { at + 40 ≤ length into.old }
    ensures end { result ≡ at + 40 }
    ensures front { take result into.new ≡ then_state (take at into.old) state.now }
    ensures len { length into.new ≡ length into.old }
{
    let at = put(into, at, &state.serial.to_le_bytes());
    let at = put(into, at, &state.cursor.to_le_bytes());
    let at = put(into, at, &state.next_put.to_le_bytes());
    let at = put(into, at, &mark_of(state.clean).to_le_bytes());
    put(into, at, &state.floor.to_le_bytes())
}

#[tactic(auto, unfolding(crate::specs::Spelling::head_bytes))]
fn put_head(into: &mut [u8], version: u32, g: &Geometry, state: &CopyState)
    requires { length into.old ≡ 512 }
    ensures bytes { into.new ≡ head_bytes version (numbers_of g.now) state.now }
    ensures len { length into.new ≡ 512 }
{
    let at = put(into, 0, &HEAD);
    let at = put(into, at, &version.to_le_bytes());
    let at = put_sizes(into, at, g);
    let at = put_extents(into, at, g, 0);
    let at = put_state(into, at, state);
    put_zeros(into, at);
}

#[tactic(auto, unfolding(crate::specs::Spelling::foot_bytes))]
fn put_foot(into: &mut [u8], serial: u64, digest: &[u8; 32])
    requires { length into.old ≡ 512 }
    ensures bytes { into.new ≡ foot_bytes serial digest.now }
    ensures len { length into.new ≡ 512 }
{
    let at = put(into, 0, &FOOT);
    let at = put(into, at, &serial.to_le_bytes());
    let at = put(into, at, digest);
    put_zeros(into, at);
}

// The header over the first block.
fn put_front(body: &mut [u8], g: &Geometry, state: &CopyState)
    requires { 512 ≤ length body.old }
    ensures bytes { body.new ≡ head_bytes 2 (numbers_of g.now) state.now ++ drop 512 body.old }
    ensures len { length body.new ≡ length body.old }
{
    put_head(&mut body[..BLOCK], VERSION, g, state);
}

// The footer over the last block.
fn put_end(body: &mut [u8], serial: u64)
    requires { 512 ≤ length body.old }
    ensures bytes { body.new
        ≡ covered_of body.old ++ foot_bytes serial (sha256 (covered_of body.old)) }
    ensures len { length body.new ≡ length body.old }
{
    let end = body.len() - BLOCK;
    let digest = Digest::of(&body[..end]);
    put_foot(&mut body[end..], serial, &digest.0);
}

/// Writes header and footer around the directory, which stands between the first and the last block
/// of the body.
pub fn write_body(g: &Geometry, state: &CopyState, body: &mut [u8])
    requires room { 1024 ≤ length body.old }
    ensures bytes { body.new ≡ copy_bytes 2 (numbers_of g.now) state.now
        (block_bytes 512 (length body.old - 1024) body.old) }
    ensures len { length body.new ≡ length body.old }
{
    put_front(body, g, state);
    put_end(body, state.serial);
}

fn covered(body: &[u8]) -> &[u8]
    requires { 512 ≤ length body.now }
    ensures { result.now ≡ covered_of body.now }
{
    &body[..body.len() - BLOCK]
}

fn footer(body: &[u8]) -> &[u8]
    requires { 512 ≤ length body.now }
    ensures footer { result.now ≡ footer_of body.now }
    ensures len { length result.now ≡ 512 }
{
    &body[body.len() - BLOCK..]
}

fn has_magics(body: &[u8]) -> bool
    requires { 1024 ≤ length body.now }
    ensures { result ≡ has_magics body.now }
{
    field(body, 0, 8) == HEAD.as_slice() && field(footer(body), 0, 8) == FOOT.as_slice()
}

#[tactic(auto, unfolding(crate::specs::Reading::form_fault))]
fn form_fault(body: &[u8]) -> Option<CopyFault>
    requires { 1024 ≤ length body.now }
    ensures { result ≡ form_fault body.now }
{
    if !has_magics(body) {
        return Some(CopyFault::Magic);
    }
    let version = number_32(body, 8);
    if version != 1 && version != 2 {
        return Some(CopyFault::Version);
    }
    let head = number_64(body, 56);
    let foot = number_64(footer(body), 8);
    if head != foot {
        return Some(CopyFault::Serials { head, foot });
    }
    None
}

#[tactic(auto, unfolding(crate::specs::Reading::digest_fault))]
fn digest_fault(body: &[u8]) -> Option<CopyFault>
    requires { 1024 ≤ length body.now }
    ensures { result ≡ digest_fault body.now }
{
    let kept = Digest(array(footer(body), 16));
    let found = Digest::of(covered(body));
    if kept.0 == found.0 {
        None
    } else {
        Some(CopyFault::Digest { kept, found })
    }
}

fn copy_told(body: &[u8]) -> CopyState
    requires { 1024 ≤ length body.now }
    ensures { result ≡ copy_told body.now }
{
    let marked = number_32(body, 8) == 2;
    CopyState {
        serial: number_64(body, 56),
        cursor: number_64(body, 64),
        next_put: number_64(body, 72),
        clean: marked && number_64(body, 80) == 1,
        floor: if marked { number_64(body, 88) } else { 0 },
    }
}

fn has_head(body: &[u8], g: &Geometry, told: &CopyState) -> bool
    requires { 1024 ≤ length body.now }
    ensures { result ≡ bytes_eq (block_bytes 0 512 body.now)
        (head_bytes (version_in body.now) (numbers_of g.now) told.now) }
{
    let mut spelled = [0; BLOCK];
    put_head(&mut spelled, number_32(body, 8), g, told);
    field(body, 0, BLOCK) == spelled.as_slice()
}

fn has_foot(body: &[u8]) -> bool
    requires { 1024 ≤ length body.now }
    ensures { result ≡ bytes_eq (footer_of body.now)
        (foot_bytes (foot_serial body.now) (block_bytes 16 32 (footer_of body.now))) }
{
    let footer = footer(body);
    let mut spelled = [0; BLOCK];
    put_foot(&mut spelled, number_64(footer, 8), &array(footer, 16));
    footer == spelled.as_slice()
}

fn has_cursor(g: &Geometry, state: &CopyState) -> bool
    ensures { result ≡ has_cursor g.now state.now }
{
    (g.content..LIMIT).contains(&state.cursor) && slot(g, state.cursor) + g.agg as u64 <= g.content
}

fn has_counts(state: &CopyState) -> bool
    ensures { result ≡ has_counts state.now }
{
    (1..LIMIT).contains(&state.serial) && (1..LIMIT).contains(&state.next_put)
}

fn has_floor(g: &Geometry, state: &CopyState) -> bool
    requires cursor { IsTrue (has_cursor g.now state.now) }
    ensures has { result ≡ has_floor g.now state.now }
{
    if !state.clean {
        return state.floor == 0;
    }
    let least = state.cursor + g.agg as u64 - g.content;
    let reach = (state.cursor + g.reach).min(lap_end(g, state.cursor));
    least <= state.floor && state.floor <= reach - g.content
}

fn may_say(g: &Geometry, state: &CopyState) -> bool
    ensures { result ≡ may_say g.now state.now }
{
    has_cursor(g, state) && has_counts(state) && has_floor(g, state)
}

#[tactic(auto, unfolding(crate::specs::Reading::geometry_fault))]
fn geometry_fault(g: &Geometry, body: &[u8], told: &CopyState) -> Option<CopyFault>
    requires room { 1024 ≤ length body.now }
    requires told { told.now ≡ copy_told body.now }
    ensures { result ≡ geometry_fault g.now body.now }
{
    if has_head(body, g, told) && has_foot(body) && may_say(g, told) {
        None
    } else {
        Some(CopyFault::Geometry)
    }
}

#[tactic(auto, unfolding(crate::specs::Reading::copy_fault))]
fn read(g: &Geometry, gate: &[u8; 512], body: &[u8]) -> Result<CopyState, CopyFault>
    requires { 1024 ≤ length body.now }
    ensures exact { CopyAnswers result (copy_fault g.now gate.now body.now) (copy_told body.now) }
{
    if gate[0] != 1 {
        return Err(CopyFault::GateShut);
    }
    if let Some(fault) = form_fault(body) {
        return Err(fault);
    }
    if let Some(fault) = digest_fault(body) {
        return Err(fault);
    }
    let told = copy_told(body);
    if let Some(fault) = geometry_fault(g, body, &told) {
        return Err(fault);
    }
    Ok(told)
}

/// Reads a copy of a stripe of this geometry from its gate and its body. Of the gate only the first
/// byte is looked at.
pub fn read_copy(g: &Geometry, gate: &[u8; 512], body: &[u8]) -> Result<CopyState, CopyFault>
    requires room { 1024 ≤ length body.now }
    ensures exact { CopyAnswers result (copy_fault g.now gate.now body.now) (copy_told body.now) }
    // What is accepted is spelled so.
    ensures found { IfOk result (λ state. (slice_index gate.now 0 ≡ 1)
        × IsCopy body.now (version_in body.now) g.now state
        (block_bytes 512 (length body.now - 1024) body.now)) }
    // What is spelled so is accepted behind an open gate.
    ensures only { (version : ℕ) (state : CopyState) (directory : List ℕ)
        → slice_index gate.now 0 ≡ 1 → IsCopy body.now version g.now state directory
        → CopyAnswers result None state }
{
    read(g, gate, body)
}

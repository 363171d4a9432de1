// Rows under numbers, each linked to the next older row of its segment, bucket and tag.
ghost use Rattle.std.specs.Prelude.{ℕ, ◌≡◌, ◌+◌, ◌≤◌, ◌<◌, [], ◌∷◌, true, All, Some, None, IfSome, is_some, IsOk, OnOk, nat_eq};
ghost use Rattle.std.specs.Prelude.{false};
ghost use Rattle.std.specs.Bool.{OnTrue};
ghost use Rattle.std.specs.HashMap.{get, spare};
ghost use Rattle.dir_table.specs.declared.rows.Spot.{Spot as SpotValue};
ghost use Rattle.dir_table.specs.Rows.{same_spot, has_row, plain_rows, LosesPlain};
ghost use Rattle.dir_table.specs.Links.{IsLinked, IsPlainAt, stands_at, PointsTo, entries_of, node_at, newest_at, row_at, rows_in, room_in_links, relinked, renewed, links_without, AllFrom, stands_from};
ghost use Rattle.dir_table.specs.Wrap.{stored_from};

use crate::rows::{DirRow, Spot, StoredRow};
use std::alloc::{AllocError, Global};
use std::collections::HashMap;

/// A row, and the number of the next older row of its spot.
#[derive(Clone, Copy, Debug)]
pub(crate) struct Node {
    pub row: StoredRow,
    pub older: Option<u64>,
}

type Nodes = HashMap<u64, Node>;

type Newest = HashMap<Spot, u64>;

/// The rows by their numbers, the newest of each spot, and the number of the next row.
#[derive(Drop)]
pub(crate) struct Links {
    pub nodes: Nodes,
    pub newest: Newest,
    pub next: u64,
}

pub(crate) fn new(alloc: Global) -> Links
    ensures linked { IsLinked result }
    ensures rows { rows_in result ≡ [] }
{
    Links {
        nodes: HashMap::new(alloc),
        newest: HashMap::new(alloc),
        next: 0,
    }
}

pub(crate) fn reserve(links: &mut Links, more: usize) -> Result<(), AllocError>
    requires { IsLinked links.old }
    ensures linked { IsLinked links.new }
    ensures entries { entries_of links.new ≡ entries_of links.old }
    ensures next { links.new.next ≡ links.old.next }
    ensures room { OnOk result (more ≤ room_in_links links.new) }
    ensures enough { more ≤ room_in_links links.old → IsOk result }
    ensures same { room_in_links links.old ≤ room_in_links links.new }
{
    links.nodes.reserve(more)?;
    links.newest.reserve(more)?;
    // Numbers are never given twice.
    if u64::MAX - links.next < more as u64 {
        return Err(AllocError);
    }
    Ok(())
}

/// The node of a number.
pub(crate) fn node_of(links: &Links, number: u64) -> Node
    requires { is_some (node_at links.now number) ≡ true }
    ensures { node_at links.now number ≡ Some result }
{
    *links.nodes.get(&number).unwrap()
}

pub(crate) fn newest_of(links: &Links, spot: Spot) -> Option<u64>
    ensures { result ≡ newest_at links.now spot }
{
    links.newest.get(&spot).copied()
}

/// Adds the newest row.
pub(crate) fn add(links: &mut Links, row: StoredRow)
    requires linked { IsLinked links.old }
    requires room { 0 < room_in_links links.old }
    requires last { All (λ r. r.place ≤ row.place) (rows_in links.old) }
    ensures linked { IsLinked links.new }
    ensures entries { entries_of links.new ≡ (links.old.next, row) ∷ entries_of links.old }
    ensures next { links.new.next ≡ links.old.next + 1 }
    ensures room { room_in_links links.old ≤ room_in_links links.new + 1 }
{
    let spot = row.spot();
    let number = links.next;
    let older = newest_of(links, spot);
    let put: Result<_, _> = links.nodes.insert(number, Node { row, older });
    let _ = put.unwrap();
    let noted: Result<_, _> = links.newest.insert(spot, number);
    let _ = noted.unwrap();
    links.next = number + 1;
}

/// The number of a row, if it is there.
pub(crate) fn number_of(links: &Links, row: &DirRow) -> Option<u64>
    requires { IsLinked links.now }
    ensures found { IfSome result (λ k. IsPlainAt links.now k row.now) }
    ensures has { is_some result ≡ has_row row.now (plain_rows (rows_in links.now)) }
{
    let mut at = newest_of(links, row.spot());
    while let Some(number) = at {
        let node = node_of(links, number);
        if *row == node.row.plain() {
            return Some(number);
        }
        at = node.older;
    }
    None
}

// What points to a number: the next newer row of its spot, or none where it is the newest.
fn pointing_to(links: &Links, number: u64, spot: Spot) -> Option<u64>
    requires linked { IsLinked links.now }
    requires stands { IfSome (row_at links.now number) (λ row. stands_at spot row ≡ true) }
    requires some { is_some (row_at links.now number) ≡ true }
    ensures { PointsTo links.now spot result (Some number) }
{
    let mut before = None;
    let mut at = newest_of(links, spot);
    while at != Some(number) {
        let Some(newer) = at else { return before };
        before = at;
        at = node_of(links, newer).older;
    }
    before
}

fn point_node(nodes: &mut Nodes, number: u64, older: Option<u64>)
    ensures nodes { (k : ℕ) →
        get nat_eq nodes.new k ≡ relinked (Some number) older k (get nat_eq nodes.old k) }
    ensures spare { spare nodes.new ≡ spare nodes.old }
{
    if let Some(node) = nodes.get_mut(&number) {
        node.older = older;
    }
}

fn point_spot(newest: &mut Newest, spot: Spot, number: u64)
    requires { is_some (get same_spot newest.old spot) ≡ true }
    ensures newest { (s : SpotValue) → get same_spot newest.new s
        ≡ renewed None (Some number) spot s (get same_spot newest.old s) }
    ensures spare { spare newest.new ≡ spare newest.old }
{
    if let Some(found) = newest.get_mut(&spot) {
        *found = number;
    }
}

// Lets what pointed to a row point to the next older one.
fn redirect(links: &mut Links, spot: Spot, before: Option<u64>, older: Option<u64>)
    requires { is_some (newest_at links.old spot) ≡ true }
    ensures nodes { (k : ℕ) → node_at links.new k ≡ relinked before older k (node_at links.old k) }
    ensures newest { (s : SpotValue) →
        newest_at links.new s ≡ renewed before older spot s (newest_at links.old s) }
    ensures next { links.new.next ≡ links.old.next }
    ensures room { room_in_links links.old ≤ room_in_links links.new }
{
    match (before, older) {
        (Some(number), _) => point_node(&mut links.nodes, number, older),
        (None, Some(number)) => point_spot(&mut links.newest, spot, number),
        (None, None) => {
            links.newest.remove(&spot);
        }
    }
}

/// Takes a row out by its number.
pub(crate) fn take_out(links: &mut Links, number: u64)
    requires linked { IsLinked links.old }
    requires some { is_some (row_at links.old number) ≡ true }
    ensures linked { IsLinked links.new }
    ensures entries { entries_of links.new ≡ links_without number (entries_of links.old) }
    ensures next { links.new.next ≡ links.old.next }
    ensures room { room_in_links links.old ≤ room_in_links links.new }
{
    let node = node_of(links, number);
    let spot = node.row.spot();
    let before = pointing_to(links, number, spot);
    redirect(links, spot, before, node.older);
    links.nodes.remove(&number);
}

/// Takes a row out, and says whether it was there.
pub(crate) fn take_row(links: &mut Links, row: &DirRow) -> bool
    requires { IsLinked links.old }
    ensures linked { IsLinked links.new }
    ensures found { result ≡ has_row row.now (plain_rows (rows_in links.old)) }
    ensures gone { OnTrue result (LosesPlain row.now (rows_in links.old) (rows_in links.new)) }
    ensures none { result ≡ false → entries_of links.new ≡ entries_of links.old }
    ensures above { (first : ℕ) →
        AllFrom first (entries_of links.old) → AllFrom first (entries_of links.new) }
    ensures next { links.new.next ≡ links.old.next }
    ensures room { room_in_links links.old ≤ room_in_links links.new }
{
    match number_of(links, row) {
        Some(number) => {
            take_out(links, number);
            true
        }
        None => false,
    }
}

/// Takes the rows below a place out. Of the numbers up to the first none is in use, and the result
/// is the first one then.
pub(crate) fn forget(links: &mut Links, first: u64, low: u64) -> u64
    requires linked { IsLinked links.old }
    requires above { AllFrom first (entries_of links.old) }
    requires within { first ≤ links.old.next }
    ensures linked { IsLinked links.new }
    ensures rows { rows_in links.new ≡ stored_from low (rows_in links.old) }
    ensures above { AllFrom result (entries_of links.new) }
    ensures within { result ≤ links.new.next }
    ensures room { room_in_links links.old ≤ room_in_links links.new }
{
    let end = links.next;
    let mut number = first;
    while number < end {
        if is_standing_from(links, number, low) {
            return number;
        }
        clear(links, number);
        number += 1;
    }
    number
}

// Whether a row stands under the number, at or above a place.
fn is_standing_from(links: &Links, number: u64, low: u64) -> bool
    ensures { result ≡ stands_from low (row_at links.now number) }
{
    match links.nodes.get(&number) {
        Some(node) => low <= node.row.place,
        None => false,
    }
}

// Takes out what stands under the number.
fn clear(links: &mut Links, number: u64)
    requires { IsLinked links.old }
    ensures linked { IsLinked links.new }
    ensures entries { entries_of links.new ≡ links_without number (entries_of links.old) }
    ensures next { links.new.next ≡ links.old.next }
    ensures room { room_in_links links.old ≤ room_in_links links.new }
{
    if links.nodes.contains_key(&number) {
        take_out(links, number);
    }
}

// Pieces on the content area: gathered in a buffer, written out by one write, found by a directory.
ghost use Rattle.std.specs.Prelude.{◌≡◌, ◌+◌, ◌-◌, ◌*◌, ◌/◌, ◌<◌, ◌≤◌, ◌^◌, length, IfOk, OnOk, OnErr, IfErr};
ghost use Rattle.tape_base.specs.Blocks.{blocks_of};
ghost use Rattle.tape_base.specs.Digest.{digest_of};
ghost use Rattle.tape_base.specs.Place.{device_blocks_of};
ghost use Rattle.doc_header.specs.Document.{digest_of_document, document_bytes};
ghost use Rattle.doc_header.specs.Reading.{document_digest};
ghost use Rattle.doc_header.specs.Moving.{moved_to};
ghost use Rattle.agg_buffer.specs.Buffer.{IsWholePiece, blocks_in, filled_of, empty_buffer, next_place_of, room_of};
ghost use Rattle.std.specs.Prelude.{[], ◌∷◌, false, true, IsOk, IsPermutation};
ghost use Rattle.std.specs.Bool.{OnTrue};
ghost use Rattle.logged_disk.specs.Device.{Affords, IsWhole, Keeps};
ghost use Rattle.stripe_copies.specs.Format.{IsLaidOut, IsRefusedFormat};
ghost use Rattle.dir_table.specs.Window.{first_window};
ghost use Rattle.dir_table.specs.Rows.{has_row, plain_rows};
ghost use Rattle.dir_table.specs.Displacement.{AreFew, none_displaced};

use agg_buffer::AggBuffer;
use dir_table::{Directory, Displaced};
use doc_header::{Doc, document_digest};
use edge_io::Failed;
use logged_disk::Disk;
use std::alloc::{AllocError, Global};
use stripe_copies::{FormatFault, lay_out};
use tape_base::{BLOCK, Digest, Geometry, Key, PieceId, block, blocks_of, floor_of, next_cursor};
use write_cursor::Cursor;

/// The content area of a device, which is written in a circle.
#[derive(Drop)]
pub struct Cyclone<D: Disk, R: Directory + Drop> {
    pub(crate) geometry: Geometry,
    // The least place that may be read, wherever the buffer begins.
    least: u64,
    pub(crate) disk: D,
    pub(crate) directory: R,
    pub(crate) buffer: AggBuffer,
    // Of any device: with it the type carries what `D` and `R` tell of themselves.
    ghost told: { 0 ≤ (D.state disk).faults },
}

impl<D: Disk, R: Directory + Drop> Cyclone<D, R> {
    ghost use Rattle.cyclone.specs.Cyclone.{IsCyclone, HasBuffer, IsFresh, IsPut, EntersDoc, IsMoved, EntersCopy, TakesOutStored, BeginsNext, BlocksStand, BufferMayBegin, IsMadeOf, ReadsBlocks, SameButRoom, SameButRows, SameTape, WritesBuffer, row_of_piece, floor_in, next_buffer_cursor, next_floor, seen_cyclone, window_from};

    /// Lays a device out, and begins an empty cyclone on it, from the start of its second lap on. A
    /// refusal gives the device back.
    pub fn format(alloc: Global, disk: D, g: Geometry) -> Result<Cyclone<D, R>, (FormatFault, D)>
        requires { device_blocks_of g ≤ (D.state disk).size }
        ensures ok { IfOk result (λ c. IsCyclone c) }
        ensures fresh { IfOk result (λ c. IsFresh (seen_cyclone c) g) }
        ensures laid { IfOk result (λ c. IsLaidOut g (D.state disk) (seen_cyclone c).device) }
        ensures back { IfErr result (λ refused.
            IsRefusedFormat g (D.state disk) (D.state refused.1) refused.0) }
    {
        let mut disk = disk;
        let (directory, buffer) = match parts(alloc, &g) {
            Ok(parts) => parts,
            Err(e) => return Err((FormatFault::Memory(e), disk)),
        };
        match lay_out(alloc, &mut disk, &g) {
            Ok(()) => Ok(Cyclone {
                geometry: g,
                least: 0,
                disk,
                directory,
                buffer,
            }),
            Err(fault) => Err((fault, disk)),
        }
    }

    /// Goes on with the pieces of a directory, on a device that was laid out: the next buffer begins empty
    /// at its cursor, and nothing below a least place may be read. The device is not asked. Where
    /// memory is wanting, it comes back.
    pub fn of_parts(
        alloc: Global,
        disk: D,
        directory: R,
        g: Geometry,
        cursor: u64,
        least: u64,
    ) -> Result<Cyclone<D, R>, (AllocError, D)>
        requires sized { device_blocks_of g ≤ (D.state disk).size }
        requires begins { BufferMayBegin g cursor least }
        requires window { R.window directory ≡ window_from g cursor least }
        ensures ok { IfOk result (λ c. IsCyclone c) }
        ensures made { IfOk result (λ c.
            IsMadeOf g cursor least (R.rows directory) (D.state disk) (seen_cyclone c)) }
        ensures back { IfErr result (λ refused. D.state refused.1 ≡ D.state disk) }
    {
        directory.rows_fit();
        match AggBuffer::new(alloc, &g, cursor) {
            Ok(buffer) => Ok(Cyclone {
                geometry: g,
                least,
                disk,
                directory,
                buffer,
            }),
            Err(e) => Err((e, disk)),
        }
    }

    /// Gives the device back.
    pub fn into_disk(self) -> D
        ensures { D.state result ≡ (seen_cyclone self).device }
    {
        let Cyclone {
            geometry: _,
            least: _,
            disk,
            directory: _directory,
            buffer: _buffer,
        } = self;
        disk
    }

    pub fn disk(&self) -> &D
        ensures { D.state result.now ≡ (seen_cyclone self.now).device }
    {
        &self.disk
    }

    pub fn geometry(&self) -> &Geometry
        ensures { result.now ≡ (seen_cyclone self.now).geometry }
    {
        &self.geometry
    }

    /// Where the buffer begins.
    pub fn cursor(&self) -> u64
        ensures { result ≡ (seen_cyclone self.now).buffer.cursor }
    {
        self.buffer.cursor()
    }

    /// The place of the next piece.
    pub fn next_place(&self) -> u64
        ensures { result ≡ next_place_of (seen_cyclone self.now).buffer }
    {
        self.buffer.next_place()
    }

    /// How many blocks the buffer still takes.
    pub fn room(&self) -> u32
        ensures { result ≡ room_of (seen_cyclone self.now).buffer }
    {
        self.buffer.room()
    }

    /// Where the next buffer begins, if this one is flushed now.
    pub fn next_cursor(&self) -> u64
        requires { IsCyclone self.now }
        ensures { result ≡ next_buffer_cursor (seen_cyclone self.now) }
    {
        next_cursor(&self.geometry, self.buffer.cursor(), self.buffer.filled())
    }

    /// The least place that may be read.
    pub fn floor(&self) -> u64
        requires { IsCyclone self.now }
        ensures { result ≡ floor_in (seen_cyclone self.now) }
    {
        self.least
            .max(floor_of(&self.geometry, self.buffer.cursor()))
    }

    /// The least place that may be read once the next buffer begins, if this one is flushed now.
    pub fn next_floor(&self) -> u64
        requires { IsCyclone self.now }
        ensures { result ≡ next_floor (seen_cyclone self.now) }
    {
        self.least.max(floor_of(&self.geometry, self.next_cursor()))
    }

    /// Makes room for so many pieces, and on the device for at least so many flushes.
    pub fn prepare(&mut self, pieces: usize, flushes: u32) -> Result<(), AllocError>
        requires turns { IsCyclone self.old }
        ensures turns { IsCyclone self.new }
        ensures same { SameButRoom (seen_cyclone self.old) (seen_cyclone self.new) }
        ensures pieces { OnOk result (pieces ≤ (seen_cyclone self.new).spare) }
        ensures device { let old = (seen_cyclone self.old).device in
            OnOk result (Affords flushes (flushes * (seen_cyclone self.old).geometry.agg) old
            (seen_cyclone self.new).device) }
        ensures none { OnErr result
            (Affords 0 0 (seen_cyclone self.old).device (seen_cyclone self.new).device) }
        ensures keeps { Keeps 0 0 (seen_cyclone self.old).device (seen_cyclone self.new).device }
    {
        self.directory.reserve(pieces)?;
        self.disk
            .make_room(flushes, flushes as u64 * self.geometry.agg as u64)
    }

    /// Puts a piece, the digest of whose payload is given, into the buffer as a document, and
    /// enters it. The document is spelled in its place, and is not written before the next flush.
    /// The answer is the document's digest.
    pub fn put(&mut self, doc: &Doc, payload: &[u8], digest: &Digest) -> Digest
        requires turns { IsCyclone self.old }
        requires spare { 1 ≤ (seen_cyclone self.old).spare }
        requires place { doc.now.place ≡ next_place_of (seen_cyclone self.old).buffer }
        requires size { length payload.now ≤ 2 ^ 31 }
        requires digest { digest.now ≡ digest_of payload.now }
        requires room { blocks_of (length payload.now) ≤ room_of (seen_cyclone self.old).buffer }
        ensures turns { IsCyclone self.new }
        ensures put { IsPut R.purges (seen_cyclone self.old) (seen_cyclone self.new) doc.now
            payload.now }
        ensures entered { EntersDoc R.purges (seen_cyclone self.old) (seen_cyclone self.new) doc.now
            payload.now }
        ensures document { result ≡ digest_of_document doc.now payload.now }
        // Who reads it back finds this digest.
        ensures again { document_digest (document_bytes doc.now payload.now) ≡ result }
        ensures size { blocks_in (document_bytes doc.now payload.now) ≡ blocks_of (length payload.now) }
    {
        let blocks = blocks_of(payload.len() as u32);
        self.buffer.put_document(doc, payload, digest);
        let document = document_digest(self.buffer.get(doc.place, blocks));
        self.directory.insert(
            Key::of_piece(doc.id),
            doc.place,
            blocks,
            doc.id.index == 0,
            doc.pin != 0,
        );
        document
    }

    /// Puts a copy of the document that stands at `from` into the buffer, and enters its piece there
    /// in place of the old entry. It gives the digest of what stands in the buffer now, and does not
    /// ask whether the bytes are a document.
    pub fn move_piece(&mut self, id: PieceId, from: u64, pinned: bool, bytes: &[u8]) -> Digest
        requires turns { IsCyclone self.old }
        requires spare { 1 ≤ (seen_cyclone self.old).spare }
        requires whole { IsWholePiece bytes.now }
        requires room { blocks_in bytes.now ≤ room_of (seen_cyclone self.old).buffer }
        ensures turns { IsCyclone self.new }
        ensures moved { IsMoved R.purges (seen_cyclone self.old) (seen_cyclone self.new) id
            from bytes.now }
        ensures entered { EntersCopy R.purges (seen_cyclone self.old)
            (seen_cyclone self.new) id from
            (blocks_in bytes.now) pinned }
        ensures document { result ≡ document_digest
            (moved_to (next_place_of (seen_cyclone self.old).buffer) bytes.now) }
        ensures size { length (moved_to (next_place_of (seen_cyclone self.old).buffer) bytes.now)
            ≡ length bytes.now }
    {
        let place = self.buffer.next_place();
        let blocks = (bytes.len() / BLOCK) as u32;
        self.buffer.put_moved(bytes);
        self.directory.delete(Key::of_piece(id), from);
        self.directory
            .insert(Key::of_piece(id), place, blocks, id.index == 0, pinned);
        document_digest(self.buffer.get(place, blocks))
    }

    /// Writes the buffer out by one write. The blocks that are written may hold any bytes where the
    /// device refuses.
    pub fn write_out(&mut self) -> Result<(), Failed>
        requires turns { IsCyclone self.old }
        requires some { 0 < filled_of (seen_cyclone self.old).buffer }
        requires calls { 1 ≤ (seen_cyclone self.old).device.calls }
        requires blocks { filled_of (seen_cyclone self.old).buffer
            ≤ (seen_cyclone self.old).device.blocks }
        ensures turns { IsCyclone self.new }
        ensures same { SameTape (seen_cyclone self.old) (seen_cyclone self.new) }
        ensures ok { OnOk result (HasBuffer (seen_cyclone self.new)) }
        ensures device { WritesBuffer (seen_cyclone self.old) (seen_cyclone self.new) result }
    {
        let first = block(&self.geometry, self.buffer.cursor());
        self.disk.write(first, self.buffer.bytes())
    }

    /// Begins the next buffer, and forgets what is in this one.
    pub fn begin_next(&mut self)
        requires turns { IsCyclone self.old }
        requires below { next_buffer_cursor (seen_cyclone self.old) < 2 ^ 62 }
        ensures turns { IsCyclone self.new }
        ensures begins { BeginsNext (seen_cyclone self.old) (seen_cyclone self.new) }
    {
        let cursor = self.buffer.cursor();
        let here = Cursor {
            cursor,
            synced: cursor,
        };
        let next = here.plan(&self.geometry, self.buffer.filled());
        self.buffer.begin(next.cursor);
        self.directory.wrap(next.cursor, self.least.max(next.floor));
    }

    /// Reads the blocks from a place on, from the buffer where they stand there.
    pub fn read(&mut self, place: u64, into: &mut [u8]) -> Result<(), Failed>
        requires turns { IsCyclone self.old }
        requires whole { IsWhole (length into.old) }
        requires stored { BlocksStand (seen_cyclone self.old) place (length into.old / 512) }
        ensures turns { IsCyclone self.new }
        ensures same { SameTape (seen_cyclone self.old) (seen_cyclone self.new) }
        ensures reads { ReadsBlocks (seen_cyclone self.old) (seen_cyclone self.new) place
            (length into.old / 512) result into.new }
        ensures buffered { (seen_cyclone self.old).buffer.cursor ≤ place → IsOk result }
        // What stands in the buffer is read without the device.
        ensures quiet { (seen_cyclone self.old).buffer.cursor ≤ place
            → seen_cyclone self.new ≡ seen_cyclone self.old }
    {
        if place < self.buffer.cursor() {
            return self.disk.read(block(&self.geometry, place), into);
        }
        let blocks = (into.len() / BLOCK) as u32;
        into.copy_from_slice(self.buffer.get(place, blocks));
        Ok(())
    }

    /// Takes a piece out of the directory, and says whether it stood there.
    pub fn take_out(&mut self, id: PieceId, place: u64) -> bool
        requires turns { IsCyclone self.old }
        ensures turns { IsCyclone self.new }
        ensures found { result ≡ has_row (row_of_piece (seen_cyclone self.old) id place)
            (seen_cyclone self.old).rows }
        ensures same { SameButRows (seen_cyclone self.old) (seen_cyclone self.new) }
        ensures gone { OnTrue result (IsPermutation (seen_cyclone self.old).rows
            (row_of_piece (seen_cyclone self.old) id place ∷ (seen_cyclone self.new).rows)) }
        ensures none { result ≡ false
            → (seen_cyclone self.new).rows ≡ (seen_cyclone self.old).rows }
        ensures stored { TakesOutStored (row_of_piece (seen_cyclone self.old) id place)
            (seen_cyclone self.old).stored (seen_cyclone self.new).stored }
    {
        self.directory.delete(Key::of_piece(id), place)
    }

    /// What the piece that was entered last displaced.
    pub fn displaced(&self) -> &Displaced
        ensures { result.now.told ≡ (seen_cyclone self.now).displaced }
    {
        self.directory.displaced()
    }

    /// A law for proofs: where an entry may displace others, each segment has slots for its rows.
    pub fn rows_fit(&self)
        ensures { R.purges ≡ true
            → AreFew (seen_cyclone self.now).window.geometry (seen_cyclone self.now).rows }
    {
        self.directory.rows_fit();
    }

    /// The directory, for walks.
    pub fn directory(&self) -> &R
        ensures rows { plain_rows (R.rows result.now) ≡ (seen_cyclone self.now).rows }
        ensures stored { R.rows result.now ≡ (seen_cyclone self.now).stored }
        ensures window { R.window result.now ≡ (seen_cyclone self.now).window }
        ensures displaced { R.displaced result.now ≡ (seen_cyclone self.now).displaced }
    {
        &self.directory
    }
}

fn parts<R: Directory + Drop>(alloc: Global, g: &Geometry) -> Result<(R, AggBuffer), AllocError>
    ensures directory { IfOk result (λ parts. (R.rows parts.0 ≡ []) × (R.window parts.0 ≡ first_window g.now)) }
    ensures displaced { IfOk result (λ parts. R.displaced parts.0 ≡ none_displaced) }
    ensures buffer { IfOk result (λ parts. parts.1 ≡ empty_buffer g.now.content g.now.agg) }
{
    let directory = R::new(alloc, g)?;
    let buffer = AggBuffer::new(alloc, g, g.content)?;
    Ok((directory, buffer))
}

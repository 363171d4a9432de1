// The buffer and its places.
ghost use Rattle.std.specs.Prelude.{◌≡◌, ◌<◌, ◌≤◌, ◌+◌, ◌*◌, ◌^◌, length, IfOk};
ghost use Rattle.tape_base.specs.Blocks.{blocks_of};
ghost use Rattle.tape_base.specs.Digest.{digest_of};
ghost use Rattle.doc_header.specs.Document.{IsDocument, document_bytes};
ghost use Rattle.doc_header.specs.Moving.{moved_to};
ghost use Rattle.agg_buffer.specs.Buffer.{Buffer, empty_buffer, filled_of, next_place_of, bytes_at, IsFilled, IsWholePiece, AddsPiece, RefusesPiece, IfPlaced, IfNoRoom, room_of, blocks_in};

use crate::answers::PutAnswer;
use doc_header::{Doc, move_document, write_doc};
use std::alloc::{AllocError, Global};
use std::marker::Model;
use tape_base::{BLOCK, Digest, Geometry, blocks_of};

/// Blocks of consecutive places, in memory. It reserves its places from its cursor on.
#[derive(Debug, Drop)]
pub struct AggBuffer {
    cursor: u64,
    reserved: u32,
    bytes: Vec<u8>,
}

impl Model for AggBuffer {
    ghost use Rattle.std.specs.Prelude.{◌≡◌, ◌<◌, ◌≤◌, ◌*◌, ◌%◌, ◌^◌, vec_len, vec_capacity};
    ghost use Rattle.agg_buffer.specs.Buffer.{Buffer};

    ghost Value = { Buffer };

    ghost view = { λ b. record { cursor = b.cursor; reserved = b.reserved; bytes = b.bytes.items } };

    ghost invariant = { λ b. (b.cursor < 2 ^ 62) × (b.reserved ≤ 8192) × (vec_len b.bytes % 512 ≡ 0)
        × (vec_len b.bytes ≤ 512 * b.reserved) × (512 * b.reserved ≤ vec_capacity b.bytes) };
}

impl AggBuffer {
    pub fn new(alloc: Global, g: &Geometry, cursor: u64) -> Result<AggBuffer, AllocError>
        requires { cursor < 2 ^ 62 }
        ensures { IfOk result (λ b. b ≡ empty_buffer cursor g.now.agg) }
    {
        Ok(AggBuffer {
            cursor,
            reserved: g.agg,
            bytes: Vec::with_capacity(alloc, g.agg as usize * BLOCK)?,
        })
    }

    /// Empties the buffer, and goes on at another cursor.
    pub fn begin(&mut self, cursor: u64)
        requires { cursor < 2 ^ 62 }
        ensures { self.new ≡ empty_buffer cursor self.old.reserved }
    {
        self.bytes.clear();
        self.cursor = cursor;
    }

    /// The place at which the buffer begins.
    pub fn cursor(&self) -> u64
        ensures { result ≡ self.now.cursor }
    {
        self.cursor
    }

    /// The place of the next piece.
    pub fn next_place(&self) -> u64
        ensures place { result ≡ next_place_of self.now }
        ensures within { result ≤ self.now.cursor + self.now.reserved }
    {
        self.cursor + self.filled() as u64
    }

    /// Puts a piece behind the others, where its blocks are left.
    pub fn put(&mut self, piece: &[u8]) -> PutAnswer
        requires { IsWholePiece piece.now }
        ensures placed { IfPlaced result (λ place. place ≡ next_place_of self.old) }
        ensures added { IfPlaced result (λ _. AddsPiece self.old self.new piece.now) }
        ensures no_room { IfNoRoom result (λ left. left ≡ room_of self.old) }
        ensures refused { IfNoRoom result (λ _. RefusesPiece self.old self.new piece.now) }
    {
        let left = self.room();
        if piece.len() / BLOCK > left as usize {
            return PutAnswer::NoRoom { left };
        }
        let place = self.next_place();
        let put: Result<_, _> = self.bytes.extend_from_slice(piece);
        put.unwrap();
        PutAnswer::Placed(place)
    }

    /// Puts the document of a piece behind the others. It is spelled in its place, so the payload
    /// is copied once. Whoever has its digest gives it, so it is not digested for its header.
    pub fn put_document(&mut self, doc: &Doc, payload: &[u8], digest: &Digest)
        requires size { length payload.now ≤ 2 ^ 31 }
        requires digest { digest.now ≡ digest_of payload.now }
        requires room { blocks_of (length payload.now) ≤ room_of self.old }
        ensures added { AddsPiece self.old self.new (document_bytes doc.now payload.now) }
        ensures size { blocks_in (document_bytes doc.now payload.now) ≡ blocks_of (length payload.now) }
        ensures document { let d = doc.now in
            IsDocument (document_bytes d payload.now) d.generation d.place d payload.now }
    {
        let start = self.bytes.len();
        let end = start + blocks_of(payload.len() as u32) as usize * BLOCK;
        let grown: Result<_, _> = self.bytes.resize(end, 0);
        grown.unwrap();
        write_doc(doc, payload, digest, &mut self.bytes[start..]);
    }

    /// Puts a copy of a document behind the others, with its place there.
    pub fn put_moved(&mut self, bytes: &[u8])
        requires whole { IsWholePiece bytes.now }
        requires room { blocks_in bytes.now ≤ room_of self.old }
        ensures added { AddsPiece self.old self.new (moved_to (next_place_of self.old) bytes.now) }
        ensures size { length (moved_to (next_place_of self.old) bytes.now) ≡ length bytes.now }
    {
        let place = self.next_place();
        let start = self.bytes.len();
        let grown: Result<_, _> = self.bytes.extend_from_slice(bytes);
        grown.unwrap();
        move_document(&mut self.bytes[start..], place);
    }

    /// How many blocks are left.
    pub fn room(&self) -> u32
        ensures { result ≡ room_of self.now }
    {
        self.reserved - self.filled()
    }

    /// The bytes of filled blocks.
    pub fn get(&self, place: u64, blocks: u32) -> &[u8]
        requires { IsFilled self.now place blocks }
        ensures bytes { result.now ≡ bytes_at self.now place blocks }
        ensures whole { length result.now ≡ 512 * blocks }
    {
        let first = (place - self.cursor) as usize * BLOCK;
        &self.bytes[first..first + blocks as usize * BLOCK]
    }

    /// All bytes put since the buffer began.
    pub fn bytes(&self) -> &[u8]
        ensures bytes { result.now ≡ self.now.bytes }
        ensures whole { length result.now ≡ 512 * filled_of self.now }
        ensures within { filled_of self.now ≤ self.now.reserved }
    {
        &self.bytes
    }

    /// How many blocks are filled.
    pub fn filled(&self) -> u32
        ensures filled { result ≡ filled_of self.now }
        ensures within { result ≤ self.now.reserved }
    {
        (self.bytes.len() / BLOCK) as u32
    }
}

//! Sources and sinks in memory: such that fail at listed calls, and such that never fail.
ghost use Rattle.std.specs.Prelude.{◌≡◌, ◌+◌, ◌-◌, ◌^◌, ◌<◌, ◌≤◌, ◌↔◌, ◌++◌, [], ℕ, List, max, min, length, take, Some, None, IfOk, OnErr, IsErr, Contains, option_map, if◌then◌else◌};
ghost use Rattle.std.specs.Io.{ReadsAtMost, WritesAtMost};
ghost use Rattle.std.specs.Io.KnownBytes.{ReadConsumes};
ghost use Rattle.std.specs.declared.option.Option.{Option};
ghost use Rattle.byte_streams.specs.Streams.{HasCause, GrowsBy};

use crate::stream::{Failed, Sink, Source};
use std::alloc::Global;
use std::marker::Model;

/// Which calls of a stream are to fail, and how many were made and have failed.
#[derive(Clone, Copy)]
pub struct Plan<'a> {
    /// The numbers of the calls that are to fail. The first call is number 1.
    pub failing: &'a [u64],
    pub calls: u64,
    pub faults: u64,
}

impl<'a> Plan<'a> {
    /// No call was made yet.
    pub fn new(failing: &'a [u64]) -> Self
        ensures { (result.failing ≡ failing.entry) × (result.calls ≡ 0) × (result.faults ≡ 0) }
    {
        Plan {
            failing,
            calls: 0,
            faults: 0,
        }
    }

    /// Counts a call, which fails exactly where its number is listed.
    pub fn next_call(&mut self) -> Result<(), Failed>
        ensures listed { IsErr result ↔ Contains self.old.failing.now self.new.calls }
        ensures counted { self.new.calls ≡ min (self.old.calls + 1) (2 ^ 64 - 1) }
        ensures list { self.new.failing ≡ self.old.failing }
        ensures cause { HasCause self.old.faults self.new.faults result }
    {
        self.calls = self.calls.saturating_add(1);
        if self.failing.contains(&self.calls) {
            self.faults = self.faults.saturating_add(1);
            return Err(Failed);
        }
        Ok(())
    }
}

// Moves bytes from the front of a slice to the front of the buffer, at most so many.
fn give(left: &mut &[u8], most: usize, buf: &mut [u8]) -> usize
    ensures bound { result ≤ length buf.new }
    ensures few { result ≤ most }
    ensures bytes { left.old.now ≡ take result buf.new ++ left.new.now }
    ensures end { 0 < most → 0 < length buf.new → result ≡ 0 → left.new.now ≡ [] }
{
    let n = left.len().min(buf.len()).min(most);
    let (front, rest) = left.split_at(n);
    buf[..n].copy_from_slice(front);
    *left = rest;
    n
}

/// A slice of bytes as a source that fails at the listed reads alone.
#[derive(Drop)]
pub struct BytesSource<'a> {
    pub left: &'a [u8],
    pub most: usize,
    pub plan: Plan<'a>,
}

impl<'a> BytesSource<'a> {
    /// A source of these bytes that gives at most `most` of them at a read, and at least one where one is
    /// left. The reads in `failing`, counted from 1, fail.
    pub fn new(bytes: &'a [u8], most: usize, failing: &'a [u64]) -> Self
        ensures left { result.left ≡ bytes.entry }
        ensures most { result.most ≡ most }
        ensures plan { (result.plan.failing ≡ failing.entry) × (result.plan.calls ≡ 0) × (result.plan.faults ≡ 0) }
    {
        BytesSource {
            left: bytes,
            most,
            plan: Plan::new(failing),
        }
    }
}

impl<'a> Source for BytesSource<'a> {
    ghost left = { λ s. Some s.left.now };

    ghost faults = { λ s. s.plan.faults };

    fn read(&mut self, buf: &mut [u8]) -> Result<usize, Failed>
        ensures bound { ReadsAtMost result buf.new }
        ensures few { IfOk result (λ n. n ≤ max self.old.most 1) }
        ensures bytes { ReadConsumes (Some self.old.left.now) (Some self.new.left.now) result buf.new }
        ensures cause { HasCause self.old.plan.faults self.new.plan.faults result }
        ensures listed { IsErr result ↔ Contains self.old.plan.failing.now self.new.plan.calls }
    {
        self.plan.next_call()?;
        Ok(give(&mut self.left, self.most.max(1), buf))
    }
}

/// A slice of bytes as a source that never fails.
#[derive(Drop)]
pub struct CleanSource<'a> {
    pub left: &'a [u8],
}

impl<'a> CleanSource<'a> {
    /// A source of these bytes.
    pub fn new(bytes: &'a [u8]) -> Self
        ensures left { result.left ≡ bytes.entry }
    {
        CleanSource { left: bytes }
    }
}

impl<'a> Source for CleanSource<'a> {
    ghost left = { λ s. Some s.left.now };

    ghost faults = { λ _. 0 };

    fn read(&mut self, buf: &mut [u8]) -> Result<usize, Failed> {
        Ok(give(&mut self.left, usize::MAX, buf))
    }
}

/// Bytes that were kept. Once there was no memory for some they are lost, and stay so.
#[derive(Drop)]
pub struct Kept {
    bytes: Vec<u8>,
    lost: bool,
}

impl Model for Kept {
    ghost Value = { Option (List ℕ) };

    ghost view = { λ k. if k.lost then None else Some k.bytes.items };
}

impl Kept {
    /// No bytes yet.
    pub fn new(alloc: Global) -> Self
        ensures { result ≡ Some [] }
    {
        Kept {
            bytes: Vec::new(alloc),
            lost: false,
        }
    }

    /// Adds the piece.
    pub fn keep(&mut self, piece: &[u8])
        ensures { GrowsBy self.old self.new piece.now }
    {
        if self.bytes.extend_from_slice(piece).is_err() {
            self.lost = true;
        }
    }

    /// The bytes, or `None` where they are lost.
    pub fn bytes(&self) -> Option<&[u8]>
        ensures { option_map (λ bytes. bytes.now) result ≡ self.now }
    {
        if self.lost { None } else { Some(&self.bytes) }
    }
}

/// A sink that keeps what it took, and fails at the listed writes alone.
#[derive(Drop)]
pub struct BytesSink<'a> {
    pub kept: Kept,
    pub most: usize,
    pub plan: Plan<'a>,
}

impl<'a> BytesSink<'a> {
    /// An empty sink that takes at most `most` bytes at a write, and at least one where there is one. The
    /// writes in `failing`, counted from 1, fail.
    pub fn new(alloc: Global, most: usize, failing: &'a [u64]) -> Self
        ensures kept { result.kept ≡ Some [] }
        ensures most { result.most ≡ most }
        ensures plan { (result.plan.failing ≡ failing.entry) × (result.plan.calls ≡ 0) × (result.plan.faults ≡ 0) }
    {
        BytesSink {
            kept: Kept::new(alloc),
            most,
            plan: Plan::new(failing),
        }
    }
}

impl<'a> Sink for BytesSink<'a> {
    ghost taken = { λ s. s.kept };

    ghost faults = { λ s. s.plan.faults };

    fn write(&mut self, piece: &[u8]) -> Result<usize, Failed>
        ensures bound { WritesAtMost result piece.now }
        ensures few { IfOk result (λ n. n ≤ max self.old.most 1) }
        ensures some { 0 < length piece.now → IfOk result (λ n. 0 < n) }
        ensures bytes { IfOk result (λ n. GrowsBy self.old.kept self.new.kept (take n piece.now)) }
        ensures none { OnErr result (self.new.kept ≡ self.old.kept) }
        ensures cause { HasCause self.old.plan.faults self.new.plan.faults result }
        ensures listed { IsErr result ↔ Contains self.old.plan.failing.now self.new.plan.calls }
    {
        self.plan.next_call()?;
        let n = piece.len().min(self.most.max(1));
        self.kept.keep(&piece[..n]);
        Ok(n)
    }
}

/// A sink that keeps what it took, and never fails.
#[derive(Drop)]
pub struct CleanSink {
    pub kept: Kept,
}

impl CleanSink {
    /// An empty sink.
    pub fn new(alloc: Global) -> Self
        ensures { result.kept ≡ Some [] }
    {
        CleanSink {
            kept: Kept::new(alloc),
        }
    }
}

impl Sink for CleanSink {
    ghost taken = { λ s. s.kept };

    ghost faults = { λ _. 0 };

    fn write(&mut self, piece: &[u8]) -> Result<usize, Failed> {
        self.kept.keep(piece);
        Ok(piece.len())
    }
}

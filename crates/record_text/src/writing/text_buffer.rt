//! The text of a record while it is written.
ghost use Rattle.std.specs.Prelude.{◌≡◌, ◌+◌, ◌≤◌, ◌<◌, ◌∷◌, ◌++◌, [], OnOk, OnErr, IfOk, length, take};
ghost use Rattle.std.specs.Fmt.{decimal};

use itoa::{Buffer, write_digits};
use std::alloc::{AllocError, Global};
use std::marker::Model;

/// How many bytes are put together before they join the text.
const BLOCK: usize = 1024;

/// The most bytes that a number takes with the space before it.
const LONGEST: usize = 21;

/// The text so far: a list, and behind it the first bytes of a block, which are put together before they join the list.
#[derive(Drop)]
pub(crate) struct TextBuffer {
    whole: Vec<u8>,
    block: [u8; BLOCK],
    filled: usize,
}

impl Model for TextBuffer {
    ghost use Rattle.std.specs.Prelude.{ℕ, List, ◌++◌, ◌≤◌, take};

    ghost Value = { List ℕ };

    ghost view = { λ t. t.whole.items ++ take t.filled t.block };

    ghost invariant = { λ t. t.filled ≤ 1024 };
}

impl TextBuffer {
    pub fn new(alloc: Global) -> Self
        ensures { result ≡ [] }
    {
        TextBuffer {
            whole: Vec::new(alloc),
            block: [0; BLOCK],
            filled: 0,
        }
    }

    /// Writes bytes.
    #[inline(always)]
    pub fn write_bytes(&mut self, bytes: &[u8]) -> Result<(), AllocError>
        ensures { OnOk result (self.new ≡ self.old ++ bytes.now) }
    {
        if bytes.len() > BLOCK - self.filled {
            return self.write_behind(bytes);
        }
        self.filled = put_bytes(&mut self.block, self.filled, bytes);
        Ok(())
    }

    /// Writes bytes for which the block has no room.
    #[inline(never)]
    fn write_behind(&mut self, bytes: &[u8]) -> Result<(), AllocError>
        ensures { OnOk result (self.new ≡ self.old ++ bytes.now) }
    {
        self.whole.extend_from_slice(&self.block[..self.filled])?;
        self.filled = 0;
        self.whole.extend_from_slice(bytes)?;
        Ok(())
    }

    /// Writes a space and a number.
    pub fn write_number(&mut self, number: u64) -> Result<(), AllocError>
        ensures { OnOk result (self.new ≡ self.old ++ 32 ∷ decimal number) }
    {
        if self.filled > BLOCK - LONGEST {
            join(&mut self.whole, &self.block[..self.filled])?;
            self.filled = 0;
        }
        self.filled = put_number(&mut self.block, self.filled, number);
        Ok(())
    }

    /// Writes a space and a number that may be wider than 64 bits.
    pub fn write_wide(&mut self, number: u128) -> Result<(), AllocError>
        ensures { OnOk result (self.new ≡ self.old ++ 32 ∷ decimal number) }
    {
        let mut digits = Buffer::new();
        self.write_bytes(b" ")?;
        self.write_bytes(digits.format(number).as_bytes())
    }

    /// The text.
    pub fn into_bytes(self) -> Result<Vec<u8>, AllocError>
        ensures { IfOk result (λ bytes. bytes.items ≡ self) }
    {
        let TextBuffer {
            mut whole,
            block,
            filled,
        } = self;
        whole.extend_from_slice(&block[..filled])?;
        Ok(whole)
    }
}

/// Puts bytes behind a list, where that is seldom wanted.
#[inline(never)]
fn join(whole: &mut Vec<u8>, bytes: &[u8]) -> Result<(), AllocError>
    ensures ok { OnOk result (whole.new.items ≡ whole.old.items ++ bytes.now) }
    ensures err { OnErr result (whole.new.items ≡ whole.old.items) }
{
    whole.extend_from_slice(bytes)
}

/// Puts bytes at a place of a block, and gives the place behind them.
#[inline(always)]
fn put_bytes(block: &mut [u8], at: usize, bytes: &[u8]) -> usize
    requires { at + length bytes.now ≤ length block.old }
    ensures text { take result block.new ≡ take at block.old ++ bytes.now }
    ensures place { result ≡ at + length bytes.now }
{
    let end = at + bytes.len();
    block[at..end].copy_from_slice(bytes);
    end
}

/// Puts a space and the digits of a number at a place of a block, and gives the place behind them.
#[inline(always)]
fn put_number(block: &mut [u8], at: usize, number: u64) -> usize
    requires { at + 21 ≤ length block.old }
    ensures text { take result block.new ≡ take at block.old ++ 32 ∷ decimal number }
    ensures place { result ≤ at + 21 }
{
    block[at] = b' ';
    if number < 10 {
        block[at + 1] = b'0' + number as u8;
        return at + 2;
    }
    let end = at + 1 + digits_in(number);
    write_digits(number, block, end);
    end
}

/// How many digits a number has.
#[inline(always)]
fn digits_in(number: u64) -> usize
    ensures count { result ≡ length (decimal number) }
    ensures few { result ≤ 20 }
{
    let mut rest = number;
    let mut digits = 0;
    while rest >= 10_000 {
        rest /= 10_000;
        digits += 4;
    }
    digits + digits_of_few(rest)
}

/// How many digits a number of at most four has.
#[inline(always)]
fn digits_of_few(number: u64) -> usize
    requires { number < 10000 }
    ensures count { result ≡ length (decimal number) }
    ensures few { result ≤ 4 }
{
    if number < 10 {
        1
    } else if number < 100 {
        2
    } else if number < 1000 {
        3
    } else {
        4
    }
}

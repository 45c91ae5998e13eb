// The bytes of a dump, cut into tokens.

ghost use Rattle.std.specs.Prelude.{◌≡◌, ℕ, ◌+◌, ◌<◌, ◌≤◌, ◌++◌, [], length, vec_len, vec_capacity, option_to_list};
ghost use Rattle.std.specs.Prelude.{IfOk, OnOk, MatchResult, Ok, Err};
ghost use Rattle.vcd_read.specs.Pieces.{kept_at_first, kept_of, with_held, bytes_read, token_ended};
ghost use Rattle.vcd_read.specs.Pieces.{samples_at_end, Scans, RoomForToken, RoomForSamples};
ghost use Rattle.vcd_read.specs.Views.{asked};

use crate::beside::{Bystander, Tokens};
use crate::bytes::{is_white, line_after, whites};
use crate::dumps::Dump;
use crate::errors::Refusal;
use crate::places::{OpenLine, Wrong};
use crate::probes::Probe;
use crate::samples::Sample;
use std::alloc::{AllocError, Global};
use std::simd::prelude::*;

/// What a reader keeps of the bytes that it was fed.
#[derive(Drop)]
pub(crate) struct Scanner {
    dump: Dump,
    // the line of the next byte
    line: u64,
    // the token that has not ended
    pub(crate) held: Vec<u8>,
    pub(crate) samples: Vec<Sample>,
    // where in the piece at hand a token ended that was refused; it is held then
    refused_at: usize,
}

impl Scanner {
    /// Before the first byte.
    pub(crate) fn new(alloc: Global, scl: Probe<'_>, sda: Probe<'_>) -> Result<Scanner, AllocError>
        ensures kept { IfOk result (λ s. kept_of s ≡ kept_at_first (asked scl.entry) (asked sda.entry)) }
        ensures token_room { IfOk result (λ s. RoomForToken 0 s) }
        ensures samples_room { IfOk result (λ s. RoomForSamples 2 s) }
    {
        let mut samples = Vec::new(alloc);
        samples.reserve(2)?;
        Ok(Scanner {
            dump: Dump::new(alloc, scl, sda)?,
            line: 1,
            held: Vec::new(alloc),
            samples,
            refused_at: 0,
        })
    }

    /// Makes room for all that a piece of so many bytes can leave, and for two samples more. A failure changes nothing.
    pub(crate) fn reserve(&mut self, bytes: usize) -> Result<(), AllocError>
        requires token_room { RoomForToken 0 self.old }
        requires samples_room { RoomForSamples 2 self.old }
        ensures kept { kept_of self.new ≡ kept_of self.old }
        ensures token_room { OnOk result (RoomForToken bytes self.new) }
        ensures samples_room { OnOk result (RoomForSamples (bytes + 2) self.new) }
        ensures least_token_room { RoomForToken 0 self.new }
        ensures least_samples_room { RoomForSamples 2 self.new }
    {
        self.held.reserve(bytes)?;
        let samples = bytes.checked_add(2).ok_or(AllocError)?;
        self.samples.reserve(samples)?;
        self.dump.reserve(self.held.capacity())
    }

    /// Reads a piece for which there is room. Another is told of the tokens that are taken.
    pub(crate) fn read<B: Bystander, T: Tokens>(
        &mut self,
        piece: &[u8],
        beside: &mut B,
        tokens: &mut T,
    ) -> Result<(), Refusal>
        requires token_room { RoomForToken (length piece.now) self.old }
        requires samples_room { RoomForSamples (length piece.now + 2) self.old }
        ensures kept { Scans result (bytes_read (kept_of self.old) piece.now) (kept_of self.new) }
        ensures token_room { RoomForToken 0 self.new }
        ensures samples_room { RoomForSamples 2 self.new }
    {
        let mut start = 0;
        let mut at = 0;
        while piece.len() - at >= 64 {
            let mut rest = whites(u8x64::from_slice(&piece[at..]));
            while rest != 0 {
                let white = at + rest.trailing_zeros() as usize;
                self.end_token(&piece[start..white], white, beside, tokens)?;
                self.line = line_after(self.line, piece[white]);
                start = white + 1;
                rest &= rest - 1;
            }
            at += 64;
        }
        self.read_bytes(&piece[start..], start, beside, tokens)
    }

    // The same of what stands from here on in the piece, byte by byte.
    fn read_bytes<B: Bystander, T: Tokens>(
        &mut self,
        piece: &[u8],
        from: usize,
        beside: &mut B,
        tokens: &mut T,
    ) -> Result<(), Refusal>
        requires token_room { RoomForToken (length piece.now) self.old }
        requires samples_room { RoomForSamples (length piece.now + 2) self.old }
        ensures kept { Scans result (bytes_read (kept_of self.old) piece.now) (kept_of self.new) }
        ensures token_room { RoomForToken 0 self.new }
        ensures samples_room { RoomForSamples 2 self.new }
    {
        let mut start = 0;
        for (at, byte) in piece.iter().enumerate() {
            if is_white(*byte) {
                self.end_token(&piece[start..at], from.saturating_add(at), beside, tokens)?;
                self.line = line_after(self.line, *byte);
                start = at + 1;
            }
        }
        let _ = self.held.extend_from_slice(&piece[start..]);
        Ok(())
    }

    // What is held, with this after it, has come to its end, here in the piece.
    #[inline(always)]
    fn end_token<B: Bystander, T: Tokens>(
        &mut self,
        rest: &[u8],
        at: usize,
        beside: &mut B,
        tokens: &mut T,
    ) -> Result<(), Refusal>
        requires token_room { RoomForToken (length rest.now) self.old }
        requires samples_room { RoomForSamples 1 self.old }
        ensures kept { Scans result (token_ended (with_held rest.now (kept_of self.old))) (kept_of self.new) }
        ensures nothing_held { OnOk result (self.new.held.items ≡ []) }
        ensures token_room { (n : ℕ) → RoomForToken (n + length rest.now) self.old → RoomForToken n self.new }
        ensures samples_room { (n : ℕ) → RoomForSamples (n + 1) self.old → RoomForSamples n self.new }
    {
        if !self.held.is_empty() {
            return self.end_held(rest, at, beside, tokens);
        }
        if rest.is_empty() {
            return Ok(());
        }
        if self.dump.change_short(rest) {
            beside.change(rest, self.dump.time);
            tokens.token(rest);
            return Ok(());
        }
        match self.dump.read(rest, self.line, beside) {
            Ok(sample) => {
                tokens.token(rest);
                keep(&mut self.samples, sample);
                Ok(())
            }
            Err(refusal) => {
                let _ = self.held.extend_from_slice(rest);
                self.refused_at = at;
                Err(refusal)
            }
        }
    }

    // The same where something is held.
    #[inline(never)]
    fn end_held<B: Bystander, T: Tokens>(
        &mut self,
        rest: &[u8],
        at: usize,
        beside: &mut B,
        tokens: &mut T,
    ) -> Result<(), Refusal>
        requires token_room { RoomForToken (length rest.now) self.old }
        requires samples_room { RoomForSamples 1 self.old }
        requires some_held { 0 < vec_len self.old.held }
        ensures kept { Scans result (token_ended (with_held rest.now (kept_of self.old))) (kept_of self.new) }
        ensures nothing_held { OnOk result (self.new.held.items ≡ []) }
        ensures token_room { (n : ℕ) → RoomForToken (n + length rest.now) self.old → RoomForToken n self.new }
        ensures samples_room { (n : ℕ) → RoomForSamples (n + 1) self.old → RoomForSamples n self.new }
    {
        let _ = self.held.extend_from_slice(rest);
        self.refused_at = at;
        let sample = self.dump.read(self.held.as_slice(), self.line, beside)?;
        tokens.token(self.held.as_slice());
        self.held.clear();
        keep(&mut self.samples, sample);
        Ok(())
    }

    /// The end of the dump: its last samples.
    pub(crate) fn end<B: Bystander, T: Tokens>(
        &mut self,
        beside: &mut B,
        tokens: &mut T,
    ) -> Result<(), Refusal>
        requires token_room { RoomForToken 0 self.old }
        requires samples_room { RoomForSamples 2 self.old }
        ensures { MatchResult result (λ _. samples_at_end (kept_of self.old) ≡ Ok self.new.samples.items)
            (λ refusal. samples_at_end (kept_of self.old) ≡ Err refusal) }
    {
        self.end_token(&[], 0, beside, tokens)?;
        if let Some(sample) = self.dump.end()? {
            self.samples.push_reserved(sample);
        }
        Ok(())
    }

    /// The time of the dump.
    pub(crate) fn time(&self) -> u64 {
        self.dump.time
    }

    /// What is wrong, where the dump was refused so in this piece of it, and goes on in this line.
    pub(crate) fn wrong(&self, refusal: Refusal, piece: &[u8], line: &OpenLine) -> Option<Wrong> {
        match refusal {
            Refusal::NoSignal(_) => None,
            Refusal::Unended(_) => Some(Wrong::Unended(self.dump.opened()?)),
            Refusal::BadToken(_) | Refusal::TimeBack(_) => {
                let token = self.held.as_slice();
                let expected = self.dump.expected();
                let place = line.place(token, piece, self.refused_at, expected);
                Some(Wrong::Token(place.ok()?))
            }
        }
    }
}

// Keeps the sample, if there is one.
#[inline(always)]
fn keep(samples: &mut Vec<Sample>, sample: Option<Sample>)
    requires { vec_len samples.old + 1 ≤ vec_capacity samples.old }
    ensures items { samples.new.items ≡ samples.old.items ++ option_to_list sample }
    ensures len { vec_len samples.new ≤ vec_len samples.old + 1 }
    ensures capacity { vec_capacity samples.new ≡ vec_capacity samples.old }
{
    if let Some(sample) = sample {
        samples.push_reserved(sample);
    }
}

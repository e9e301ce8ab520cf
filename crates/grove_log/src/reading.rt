//! Reading the payloads of a file.
ghost use Rattle.std.specs.Prelude.{◌≡◌, ◌∷◌, ◌++◌, ◌≤◌, [], length, IfNone, OnOk, MatchOption, MatchResult};
ghost use Rattle.std.specs.Prelude.{None, Some};
ghost use Rattle.grove_log.specs.Files.{head, recovered, number_of, head_fault, fault_of};
ghost use Rattle.grove_log.specs.Readings.{reading};

use crate::damage::is_damaged;
use crate::frame::{Seal, frame_at, passed_at};
use grove_base::NoMemory;
use std::marker::Model;

/// What a log's file begins with.
const MAGIC: &str = "grovelog";

/// The version of files that this library reads and writes.
const VERSION: u32 = 1;

/// How many bytes a head has: the magic word, the version, and the file's number.
const HEAD: usize = 44;

/// Why a file can't be read.
#[derive(Clone, Copy, Debug, PartialEq, Eq)]
pub enum Unreadable {
    /// It doesn't begin as a log does.
    NotALog,
    /// It is a log of this other version.
    OtherVersion(u32),
    /// The frame at this offset is damaged: a whole frame stands behind it.
    Damaged(usize),
}

/// The payloads of a file that are still to come. Their frames pass: so many bytes are left where no more do.
#[derive(Drop)]
pub struct Payloads<'a> {
    seal: Seal,
    rest: &'a [u8],
    left: usize,
}

impl<'a> Model for Payloads<'a> {
    ghost use Rattle.std.specs.Prelude.{◌≡◌, ℕ, List, length};
    ghost use Rattle.grove_log.specs.Readings.{reading};

    ghost Value = { List (List ℕ) };

    ghost view = { λ p. (reading p.seal.bytes p.rest.now).payloads };

    ghost invariant = { λ p. length (reading p.seal.bytes p.rest.now).rest ≡ p.left };
}

impl<'a> Payloads<'a> {
    /// The next one. No digest is computed for it.
    #[tactic(auto, using(crate::proofs::Steps::reading_more, crate::proofs::Steps::all_left, crate::proofs::Steps::less_left))]
    pub fn next_payload(&mut self) -> Option<&'a [u8]>
        ensures { MatchOption result (self.old ≡ []) (λ payload. self.old ≡ payload.now ∷ self.new) }
    {
        if self.rest.len() == self.left {
            return None;
        }
        let passed = passed_at(self.rest)?;
        self.seal = passed.seal;
        self.rest = passed.behind;
        Some(passed.payload)
    }
}

/// Puts a file's head: what it begins with, and the number that its first frame is chained to.
#[tactic(auto, unfolding(crate::specs::Files::head))]
pub(crate) fn push_head(out: &mut Vec<u8>, number: &Seal) -> Result<(), NoMemory>
    ensures { OnOk result (out.new.items ≡ out.old.items ++ head number.now.bytes) }
{
    out.extend_from_slice(MAGIC.as_bytes())?;
    out.extend_from_slice(&VERSION.to_le_bytes())?;
    out.extend_from_slice(&number.bytes)?;
    Ok(())
}

/// The digest that the frame behind the last that passes has to be chained to, and the bytes from there on.
#[tactic(auto, using(crate::proofs::Steps::reading_more, crate::proofs::Steps::reading_none, crate::proofs::Passing::frame_less))]
fn stop<'a>(number: &Seal, frames: &'a [u8]) -> (Seal, &'a [u8])
    ensures seal { result.0.bytes ≡ (reading number.now.bytes frames.now).seal }
    ensures rest { result.1.now ≡ (reading number.now.bytes frames.now).rest }
    ensures shorter { length result.1.now ≤ length frames.now }
{
    let mut seal = *number;
    let mut rest = frames;
    while let Some(passed) = frame_at(&seal.bytes, rest) {
        seal = passed.seal;
        rest = passed.behind;
    }
    (seal, rest)
}

/// The number of a file.
fn number_in(file: &[u8]) -> Seal
    requires { 44 ≤ length file.now }
    ensures { result.bytes ≡ number_of file.now }
{
    Seal::copied(&file[12..HEAD])
}

/// What is wrong with a file's head.
#[tactic(auto, unfolding(crate::specs::Files::head_fault))]
fn head_fault(file: &[u8]) -> Option<Unreadable>
    ensures fault { result ≡ head_fault file.now }
    ensures long { IfNone result (44 ≤ length file.now) }
{
    if file.len() < HEAD || !file.starts_with(MAGIC.as_bytes()) {
        return Some(Unreadable::NotALog);
    }
    let version = u32::from_le_bytes([file[8], file[9], file[10], file[11]]);
    if version == VERSION {
        None
    } else {
        Some(Unreadable::OtherVersion(version))
    }
}

/// Reads the frames of a file's bytes, whatever a crash made of its end. A torn end is left out: one behind which no
/// whole frame stands. A file that is empty isn't a log yet.
#[tactic(auto, using(crate::proofs::Extended::file_reads, crate::proofs::Extended::file_damage, crate::proofs::Extended::file_refused))]
pub fn read(file: &[u8]) -> Result<Payloads<'_>, Unreadable>
    ensures { MatchResult result (λ payloads. (fault_of file.now ≡ None) × (payloads ≡ recovered file.now))
        (λ fault. fault_of file.now ≡ Some fault) }
{
    if let Some(fault) = head_fault(file) {
        return Err(fault);
    }
    let number = number_in(file);
    let (_, frames) = file.split_at(HEAD);
    let (seal, rest) = stop(&number, frames);
    if is_damaged(&seal.bytes, rest) {
        return Err(Unreadable::Damaged(file.len() - rest.len()));
    }
    Ok(Payloads {
        seal: number,
        rest: frames,
        left: rest.len(),
    })
}

//! Recordings to encode as files.

ghost use Rattle.std.specs.Prelude.{◌≡◌, ◌++◌, ◌+◌, IfOk, OnOk, replicate, slice_index_or, take};
ghost use Rattle.std.specs.List.{flat_map};
ghost use Rattle.recording_texts.specs.Claims.{first_bytes};
ghost use Rattle.recording_texts.specs.Header.{header_bytes};
ghost use Rattle.recording_texts.specs.Layout.{event_bytes, first_file, output_bytes, page_bytes};
ghost use Rattle.recording_texts.specs.Layout.{later_claims, later_file, prefix_bytes};

use crate::bytes::{number_of, push_long, push_word, push_words};
use crate::claim::Claim;
use std::alloc::{AllocError, Global};

/// An input with its count.
#[derive(Clone, Copy)]
pub struct Event {
    pub count: u64,
    pub kind: u32,
    pub value: u32,
}

/// A recording to encode.
#[derive(Clone, Copy)]
pub struct Sketch<'a> {
    /// The words that each page begins with, at most 256; the others are 0.
    pub pages: &'a [&'a [u32]],
    pub events: &'a [Event],
    /// The claims of the checkpoints.
    pub claims: &'a [Claim<'a>],
}

impl<'a> Sketch<'a> {
    /// Returns the same recording up to this checkpoint.
    pub fn up_to(self, checkpoint: usize) -> Sketch<'a>
        ensures claims { result.claims.now ≡ take (checkpoint + 1) self.entry.claims.now }
        ensures pages { result.pages ≡ self.entry.pages }
        ensures events { result.events ≡ self.entry.events }
    {
        let claims = self.claims;
        let count = checkpoint.saturating_add(1).min(claims.len());
        Sketch {
            claims: &claims[..count],
            ..self
        }
    }

    /// Returns the file of version 1.
    #[tactic(auto, unfolding(crate::specs::Layout::first_file))]
    pub fn first_file(&self, alloc: Global) -> Result<Vec<u8>, AllocError>
        ensures { IfOk result (λ file. file.items ≡ first_file self.now) }
    {
        let mut file = self.prefix(alloc, 1)?;
        push_first_claims(alloc, &mut file, self.claims)?;
        push_output(&mut file, self.claims)?;
        Ok(file)
    }

    /// Returns the file of version 2.
    pub fn second_file(&self, alloc: Global) -> Result<Vec<u8>, AllocError>
        ensures { IfOk result (λ file. file.items ≡ later_file 2 self.now) }
    {
        self.later_file(alloc, 2)
    }

    /// Returns the file of version 3.
    pub fn third_file(&self, alloc: Global) -> Result<Vec<u8>, AllocError>
        ensures { IfOk result (λ file. file.items ≡ later_file 3 self.now) }
    {
        self.later_file(alloc, 3)
    }

    /// Returns the file of version 2 or 3.
    #[tactic(auto, unfolding(crate::specs::Layout::later_file))]
    fn later_file(&self, alloc: Global, version: u32) -> Result<Vec<u8>, AllocError>
        ensures { IfOk result (λ file. file.items ≡ later_file version self.now) }
    {
        let mut file = self.prefix(alloc, version)?;
        push_later_claims(alloc, &mut file, version, self.claims)?;
        push_output(&mut file, self.claims)?;
        Ok(file)
    }

    /// Returns the header, the pages and the events.
    #[tactic(auto, unfolding(crate::specs::Layout::prefix_bytes))]
    fn prefix(&self, alloc: Global, version: u32) -> Result<Vec<u8>, AllocError>
        ensures { IfOk result (λ file. file.items ≡ prefix_bytes version self.now) }
    {
        let pages = number_of(self.pages.len());
        let events = number_of(self.events.len());
        let checkpoints = number_of(self.claims.len());
        let mut file = header(alloc, version, pages, events, checkpoints)?;
        push_pages(&mut file, self.pages)?;
        push_events(&mut file, self.events)?;
        Ok(file)
    }
}

/// Appends the pages.
fn push_pages(file: &mut Vec<u8>, pages: &[&[u32]]) -> Result<(), AllocError>
    ensures { OnOk result (file.new.items ≡ file.old.items ++ flat_map (λ page. page_bytes page.now) pages.now) }
{
    for page in pages {
        push_page(file, page)?;
    }
    Ok(())
}

/// Appends a page, with zeros up to its end.
fn push_page(file: &mut Vec<u8>, words: &[u32]) -> Result<(), AllocError>
    ensures { OnOk result (file.new.items ≡ file.old.items ++ page_bytes words.now) }
{
    for i in 0..256 {
        push_word(file, word_at(words, i))?;
    }
    Ok(())
}

fn word_at(words: &[u32], i: usize) -> u32
    ensures { result ≡ slice_index_or words.now i 0 }
{
    if i < words.len() { words[i] } else { 0 }
}

/// Appends the events.
fn push_events(file: &mut Vec<u8>, events: &[Event]) -> Result<(), AllocError>
    ensures { OnOk result (file.new.items ≡ file.old.items ++ flat_map event_bytes events.now) }
{
    for event in events {
        push_event(file, event)?;
    }
    Ok(())
}

fn push_event(file: &mut Vec<u8>, event: &Event) -> Result<(), AllocError>
    ensures { OnOk result (file.new.items ≡ file.old.items ++ event_bytes event.now) }
{
    push_long(file, event.count)?;
    push_words(file, &[event.kind, event.value])
}

/// Appends all output.
fn push_output(file: &mut Vec<u8>, claims: &[Claim]) -> Result<(), AllocError>
    ensures { OnOk result (file.new.items ≡ file.old.items ++ output_bytes claims.now) }
{
    for claim in claims {
        file.extend_from_slice(claim.sent)?;
    }
    Ok(())
}

/// Appends the checkpoints in version 1.
fn push_first_claims(alloc: Global, file: &mut Vec<u8>, claims: &[Claim]) -> Result<(), AllocError>
    ensures { OnOk result (file.new.items ≡ file.old.items ++ flat_map first_bytes claims.now) }
{
    for claim in claims {
        push_first_claim(alloc, file, claim)?;
    }
    Ok(())
}

fn push_first_claim(alloc: Global, file: &mut Vec<u8>, claim: &Claim) -> Result<(), AllocError>
    ensures { OnOk result (file.new.items ≡ file.old.items ++ first_bytes claim.now) }
{
    let mut bytes = claim.first(alloc)?;
    file.append(&mut bytes)
}

/// Appends the checkpoints in version 2 or 3.
#[tactic(auto, using(crate::proofs::Encoded::one_later_more, crate::proofs::Encoded::table_of_one_more))]
fn push_later_claims(
    alloc: Global,
    file: &mut Vec<u8>,
    version: u32,
    claims: &[Claim],
) -> Result<(), AllocError>
    ensures { OnOk result (file.new.items ≡ file.old.items ++ later_claims version (replicate 1024 0) claims.now) }
{
    let mut before = [0; 1024];
    for k in 0..claims.len() {
        let mut bytes = claims[k].later(alloc, version, &before)?;
        file.append(&mut bytes)?;
        before = claims[k].page_ids();
    }
    Ok(())
}

/// Returns the header of a file: its version, and its numbers of pages, events and checkpoints.
pub fn header(
    alloc: Global,
    version: u32,
    pages: u32,
    events: u32,
    checkpoints: u32,
) -> Result<Vec<u8>, AllocError>
    ensures { IfOk result (λ file. file.items ≡ header_bytes version pages events checkpoints) }
{
    let mut file = Vec::new(alloc);
    file.extend_from_slice(b"ORSR")?;
    push_words(&mut file, &[version, pages, events, checkpoints, 0])?;
    Ok(file)
}

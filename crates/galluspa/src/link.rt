//! Where the value of a part comes from, in the memory of a caller.
ghost use Rattle.std.specs.Prelude.{◌≡◌, ◌≤◌, All, IfSome, Some, map};
ghost use Rattle.oberon_past.specs.declared.part.Part.{Part};
ghost use Rattle.oberon_past.specs.Origins.{IsPart};
ghost use Rattle.galluspa.specs.Links.{IsComputedAs, IsLinkAs, IsRawLink};
ghost use Rattle.galluspa.specs.inner.Linking.{HasParts, IsFormed};
ghost use Rattle.galluspa.specs.Writes.{part_of};

use crate::part::{RawPart, raw_part};
use oberon_past::{Computation, Link, Part, Writer};

/// A link from the value of a part to where it comes from: 80 bytes.
#[repr(C)]
#[derive(Clone, Copy)]
pub struct RawLink {
    /// The count of the instruction that wrote the part, or of the input; 0 if nothing did.
    pub count: u64,
    /// The index of the input among those of the past, else 0.
    pub input: u64,
    /// 0 if nothing wrote the part from the first count on, 1 for the instruction of the count, 2 for an input.
    pub how: u32,
    /// The value: that of the input, or the bits of the part that its mask names, after the write or at the first count.
    pub value: u32,
    /// The program counter before the instruction, in words. This and what follows is 0 if no instruction wrote the part.
    pub pc: u32,
    /// 1 if the instruction has a word; 0 if it is beyond RAM, where the machine stops.
    pub has_word: u32,
    /// The word of the instruction, else 0.
    pub word: u32,
    /// The bits of the part that the instruction wrote.
    pub bits: u32,
    /// How many of the origins there are, from 0 to 3.
    pub origins_count: u32,
    /// The parts from which the instruction computed what it wrote, and then fillers.
    pub origins: [RawPart; 3],
}

/// A filler.
const FILLER: RawPart = RawPart {
    kind: 5,
    first: 0,
    mask: 0,
};

/// A link without an instruction.
const EMPTY: RawLink = RawLink {
    count: 0,
    input: 0,
    how: 0,
    value: 0,
    pc: 0,
    has_word: 0,
    word: 0,
    bits: 0,
    origins_count: 0,
    origins: [FILLER; 3],
};

/// Returns parts in the layout of C.
fn raw_parts(parts: &[Part; 3]) -> [RawPart; 3]
    requires { All IsPart parts.now }
    ensures { map part_of result ≡ map (λ (part : Part). Some part) parts.now }
{
    let [first, second, third] = *parts;
    [raw_part(first), raw_part(second), raw_part(third)]
}

/// Returns a link with how an instruction wrote the part.
fn with_computation(link: RawLink, computation: &Computation) -> RawLink
    requires { HasParts computation.now }
    ensures computed { IsComputedAs result computation.now }
    ensures count { result.count ≡ link.count }
    ensures input { result.input ≡ link.input }
    ensures how { result.how ≡ link.how }
    ensures value { result.value ≡ link.value }
    ensures word { result.has_word ≤ 1 }
    ensures origins { result.origins_count ≤ 3 }
{
    let (has_word, word) = match computation.word {
        Some(word) => (1, word),
        None => (0, 0),
    };
    RawLink {
        pc: computation.pc,
        has_word,
        word,
        bits: computation.bits,
        origins_count: computation.origins.count as u32,
        origins: raw_parts(&computation.origins.list),
        ..link
    }
}

/// Returns a link in the layout of C.
pub(crate) fn raw_link(link: &Link) -> RawLink
    requires { IsFormed link.now }
    ensures link { IsLinkAs result link.now }
    ensures form { IsRawLink result }
{
    let empty = RawLink {
        value: link.value,
        ..EMPTY
    };
    let Some(write) = link.write else {
        return empty;
    };
    let count = write.count;
    match write.by {
        Writer::Input(index) => RawLink {
            count,
            input: index as u64,
            how: 2,
            ..empty
        },
        Writer::Instruction => {
            let written = RawLink {
                count,
                how: 1,
                ..empty
            };
            match &link.computation {
                Some(computation) => with_computation(written, computation),
                None => written,
            }
        }
    }
}

//! Reads a draft of a session from JSON of the right shape. Ranges and order are tested in `range` and `events`.

ghost use Rattle.std.specs.Prelude.{◌≡◌, ◌↔◌, All, IsTrue, map, option_map};
ghost use Rattle.serde_json.specs.Data.{no_members};
ghost use Rattle.serde_json.specs.Read.{read};
ghost use Rattle.oberon_session.specs.Draft.{draft_of, known_inputs, version_of};
ghost use Rattle.oberon_session.specs.inner.Drafts.{draft_view, input_view};
ghost use Rattle.oberon_session.specs.inner.Found.{draft_found, is_format, session_found, with_session_member};
ghost use Rattle.oberon_session.specs.inner.FoundViews.{session_found_view};
ghost use Rattle.oberon_session.specs.inner.Taken.{GivesDraft, Takes, all_members, one_value};

use crate::SessionFault;
use crate::draft::{Draft, InputDraft, PageDraft};
use crate::head::{Head, take_head};
use crate::input::inputs;
use crate::list::numbers;
use crate::page::pages;
use crate::start::{StartMembers, start};
use crate::value::{next_key, number, pass, pass_other, text};
use json::{Reader, Scratch};
use risc_devices::kinds::DISK;
use std::alloc::Global;

/// How deep arrays and objects may nest.
const MAX_DEPTH: usize = 127;

/// What the members of a session say that have been read, and whether no other member was among them.
#[derive(Drop)]
pub struct SessionMembers<'a> {
    /// Whether the member `format` is that of sessions.
    pub named: bool,
    pub version: Option<u64>,
    pub start: Option<StartMembers>,
    pub pages: Option<Vec<PageDraft<'a>>>,
    pub inputs: Option<Vec<InputDraft>>,
    pub checkpoints: Option<Vec<u64>>,
    pub only: bool,
}

/// Returns the draft of the session that a text encodes, or `Json` or `Shape`. Strings with escapes are written to `scratch`.
pub fn read_draft<'a>(
    alloc: Global,
    text: &'a str,
    scratch: &'a mut Scratch,
) -> Result<Draft<'a>, SessionFault>
    ensures { GivesDraft text.now result }
{
    let mut reader = Reader::new(text, scratch)?;
    let draft = session(alloc, &mut reader, MAX_DEPTH)?;
    if reader.next().is_some() {
        return Err(SessionFault::Json);
    }
    match draft {
        Some(draft) => Ok(draft),
        None => Err(SessionFault::Shape),
    }
}

/// Takes a value, and returns its draft if it has the shape of a session.
fn session<'a>(
    alloc: Global,
    reader: &mut Reader<'a>,
    depth: usize,
) -> Result<Option<Draft<'a>>, SessionFault>
    ensures { Takes (one_value depth reader.old) reader.new (λ json found. option_map draft_view found ≡ draft_of json) result }
{
    match take_head(reader, depth)? {
        Head::Object(inside) => {
            let mut found = SessionMembers::new();
            found.take_all(alloc, reader, inside)?;
            Ok(found.draft())
        }
        head => pass_other(reader, head),
    }
}

impl<'a> SessionMembers<'a> {
    fn new() -> SessionMembers<'a>
        ensures { session_found_view result ≡ session_found no_members }
    {
        SessionMembers {
            named: false,
            version: None,
            start: None,
            pages: None,
            inputs: None,
            checkpoints: None,
            only: true,
        }
    }

    /// Takes the members of an object, and its end.
    fn take_all(
        &mut self,
        alloc: Global,
        reader: &mut Reader<'a>,
        depth: usize,
    ) -> Result<(), SessionFault>
        requires { session_found_view self.old ≡ session_found no_members }
        ensures { Takes (all_members depth no_members reader.old) reader.new
            (λ members _. session_found_view self.new ≡ session_found members) result }
    {
        'members: while let Some(name) = next_key(reader)? {
            self.take(alloc, reader, name, depth)?;
        }
        Ok(())
    }

    /// Takes the value of a member.
    fn take(
        &mut self,
        alloc: Global,
        reader: &mut Reader<'a>,
        name: &str,
        depth: usize,
    ) -> Result<(), SessionFault>
        ensures { Takes (one_value depth reader.old) reader.new
            (λ json _. session_found_view self.new ≡ with_session_member name.now json (session_found_view self.old)) result }
    {
        match name {
            "format" => {
                self.named = format(reader, depth)?;
                Ok(())
            }
            "version" => {
                self.version = version(reader, depth)?;
                Ok(())
            }
            "start" => {
                self.start = start(alloc, reader, depth)?;
                Ok(())
            }
            "pages" => {
                self.pages = pages(alloc, reader, depth)?;
                Ok(())
            }
            "inputs" => {
                self.inputs = inputs(alloc, reader, depth)?;
                Ok(())
            }
            "checkpoints" => {
                self.checkpoints = numbers(alloc, reader, depth)?;
                Ok(())
            }
            _ => {
                pass(reader, depth)?;
                self.only = false;
                Ok(())
            }
        }
    }

    /// Returns the draft that they say.
    fn draft(self) -> Option<Draft<'a>>
        ensures { option_map draft_view result ≡ draft_found (session_found_view self.entry) }
    {
        if !self.only || !self.named {
            return None;
        }
        let version = self.version?;
        let start = self.start?.draft(version)?;
        let pages = self.pages?;
        let inputs = known_inputs(version, self.inputs?)?;
        Some(Draft {
            version,
            start,
            pages,
            inputs,
            checkpoints: self.checkpoints?,
        })
    }
}

/// Takes a value, and reports whether it is the format of sessions.
fn format(reader: &mut Reader<'_>, depth: usize) -> Result<bool, SessionFault>
    ensures { Takes (one_value depth reader.old) reader.new (λ json found. found ≡ is_format json) result }
{
    match text(reader, depth)? {
        Some(format) => Ok(format == "oberon-session"),
        None => Ok(false),
    }
}

/// Takes a value, and returns it if it is a version: 1, 2 or 3.
fn version(reader: &mut Reader<'_>, depth: usize) -> Result<Option<u64>, SessionFault>
    ensures { Takes (one_value depth reader.old) reader.new (λ json found. found ≡ version_of json) result }
{
    match number(reader, depth)? {
        Some(version) if 1 <= version && version <= 3 => Ok(Some(version)),
        _ => Ok(None),
    }
}

/// Returns inputs, if the version has their kinds: only version 3 has answers of a disk.
fn known_inputs(version: u64, inputs: Vec<InputDraft>) -> Option<Vec<InputDraft>>
    ensures { option_map (λ known. map input_view known.items) result ≡ known_inputs version (map input_view inputs.items) }
{
    if version == 3 {
        return Some(inputs);
    }
    if has_no_answer(&inputs) {
        Some(inputs)
    } else {
        None
    }
}

/// Reports whether no input is an answer of a disk.
fn has_no_answer(inputs: &[InputDraft]) -> bool
    ensures { IsTrue result ↔ All (λ input. ¬ (input.kind ≡ DISK)) inputs.now }
{
    inputs.iter().all(|input| input.kind != DISK)
}

//! The initial state of a session, as its JSON has it.

ghost use Rattle.std.specs.Prelude.{◌≡◌, ◌==◌, Some, if◌then◌else◌, option_map};
ghost use Rattle.risc_devices.specs.declared.disk.TheConstants.{UNANSWERED};
ghost use Rattle.serde_json.specs.Data.{no_members};
ghost use Rattle.oberon_session.specs.inner.Drafts.{start_view};
ghost use Rattle.oberon_session.specs.inner.Found.{fits_version, start_found, start_in, start_object, with_start_member};
ghost use Rattle.oberon_session.specs.inner.FoundViews.{start_found_view};
ghost use Rattle.oberon_session.specs.inner.Taken.{Takes, all_members, one_value};

use crate::SessionFault;
use crate::draft::StartDraft;
use crate::head::{Head, take_head};
use crate::list::numbers;
use crate::value::{next_key, number, pass, pass_other};
use json::Reader;
use risc_devices::UNANSWERED;
use std::alloc::Global;

/// What the members of an initial state say that have been read, and for each version whether no other member was among them than
/// its own.
#[derive(Drop)]
pub struct StartMembers {
    pub registers: Option<Vec<u64>>,
    pub h: Option<u64>,
    pub pc: Option<u64>,
    pub flags: Option<u64>,
    pub rate: Option<u64>,
    pub phase: Option<u64>,
    pub disk: Option<u64>,
    pub fits_version_1: bool,
    pub fits_version_2: bool,
    pub fits_version_3: bool,
}

/// Takes a value, and returns what its members say if it is an object.
pub fn start(
    alloc: Global,
    reader: &mut Reader<'_>,
    depth: usize,
) -> Result<Option<StartMembers>, SessionFault>
    ensures { Takes (one_value depth reader.old) reader.new
        (λ json found. option_map start_found_view found ≡ start_object json) result }
{
    match take_head(reader, depth)? {
        Head::Object(inside) => {
            let mut found = StartMembers::new();
            found.take_all(alloc, reader, inside)?;
            Ok(Some(found))
        }
        head => pass_other(reader, head),
    }
}

impl StartMembers {
    fn new() -> StartMembers
        ensures { start_found_view result ≡ start_found no_members }
    {
        StartMembers {
            registers: None,
            h: None,
            pc: None,
            flags: None,
            rate: None,
            phase: None,
            disk: None,
            fits_version_1: true,
            fits_version_2: true,
            fits_version_3: true,
        }
    }

    /// Takes the members of an object, and its end.
    fn take_all(
        &mut self,
        alloc: Global,
        reader: &mut Reader<'_>,
        depth: usize,
    ) -> Result<(), SessionFault>
        requires { start_found_view self.old ≡ start_found no_members }
        ensures { Takes (all_members depth no_members reader.old) reader.new
            (λ members _. start_found_view self.new ≡ start_found members) result }
    {
        'members: while let Some(name) = next_key(reader)? {
            self.take(alloc, reader, name, depth)?;
        }
        Ok(())
    }

    /// Takes the value of a member.
    fn take(
        &mut self,
        alloc: Global,
        reader: &mut Reader<'_>,
        name: &str,
        depth: usize,
    ) -> Result<(), SessionFault>
        ensures { Takes (one_value depth reader.old) reader.new
            (λ json _. start_found_view self.new ≡ with_start_member name.now json (start_found_view self.old)) result }
    {
        match name {
            "R" => {
                self.registers = numbers(alloc, reader, depth)?;
                Ok(())
            }
            "H" => {
                self.h = number(reader, depth)?;
                Ok(())
            }
            "PC" => {
                self.pc = number(reader, depth)?;
                Ok(())
            }
            "flags" => {
                self.flags = number(reader, depth)?;
                Ok(())
            }
            "rate" => {
                self.rate = number(reader, depth)?;
                self.fits_version_1 = false;
                Ok(())
            }
            "phase" => {
                self.phase = number(reader, depth)?;
                self.fits_version_1 = false;
                Ok(())
            }
            "disk" => {
                self.disk = number(reader, depth)?;
                self.fits_version_1 = false;
                self.fits_version_2 = false;
                Ok(())
            }
            _ => {
                pass(reader, depth)?;
                self.fits_version_1 = false;
                self.fits_version_2 = false;
                self.fits_version_3 = false;
                Ok(())
            }
        }
    }

    /// Returns the initial state that they say in a version.
    pub fn draft(self, version: u64) -> Option<StartDraft>
        ensures { option_map start_view result ≡ start_in version (start_found_view self) }
    {
        if !self.is_only(version) {
            return None;
        }
        let h = self.h?;
        let pc = self.pc?;
        let flags = self.flags?;
        let rate = since_2(version, self.rate)?;
        let phase = since_2(version, self.phase)?;
        let disk = since_3(version, self.disk)?;
        let registers = self.registers?;
        if registers.len() != 16 {
            return None;
        }
        Some(StartDraft {
            registers,
            h,
            pc,
            flags,
            rate,
            phase,
            disk,
        })
    }

    /// Reports whether there are no other members than those of a version.
    fn is_only(&self, version: u64) -> bool
        ensures { result ≡ fits_version version (start_found_view self.now) }
    {
        match version {
            1 => self.fits_version_1,
            3 => self.fits_version_3,
            _ => self.fits_version_2,
        }
    }
}

/// Returns the value of a member that versions 2 and 3 have. In version 1 it is 0.
fn since_2(version: u64, member: Option<u64>) -> Option<u64>
    ensures { result ≡ (if version == 1 then Some 0 else member) }
{
    if version == 1 { Some(0) } else { member }
}

/// Returns the disk's last answer, which version 3 has. In versions 1 and 2 the disk has not answered.
fn since_3(version: u64, member: Option<u64>) -> Option<u64>
    ensures { result ≡ (if version == 3 then member else Some UNANSWERED) }
{
    if version == 3 {
        member
    } else {
        Some(UNANSWERED as u64)
    }
}

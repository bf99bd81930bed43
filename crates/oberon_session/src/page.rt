//! Pages of a session, as its JSON has them.

ghost use Rattle.std.specs.Prelude.{◌≡◌, map, option_map};
ghost use Rattle.serde_json.specs.Data.{no_members, object};
ghost use Rattle.oberon_session.specs.Draft.{page_of, pages_of};
ghost use Rattle.oberon_session.specs.Shape.{each, list_of};
ghost use Rattle.oberon_session.specs.inner.Drafts.{page_view};
ghost use Rattle.oberon_session.specs.inner.Found.{page_found, page_in, with_page_member};
ghost use Rattle.oberon_session.specs.inner.FoundViews.{page_found_view};
ghost use Rattle.oberon_session.specs.inner.Taken.{Takes, all_items, all_members, one_value};

use crate::SessionFault;
use crate::draft::PageDraft;
use crate::head::{Head, take_head};
use crate::list::with_item;
use crate::value::{next_key, number, pass, pass_other, text};
use json::Reader;
use std::alloc::Global;

/// What the members of a page say that have been read, and whether no other member was among them.
#[derive(Clone, Copy)]
pub struct PageMembers<'a> {
    pub at: Option<u64>,
    pub hex: Option<&'a str>,
    pub only: bool,
}

/// Takes a value, and returns its pages if it is an array of pages.
pub fn pages<'a>(
    alloc: Global,
    reader: &mut Reader<'a>,
    depth: usize,
) -> Result<Option<Vec<PageDraft<'a>>>, SessionFault>
    ensures { Takes (one_value depth reader.old) reader.new
        (λ json found. option_map (λ pages. map page_view pages.items) found ≡ pages_of json) result }
{
    match take_head(reader, depth)? {
        Head::Array(inside) => pages_inside(alloc, reader, inside),
        head => pass_other(reader, head),
    }
}

/// Takes the items of an array, and its end. Returns the pages that they are, if each is one.
fn pages_inside<'a>(
    alloc: Global,
    reader: &mut Reader<'a>,
    depth: usize,
) -> Result<Option<Vec<PageDraft<'a>>>, SessionFault>
    ensures { Takes (all_items depth reader.old) reader.new
        (λ items found. option_map (λ pages. map page_view pages.items) found ≡ each page_of (list_of items)) result }
{
    let mut found = Some(Vec::new(alloc));
    'items: while !reader.take_end_array() {
        let item = page(reader, depth)?;
        found = with_item(found, item)?;
    }
    Ok(found)
}

/// Takes a value, and returns it if it is a page.
fn page<'a>(reader: &mut Reader<'a>, depth: usize) -> Result<Option<PageDraft<'a>>, SessionFault>
    ensures { Takes (one_value depth reader.old) reader.new (λ json found. option_map page_view found ≡ page_of json) result }
{
    match take_head(reader, depth)? {
        Head::Object(inside) => {
            let members = page_members(reader, inside)?;
            Ok(members.page())
        }
        head => pass_other(reader, head),
    }
}

/// Takes the members of an object, and its end.
fn page_members<'a>(reader: &mut Reader<'a>, depth: usize) -> Result<PageMembers<'a>, SessionFault>
    ensures { Takes (all_members depth no_members reader.old) reader.new
        (λ members found. page_found_view found ≡ page_found members) result }
{
    let mut found = PageMembers {
        at: None,
        hex: None,
        only: true,
    };
    'members: while let Some(name) = next_key(reader)? {
        found = found.with(reader, name, depth)?;
    }
    Ok(found)
}

impl<'a> PageMembers<'a> {
    /// Takes the value of a member.
    fn with(
        self,
        reader: &mut Reader<'a>,
        name: &str,
        depth: usize,
    ) -> Result<PageMembers<'a>, SessionFault>
        ensures { Takes (one_value depth reader.old) reader.new
            (λ json found. page_found_view found ≡ with_page_member name.now json (page_found_view self.entry)) result }
    {
        match name {
            "at" => Ok(PageMembers {
                at: number(reader, depth)?,
                ..self
            }),
            "hex" => Ok(PageMembers {
                hex: text(reader, depth)?,
                ..self
            }),
            _ => {
                pass(reader, depth)?;
                Ok(PageMembers {
                    only: false,
                    ..self
                })
            }
        }
    }

    /// Returns the page that they say.
    fn page(self) -> Option<PageDraft<'a>>
        ensures { option_map page_view result ≡ page_in (page_found_view self.entry) }
    {
        if !self.only {
            return None;
        }
        Some(PageDraft {
            at: self.at?,
            hex: self.hex?,
        })
    }
}

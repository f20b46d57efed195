ghost use Rattle.std.specs.Prelude.{◌≡◌, []};
ghost use Rattle.mac_base.specs.Input.{Reads};
ghost use Rattle.mac_base.specs.Answers.{TakesAs};
ghost use Rattle.line_names.specs.Faults.{ran_out};
ghost use Rattle.line_names.specs.Format.{has_role, role_by_code, form_fits, form_passes, content_at, contents_at, format_at};

use crate::fault::{LineFault, LineKind};
use mac_base::{Cursor, Form, form_of};
use std::alloc::Global;

/// What a content of an entry is read for (6.2.4.1).
#[derive(Clone, Copy, Debug, PartialEq, Eq)]
pub enum Role {
    /// Its path.
    Path,
    /// The index of its directory.
    Directory,
    /// Nothing.
    Other,
}

/// One content of each entry: what it is for, and how it is spelled.
#[derive(Clone, Copy, Debug, PartialEq, Eq)]
pub struct Content {
    pub role: Role,
    pub form: Form,
}

/// Reads the format of the entries that follow: the number of their contents, and the contents. `Form` names the place where the
/// form of a content is read.
pub fn read_format(alloc: Global, cursor: &mut Cursor<'_>) -> Result<Vec<Content>, LineFault>
    ensures { TakesAs ran_out (λ v. v.items) cursor.new result (format_at cursor.old) }
{
    let count = cursor.u8()?;
    read_contents(alloc, cursor, count)
}

/// Reads so many contents.
fn read_contents(
    alloc: Global,
    cursor: &mut Cursor<'_>,
    count: u8,
) -> Result<Vec<Content>, LineFault>
    ensures { TakesAs ran_out (λ v. v.items) cursor.new result (contents_at count [] cursor.old) }
{
    let mut contents = Vec::new(alloc);
    for _index in 0..count {
        let content = read_content(contents.as_slice(), cursor)?;
        contents.push(content)?;
    }
    Ok(contents)
}

/// Reads the next content after those that were read.
#[tactic(auto, unfolding(crate::specs::Format::content_at))]
fn read_content(contents: &[Content], cursor: &mut Cursor<'_>) -> Result<Content, LineFault>
    ensures { Reads (λ x. x) cursor.new result (content_at contents.now cursor.old) }
{
    let role = role_of(contents, cursor.uleb()?);
    let at = cursor.at() as u64;
    match form_of(cursor.uleb()?) {
        Some(form) if fits(role, form) => Ok(Content { role, form }),
        _ => Err(LineFault::new(at, LineKind::Form)),
    }
}

/// What a content of this type is for. Of two equal types the first counts.
fn role_of(contents: &[Content], code: u64) -> Role
    ensures { result ≡ role_by_code contents.now code }
{
    let role = match code {
        1 => Role::Path,
        2 => Role::Directory,
        _ => return Role::Other,
    };
    if has(contents, role) {
        Role::Other
    } else {
        role
    }
}

/// Whether one of the contents is for this.
pub fn has(contents: &[Content], role: Role) -> bool
    ensures { result ≡ has_role role contents.now }
{
    contents.iter().any(|content| content.role == role)
}

/// Whether a content for this can have this form.
fn fits(role: Role, form: Form) -> bool
    ensures { result ≡ form_fits role form }
{
    match role {
        Role::Path => matches!(form, Form::String | Form::Strp | Form::LineStrp),
        Role::Directory => matches!(form, Form::Data1 | Form::Data2 | Form::Udata),
        Role::Other => passes(form),
    }
}

/// Whether a content of another type can have this form.
fn passes(form: Form) -> bool
    ensures { result ≡ form_passes form }
{
    matches!(
        form,
        Form::String
            | Form::Strp
            | Form::LineStrp
            | Form::Udata
            | Form::Data1
            | Form::Data2
            | Form::Data4
            | Form::Data8
            | Form::Data16
            | Form::Block
    )
}

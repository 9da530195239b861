//! What the bodies of edits are.
ghost use Rattle.std.specs.Prelude.{◌≡◌};
ghost use Rattle.std.specs.List.{before_first, position};
ghost use Rattle.std.specs.Option.{option_map};
ghost use Rattle.edit_paths.specs.Media.{reads_of, is_semicolon, is_of_type, form_type, json_type, media_fits};

use crate::edit::Edit;

/// What an edit reads of the body of its request.
#[derive(Clone, Copy, Debug, PartialEq, Eq)]
pub enum Reads {
    /// Nothing.
    Nothing,
    /// A value of JSON (RFC 8259).
    Json,
    /// The fields of a form (<https://url.spec.whatwg.org/#application/x-www-form-urlencoded>).
    Form,
}

/// What an edit reads: nothing where it removes a row, logs out or rebuilds, a form where it logs in, and else JSON.
pub fn reads_of(edit: &Edit) -> Reads
    ensures { result ≡ reads_of edit.now }
{
    match edit {
        Edit::CreateNode
        | Edit::ChangeNode(_)
        | Edit::CreateTerm
        | Edit::ChangeTerm(_)
        | Edit::CreateUser
        | Edit::ChangeUser(_)
        | Edit::Set(_, _)
        | Edit::SetSite
        | Edit::CreateComment(_)
        | Edit::ChangeComment(_) => Reads::Json,
        Edit::Login => Reads::Form,
        Edit::RemoveNode(_)
        | Edit::RemoveTerm(_)
        | Edit::Remove(_, _)
        | Edit::RemoveComment(_)
        | Edit::Logout
        | Edit::Rebuild => Reads::Nothing,
    }
}

/// Whether a body is of the media type that is read, `application/json` or `application/x-www-form-urlencoded`, by the value
/// of its Content-Type field, without the spaces and tabs round it, if it has that field. What stands before the value's
/// first `;` is compared as it is, but for ASCII case (RFC 9110, section 8.3.1). Where nothing is read every body fits.
#[tactic(auto, unfolding(crate::specs::Media::form_type, crate::specs::Media::json_type))]
pub fn media_fits(reads: Reads, content_type: Option<&[u8]>) -> bool
    ensures { result ≡ media_fits reads (option_map (λ v. v.now) content_type.entry) }
{
    match (reads, content_type) {
        (Reads::Nothing, _) => true,
        (_, None) => false,
        (Reads::Json, Some(value)) => is_of_type(b"application/json", value),
        (Reads::Form, Some(value)) => is_of_type(b"application/x-www-form-urlencoded", value),
    }
}

/// Whether a value names a media type, whatever its parameters.
fn is_of_type(name: &[u8], value: &[u8]) -> bool
    ensures { result ≡ is_of_type name.now value.now }
{
    before_parameters(value).eq_ignore_ascii_case(name)
}

/// What stands before the first semicolon.
fn before_parameters(value: &[u8]) -> &[u8]
    ensures { result.now ≡ before_first is_semicolon value.now }
{
    match first_semicolon(value) {
        Some(end) => &value[..end],
        None => value,
    }
}

/// Where the first semicolon stands.
fn first_semicolon(value: &[u8]) -> Option<usize>
    ensures { result ≡ position is_semicolon value.now }
{
    value.iter().position(|&byte| byte == b';')
}

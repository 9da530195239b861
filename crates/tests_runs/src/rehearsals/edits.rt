//! Edits that requesters make.
ghost use Rattle.std.specs.Prelude.{IfOk};
ghost use Rattle.site_commands.specs.Right.{IsRight};

use crate::rehearsals::asks::name;
use crate::rehearsals::fault::Fault;
use crate::rehearsals::subjects::small;
use cacheability::Name;
use content_rows::Text;
use edit_bodies::{body_of, command_of};
use edit_paths::{Edit, reads_of};
use site_commands::{Command, ConfigKind};
use std::alloc::{AllocError, Global};
use user_roles::csrf_of;

/// The value that guards the forms of a session.
pub fn csrf(alloc: Global, session: Name) -> Result<Text, AllocError> {
    Text::copied(alloc, &csrf_of(&session))
}

/// The edit of a word, on what has this id.
pub fn edit(verb: &[u8], id: &[u8]) -> Result<Edit, Fault> {
    Ok(match verb {
        b"set-block" => Edit::Set(ConfigKind::Block, Some(name(id)?)),
        b"remove-block" => Edit::Remove(ConfigKind::Block, Some(name(id)?)),
        b"remove-node" => Edit::RemoveNode(Some(small(id)?)),
        b"rebuild" => Edit::Rebuild,
        _ => return Err(Fault::Edit),
    })
}

/// The command that an edit with a body is.
pub fn command(alloc: Global, edit: Edit, body: &[u8]) -> Result<Command, Fault>
    ensures { IfOk result IsRight }
{
    match body_of(alloc, reads_of(&edit), body)? {
        Some(body) => match command_of(alloc, &edit, &body, None) {
            Ok(command) => Ok(command),
            Err(_) => Err(Fault::OutOfMemory),
        },
        None => Err(Fault::Body),
    }
}

//! Why something is denied.
ghost use Rattle.std.specs.Prelude.{◌≡◌, ◌↔◌, ◌++◌, IfOk, IsTrue};

use cacheability::{Name, Op};
use std::alloc::{AllocError, Global};
use std::marker::Model;

/// The text of a permission, as `access content`. Contracts see its bytes.
#[derive(Debug)]
pub struct PermissionText {
    bytes: Vec<u8>,
}

impl Drop for PermissionText {
    fn drop(self) {
        let PermissionText { bytes: _ } = self;
    }
}

impl Model for PermissionText {
    ghost use Rattle.std.specs.Prelude.{List, ℕ};

    ghost Value = { List ℕ };

    ghost view = { λ p. p.bytes.items };
}

impl PermissionText {
    /// The permission of this text, which it takes as it is, with no memory of its own.
    pub fn from_vec(bytes: Vec<u8>) -> PermissionText
        ensures { result ≡ bytes.items }
    {
        PermissionText { bytes }
    }

    /// A permission of a copy of this text. `Err` only where memory is wanting.
    pub fn copied(alloc: Global, text: &[u8]) -> Result<PermissionText, AllocError>
        ensures { IfOk result (λ p. p ≡ text.now) }
    {
        Ok(PermissionText {
            bytes: Vec::from_slice(alloc, text)?,
        })
    }

    /// A copy of the permission's text. `Err` only where memory is wanting.
    pub fn duplicate(&self, alloc: Global) -> Result<PermissionText, AllocError>
        ensures { IfOk result (λ p. p ≡ self.now) }
    {
        PermissionText::copied(alloc, self.as_slice())
    }

    /// The text's bytes.
    pub fn as_slice(&self) -> &[u8]
        ensures { result.now ≡ self.now }
    {
        self.bytes.as_slice()
    }
}

/// Why something is denied.
#[derive(Debug)]
pub enum Reason {
    /// The viewer lacks a permission.
    Permission(PermissionText),
    /// No grant of the viewer allows the operation on the node of this number.
    Grant(Op, u32),
    /// Only the owner may use the field of this name.
    OwnerOnly(Name),
    /// No user has that name and password.
    Unrecognized,
    /// The viewer has no session.
    NoSession,
}

impl Drop for Reason {
    fn drop(self) {
        match self {
            Reason::Permission(_) => {}
            Reason::Grant(_, _) => {}
            Reason::OwnerOnly(_) => {}
            Reason::Unrecognized => {}
            Reason::NoSession => {}
        }
    }
}

impl Reason {
    ghost use Rattle.access_result.specs.Reason.{reason_text, op_text};

    /// The text of the reason. `Err` only where memory is wanting.
    #[tactic(auto, unfolding(crate::specs::Reason::permission_start, crate::specs::Reason::permission_end, crate::specs::Reason::grant_start, crate::specs::Reason::grant_between, crate::specs::Reason::grant_end, crate::specs::Reason::owner_start, crate::specs::Reason::owner_end, crate::specs::Reason::unrecognized, crate::specs::Reason::no_session))]
    pub fn text(&self, alloc: Global) -> Result<Vec<u8>, AllocError>
        ensures { IfOk result (λ text. text.items ≡ reason_text self.now) }
    {
        match self {
            Reason::Permission(permission) => quoted(
                alloc,
                b"The '",
                permission.as_slice(),
                b"' permission is required.",
            ),
            Reason::Grant(op, nid) => {
                let digits = format!(in alloc; "{nid}")?;
                let mut text = quoted(alloc, b"A '", Reason::op_name(*op), b"' grant for node ")?;
                text.extend_from_slice(digits.as_bytes())?;
                text.extend_from_slice(b" is required.")?;
                Ok(text)
            }
            Reason::OwnerOnly(field) => quoted(
                alloc,
                b"Only the owner may use the field '",
                field.as_bytes(),
                b"'.",
            ),
            Reason::Unrecognized => {
                Vec::from_slice(alloc, b"Unrecognized username or password.")
            }
            Reason::NoSession => Vec::from_slice(alloc, b"A session is required."),
        }
    }

    /// A copy of the reason. `Err` only where memory is wanting.
    pub fn duplicate(&self, alloc: Global) -> Result<Reason, AllocError>
        ensures { IfOk result (λ reason. reason ≡ self.now) }
    {
        Ok(match self {
            Reason::Permission(permission) => Reason::Permission(permission.duplicate(alloc)?),
            Reason::Grant(op, nid) => Reason::Grant(*op, *nid),
            Reason::OwnerOnly(field) => Reason::OwnerOnly(*field),
            Reason::Unrecognized => Reason::Unrecognized,
            Reason::NoSession => Reason::NoSession,
        })
    }

    /// The name of an operation.
    #[tactic(auto, unfolding(crate::specs::Reason::op_text))]
    fn op_name(op: Op) -> &'static [u8]
        ensures { result.now ≡ op_text op }
    {
        match op {
            Op::View => b"view",
            Op::Update => b"update",
            Op::Delete => b"delete",
        }
    }
}

/// A text between two others.
fn quoted(alloc: Global, before: &[u8], text: &[u8], after: &[u8]) -> Result<Vec<u8>, AllocError>
    ensures { IfOk result (λ whole. whole.items ≡ before.now ++ text.now ++ after.now) }
{
    let mut whole = Vec::from_slice(alloc, before)?;
    whole.extend_from_slice(text)?;
    whole.extend_from_slice(after)?;
    Ok(whole)
}

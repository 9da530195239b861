//! What a request is for.
ghost use Rattle.std.specs.Prelude.{◌≡◌, IfOk, false};
ghost use Rattle.site_http.specs.Called.{ask_of, called, called_by, called_of, called_whole, get};

use content_rows::Text;
use content_state::Ask;
use edit_bodies::{Body, body_of};
use edit_paths::{Edit, EditPaths, media_fits, reads_of};
use http_heads::{Octets, Request};
use std::alloc::{AllocError, Global};

/// The answer to a call that changes nothing, on the state that it reads.
#[derive(Clone, Copy, Debug, PartialEq, Eq)]
pub enum Reading {
    /// The page of the path.
    Page,
    /// That the method and the path name nothing that is served.
    NoPairing,
    /// That the body is of another media type than the edit reads.
    NoMedia,
    /// That the body is no object of JSON.
    BadJson,
}

/// What a request is for.
#[derive(Drop)]
pub enum Call {
    /// To read the newest state.
    Reading(Reading),
    /// To change it: an edit, and what its body says.
    Edit(Edit, Body),
}

/// A request as the site sees it.
#[derive(Drop)]
pub struct Asked {
    pub call: Call,
    /// The value that was sent to guard the forms of a session.
    pub csrf: Option<Octets>,
    pub ask: Ask,
}

/// An edit that the method and the path name, where its body is what it reads.
fn call_by(alloc: Global, request: &Request, edit: Edit) -> Result<Call, AllocError>
    ensures { IfOk result (λ c. called_of c request.now.csrf ≡ called_by request.now (Some edit)) }
{
    let reads = reads_of(&edit);
    let content_type = match &request.content_type {
        Some(value) => Some(value.as_slice()),
        None => None,
    };
    if !media_fits(reads, content_type) {
        return Ok(Call::Reading(Reading::NoMedia));
    }
    match body_of(alloc, reads, request.body.as_slice())? {
        Some(body) => Ok(Call::Edit(edit, body)),
        None => Ok(Call::Reading(Reading::BadJson)),
    }
}

/// What a request is for that doesn't ask for parts sent late. `Err` only where memory is wanting.
#[tactic(auto, unfolding(crate::specs::Called::get, crate::specs::Called::called_whole))]
fn call_of(alloc: Global, paths: &EditPaths, request: &Request) -> Result<Call, AllocError>
    ensures { IfOk result (λ c. called_of c request.now.csrf ≡ called_whole request.now) }
{
    if request.method.as_slice() == b"GET".as_slice() {
        return Ok(Call::Reading(Reading::Page));
    }
    match paths.paired(request.method.as_slice(), request.path.as_slice()) {
        Some(edit) => call_by(alloc, request, edit),
        None => Ok(Call::Reading(Reading::NoPairing)),
    }
}

/// From where a request is asked, and the value that it sent to guard the forms of a session.
pub fn asks_of(request: Request) -> (Ask, Option<Octets>)
    ensures ask { result.0 ≡ ask_of request }
    ensures csrf { result.1 ≡ request.csrf }
{
    let ask = Ask {
        target: Text::from_vec(request.target.into_vec()),
        path: Text::from_vec(request.path.into_vec()),
        query: Text::from_vec(request.query.into_vec()),
        cookie: request.session,
    };
    (ask, request.csrf)
}

/// What a request is for that doesn't ask for parts sent late, and from where it is asked. `Err` only where memory is wanting.
#[tactic(auto, unfolding(crate::specs::Called::called))]
pub fn asked_by(alloc: Global, paths: &EditPaths, request: Request) -> Result<Asked, AllocError>
    requires { request.late ≡ false }
    ensures call { IfOk result (λ a. called_of a.call a.csrf ≡ called request) }
    ensures ask { IfOk result (λ a. a.ask ≡ ask_of request) }
{
    let call = call_of(alloc, paths, &request)?;
    let (ask, csrf) = asks_of(request);
    Ok(Asked { call, csrf, ask })
}

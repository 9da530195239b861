//! Turns, as lines tell them.
ghost use Rattle.std.specs.Prelude.{IfOk, All};
ghost use Rattle.site_rehearsal.specs.Rehearsed.{MayAct, MayTake};

use crate::rehearsals::asks::{ask, moment, name};
use crate::rehearsals::edits::{command, csrf, edit};
use crate::rehearsals::fault::Fault;
use crate::rehearsals::keys::key;
use crate::rehearsals::subjects::{bin, element, small, target};
use case_files::first_word;
use content_state::State;
use site_rehearsal::{Act, Turn};
use std::alloc::{AllocError, Global};
use std::marker::Model;

/// Turns that may be taken, in order.
pub struct Turns {
    list: Vec<Turn>,
}

impl Drop for Turns {
    fn drop(self) {
        let Turns { list: _ } = self;
    }
}

impl Model for Turns {
    ghost use Rattle.std.specs.Prelude.{List, All};
    ghost use Rattle.site_rehearsal.specs.Rehearsed.{MayTake};
    ghost use Rattle.site_rehearsal.specs.declared.turn.Turn.{Turn};

    ghost Value = { List Turn };

    ghost view = { λ t. t.list.items };

    ghost invariant = { λ t. All MayTake t.list.items };
}

impl Turns {
    /// A list of turns in which none is yet.
    pub fn new(alloc: Global) -> Turns {
        Turns {
            list: Vec::new(alloc),
        }
    }

    /// A turn behind those that are there.
    pub fn push(&mut self, turn: Turn) -> Result<(), AllocError>
        requires { MayTake turn }
    {
        self.list.push(turn)?;
        Ok(())
    }

    /// The turns.
    pub fn as_slice(&self) -> &[Turn]
        ensures { All MayTake result.now }
    {
        self.list.as_slice()
    }
}

/// Something is looked for.
fn look(alloc: Global, state: &State, line: &[u8]) -> Result<Act, Fault>
    ensures { IfOk result MayAct }
{
    let (kind, rest) = first_word(line);
    let (id, rest) = first_word(rest);
    let (session, rest) = first_word(rest);
    let (now, contexts) = first_word(rest);
    let element = element(kind, id)?;
    let now = moment(now)?;
    let ask = ask(alloc, target(element, id), name(session)?)?;
    match key(alloc, state, element, id, &ask, now, contexts) {
        Ok(key) => Ok(Act::Look {
            bin: bin(element),
            key,
            ask,
            now,
        }),
        Err(fault) => Err(fault),
    }
}

/// An element is built.
fn build(alloc: Global, line: &[u8]) -> Result<Act, Fault>
    ensures { IfOk result MayAct }
{
    let (kind, rest) = first_word(line);
    let (id, rest) = first_word(rest);
    let (session, now) = first_word(rest);
    let element = element(kind, id)?;
    let now = moment(now)?;
    let ask = ask(alloc, target(element, id), name(session)?)?;
    Ok(Act::Build { element, ask, now })
}

/// An edit is made.
fn commit(alloc: Global, line: &[u8]) -> Result<Act, Fault>
    ensures { IfOk result MayAct }
{
    let (session, rest) = first_word(line);
    let (now, rest) = first_word(rest);
    let session = name(session)?;
    let now = moment(now)?;
    let (verb, rest) = first_word(rest);
    let (id, body) = first_word(rest);
    let edit = edit(verb, id)?;
    let csrf = csrf(alloc, session)?;
    let ask = ask(alloc, b"/", session)?;
    match command(alloc, edit, body) {
        Ok(command) => Ok(Act::Commit {
            command,
            csrf: Some(csrf),
            ask,
            now,
        }),
        Err(fault) => Err(fault),
    }
}

/// What a requester does by a line.
fn act(alloc: Global, state: &State, line: &[u8]) -> Result<Act, Fault>
    ensures { IfOk result MayAct }
{
    let (word, rest) = first_word(line);
    match word {
        b"snapshot" => Ok(Act::Snapshot),
        b"keep" => Ok(Act::Keep),
        b"look" => look(alloc, state, rest),
        b"build" => build(alloc, rest),
        b"commit" => commit(alloc, rest),
        _ => Err(Fault::Turn),
    }
}

/// A turn, as its line tells it.
fn turn(alloc: Global, state: &State, line: &[u8]) -> Result<Turn, Fault>
    ensures { IfOk result MayTake }
{
    let (requester, rest) = first_word(line);
    let requester = small(requester)?;
    Ok(Turn {
        requester,
        act: act(alloc, state, rest)?,
    })
}

/// Adds the turns that lines tell.
pub fn add_turns(
    alloc: Global,
    state: &State,
    lines: &[&[u8]],
    turns: &mut Turns,
) -> Result<(), Fault> {
    for line in lines {
        turns.push(turn(alloc, state, line)?)?;
    }
    Ok(())
}

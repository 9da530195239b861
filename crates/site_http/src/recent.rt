//! Replies that were given not long ago, and may be given again.
ghost use Rattle.std.specs.Prelude.{◌≡◌, ◌<◌, ◌↔◌, IfOk, IfSome, IsTrue};
ghost use Rattle.std.specs.Arc.{arc_value};
ghost use Rattle.content_state.specs.Ask.{IsAsk};
ghost use Rattle.content_state.specs.State.{State as StateView};
ghost use Rattle.content_state.specs.Viewer.{nobody};
ghost use Rattle.element_entries.specs.Standing.{IsStandingOf};
ghost use Rattle.site_house.specs.House.{HouseView};
ghost use Rattle.site_house.specs.Bins.{IsSeenIn};
ghost use Rattle.http_heads.specs.declared.request.Request.{Request};
ghost use Rattle.site_http.specs.Known.{Begins, IsAskedBy, IsKnown, IsPlain};
ghost use Rattle.site_http.specs.Recent.{given_bytes, page_bytes, Fits, IsRecent, AreRecent, IsReplyUntil};

use crate::call::Asked;
use crate::known::KnownRequest;
use content_rows::{Duplicate, Text};
use content_state::{Ask, State, Viewer};
use element_entries::Standing;
use renderer::Parts;
use std::alloc::{AllocError, Global};
use std::marker::Model;
use std::sync::Arc;

/// How many replies are remembered, at most.
const PLACES: usize = 64;

/// The reply of a page: its head, and its body in the pieces that it was put together from, which are shared.
pub struct PageReply {
    pub head: Vec<u8>,
    pub body: Parts,
}

impl Drop for PageReply {
    fn drop(self) {
        let PageReply { head: _, body: _ } = self;
    }
}

/// The reply of a page that may be given again as it is: to a request for the same target without a cookie, on the state of
/// this number, at a moment between these, in seconds since 1970 (RFC 9111, section 4.2).
#[derive(Drop)]
pub struct RecentReply {
    pub target: Text,
    pub number: u64,
    pub from: u64,
    pub until: u64,
    pub page: PageReply,
}

impl RecentReply {
    /// Whether it may be given to a request, on the state of a number, at a moment.
    fn fits(&self, ask: &Ask, number: u64, now: u64) -> bool
        ensures { IsTrue result ↔ Fits self.now number ask.now now }
    {
        self.number == number
            && self.from <= now
            && now <= self.until
            && ask.cookie.is_none()
            && self.target.equals(&ask.target)
    }
}

/// A reply that changes nothing: a text that is one piece, the reply of a page, or one that may be given again, which is shared.
#[derive(Drop)]
pub enum Given {
    Text(Vec<u8>),
    Page(PageReply),
    Again(Arc<RecentReply>),
}

/// The place of a target among those of replies, by the hash of Fowler, Noll and Vo.
/// <https://www.rfc-editor.org/rfc/rfc9923>
fn place_of(target: &[u8]) -> usize
    ensures { result < PLACES }
{
    let mut hash: u64 = 0xcbf2_9ce4_8422_2325;
    'bytes: for byte in target {
        hash = (hash ^ u64::from(*byte)).wrapping_mul(0x0100_0000_01b3);
    }
    (hash % PLACES as u64) as usize
}

/// Nobody, as it stands on the state of a number.
#[derive(Drop)]
pub struct Nobody {
    pub number: u64,
    pub standing: Standing,
}

/// The replies that a worker gave not long ago and may give again, each at the place of its target, where a later one takes its
/// place, a request that came not long ago, and nobody, as it stands on the state that it asked last. Contracts see the list of these
/// places, the request, and nobody.
pub struct RecentReplies {
    places: Vec<Option<Arc<RecentReply>>>,
    known: Option<Arc<KnownRequest>>,
    nobody: Option<Nobody>,
}

impl Drop for RecentReplies {
    fn drop(self) {
        let RecentReplies {
            places: _,
            known: _,
            nobody: _,
        } = self;
    }
}

impl Model for RecentReplies {
    ghost use Rattle.std.specs.Prelude.{List, Option};
    ghost use Rattle.std.specs.declared.sync.Arc.{Arc};
    ghost use Rattle.std.specs.declared.alloc.Global.{Global};
    ghost use Rattle.site_http.specs.declared.known.KnownRequest.{KnownRequest};
    ghost use Rattle.site_http.specs.declared.recent.Nobody.{Nobody};
    ghost use Rattle.site_http.specs.declared.recent.RecentReply.{RecentReply};
    ghost use Rattle.serde_json.specs.contracts.value.Value as e;
    ghost use Rattle.std.specs.Coded.{codes};

    ghost Value = { List (Option (Arc RecentReply Global)) × Option (Arc KnownRequest Global) × Option Nobody };

    ghost coded = { Prim.hlevel (codes, e.the_row.coded) };

    ghost view = { λ r. (r.places.items, r.known, r.nobody) };
}

impl RecentReplies {
    /// Places for replies, none of which is remembered yet. `Err` only where memory is wanting.
    pub fn new(alloc: Global) -> Result<RecentReplies, AllocError>
        ensures { IfOk result (λ recent. (house : HouseView) → AreRecent house recent) }
    {
        let mut places = Vec::with_capacity(alloc, PLACES)?;
        'places: for _ in 0..PLACES {
            places.push(None)?;
        }
        Ok(RecentReplies {
            places,
            known: None,
            nobody: None,
        })
    }

    /// Meets nobody on a state, unless it is remembered there. Something that is asked for is named. `Err` only where memory is wanting.
    pub fn meet(&mut self, alloc: Global, state: &State, ask: &Ask) -> Result<(), AllocError>
        ensures { (house : HouseView) → IsSeenIn house state.now → AreRecent house self.old → AreRecent house self.new }
    {
        if self.nobody(state.number()).is_some() {
            return Ok(());
        }
        let viewer = Viewer {
            uid: 0,
            session: None,
        };
        let standing = Standing::new(alloc, state, &viewer, ask)?;
        self.nobody = Some(Nobody {
            number: state.number(),
            standing,
        });
        Ok(())
    }

    /// Nobody, as it stands on the state of a number, where it is remembered there.
    pub fn nobody(&self, number: u64) -> Option<&Standing>
        ensures { IfSome result (λ standing. (house : HouseView) → (state : StateView) → AreRecent house self.now → IsSeenIn house state → state.number ≡ number → IsStandingOf state nobody standing.now) }
    {
        match &self.nobody {
            Some(nobody) if nobody.number == number => Some(&nobody.standing),
            _ => None,
        }
    }

    /// The request that bytes begin with, where it is the known one.
    pub fn known(&self, bytes: &[u8]) -> Option<Arc<KnownRequest>>
        ensures begins { IfSome result (λ known. Begins (arc_value known) bytes.now) }
        ensures known { IfSome result (λ known. (house : HouseView) → AreRecent house self.now → IsKnown (arc_value known)) }
    {
        let Some(known) = &self.known else {
            return None;
        };
        if known.begins(bytes) {
            Arc::try_clone(known).ok()
        } else {
            None
        }
    }

    /// Knows a request from now on by its bytes, where they are given, unless memory is wanting for that.
    pub fn learn(&mut self, alloc: Global, bytes: Option<Vec<u8>>, asked: Asked)
        ensures { (house : HouseView) → (request : Request) → IfSome bytes (λ b. IsPlain b.items request) → IsAskedBy request asked → AreRecent house self.old → AreRecent house self.new }
    {
        let Some(bytes) = bytes else {
            return;
        };
        if let Ok(known) = Arc::new(alloc, KnownRequest { bytes, asked }) {
            self.known = Some(known);
        }
    }

    /// The reply that may be given again to a request, on the state of a number, at a moment, where it is remembered.
    pub fn find(&self, ask: &Ask, number: u64, now: u64) -> Option<Arc<RecentReply>>
        ensures fits { IfSome result (λ reply. Fits (arc_value reply) number ask.now now) }
        ensures recent { IfSome result (λ reply. (house : HouseView) → AreRecent house self.now → IsRecent house (arc_value reply)) }
    {
        let Some(Some(reply)) = self.places.get(place_of(ask.target.as_slice())) else {
            return None;
        };
        if reply.fits(ask, number, now) {
            Arc::try_clone(reply).ok()
        } else {
            None
        }
    }

    /// Remembers a reply, at the place of its target.
    fn remember(&mut self, reply: &Arc<RecentReply>)
        ensures { (house : HouseView) → AreRecent house self.old → IsRecent house (arc_value reply.now) → AreRecent house self.new }
    {
        let place = place_of(reply.target.as_slice());
        if let Ok(shared) = Arc::try_clone(reply)
            && place < self.places.len()
        {
            self.places[place] = Some(shared);
        }
    }

    /// Gives a reply on, and remembers it where it is that of a page which may be given again until a last moment, unless memory is
    /// wanting for that. It was made on the state of a number, at a moment.
    pub fn given(
        &mut self,
        alloc: Global,
        ask: &Ask,
        number: u64,
        now: u64,
        given: Given,
        last: Option<u64>,
    ) -> Given
        ensures text { given_bytes result ≡ given_bytes given }
        ensures recent { (house : HouseView) → (state : StateView) → IsSeenIn house state → state.number ≡ number → IsAsk ask.now → IfSome last (λ l. IsReplyUntil state ask.now now l (given_bytes given)) → AreRecent house self.old → AreRecent house self.new }
    {
        let Some(until) = last else {
            return given;
        };
        match given {
            Given::Page(page) => self.shared(alloc, ask, number, now, until, page),
            Given::Text(text) => Given::Text(text),
            Given::Again(reply) => Given::Again(reply),
        }
    }

    /// The reply of a page that may be given again until a last moment: it is remembered, unless memory is wanting for that.
    fn shared(
        &mut self,
        alloc: Global,
        ask: &Ask,
        number: u64,
        now: u64,
        until: u64,
        page: PageReply,
    ) -> Given
        ensures text { given_bytes result ≡ page_bytes page }
        ensures recent { (house : HouseView) → (state : StateView) → IsSeenIn house state → state.number ≡ number → IsAsk ask.now → IsReplyUntil state ask.now now until (page_bytes page) → AreRecent house self.old → AreRecent house self.new }
    {
        let Ok(target) = ask.target.duplicate(alloc) else {
            return Given::Page(page);
        };
        let reply = RecentReply {
            target,
            number,
            from: now,
            until,
            page,
        };
        match Arc::new(alloc, reply) {
            Ok(shared) => {
                self.remember(&shared);
                Given::Again(shared)
            }
            Err(refused) => Given::Page(refused.value.page),
        }
    }
}

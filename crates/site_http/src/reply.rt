//! The text of a reply on a state.
ghost use Rattle.std.specs.Prelude.{◌≡◌, IfOk, IfSome, IsTrue, None, false, length};
ghost use Rattle.content_state.specs.Ask.{IsAsk};
ghost use Rattle.site_house.specs.House.{Moves, Stays};
ghost use Rattle.site_house.specs.Bins.{IsSeenIn};
ghost use Rattle.site_http.specs.Kept.{Needing};
ghost use Rattle.site_late.specs.Heads.{media_of};
ghost use Rattle.site_http.specs.Reply.{page_head, method_body, method_text, IsPageReply, Says};
ghost use Rattle.site_http.specs.Recent.{given_bytes, AreRecent, IsReplyUntil};
ghost use Rattle.http_heads.specs.Reply.{reply_text, is_reply_status};

use crate::call::Reading;
use crate::recent::{Given, PageReply, RecentReplies};
use crate::shown::shown_page;
use content_state::{Ask, State};
use edit_replies::{bad_json_text, media_text};
use http_heads::{CookieOut, Media, ReplyHead, reply_head};
use kept_pages::Page;
use site_house::House;
use site_late::{head_of, media_of};
use std::alloc::{AllocError, Global};

/// More bytes than most heads have.
const HEAD_ROOM: usize = 320;

/// A head and a body.
fn text_of(alloc: Global, head: &ReplyHead, body: &[u8]) -> Result<Vec<u8>, AllocError>
    requires { IsTrue (is_reply_status head.now.status) }
    ensures { IfOk result (λ v. v.items ≡ reply_text head.now body.now) }
{
    let mut text = Vec::with_capacity(alloc, body.len().saturating_add(HEAD_ROOM))?;
    reply_head(alloc, &mut text, head)?;
    text.extend_from_slice(body)?;
    Ok(text)
}

/// No longer body is remembered with its reply, in bytes.
const LONGEST: u128 = 65_536;

/// A reply, how many elements were built for it, up to the greatest u64, and until which moment, in seconds since 1970, it may be
/// given again, if it may.
#[derive(Drop)]
pub struct Reply {
    pub given: Given,
    pub built: u64,
    pub last: Option<u64>,
}

/// Until when the reply of a page may be given again that may be shown until a last moment: where no cookie was sent, the
/// connection goes on, the page isn't long, and it may be shown later than now.
fn until(ask: &Ask, closing: bool, page: &Page, now: u64) -> Option<u64>
    ensures { IfSome result (λ last. (last ≡ page.now.last) × (closing ≡ false) × (ask.now.cookie ≡ None)) }
{
    if closing || ask.cookie.is_some() || page.length > LONGEST || page.last <= now {
        None
    } else {
        Some(page.last)
    }
}

/// The reply of a page.
fn page_reply<H: House>(
    alloc: Global,
    house: &mut H,
    recent: &mut RecentReplies,
    state: &State,
    ask: &Ask,
    now: u64,
    closing: bool,
) -> Result<Reply, AllocError>
    requires seen { IsSeenIn (H.sees house.old) state.now }
    requires right { IsAsk ask.now }
    requires recent { AreRecent (H.sees house.old) recent.old }
    ensures moves { Moves (H.sees house.old) (H.sees house.new) }
    ensures stays { Stays (H.sees house.old) (H.sees house.new) }
    ensures says { IfOk result (λ r. Needing (H.sees house.old) (H.sees house.new) (λ needs. IsPageReply state.now ask.now now closing (given_bytes r.given) r.built needs)) }
    ensures again { IfOk result (λ r. IfSome r.last (λ last. IsReplyUntil state.now ask.now now last (given_bytes r.given))) }
    ensures recent { AreRecent (H.sees house.new) recent.new }
{
    let page = shown_page(alloc, house, recent, state, ask, now)?;
    let head = ReplyHead {
        status: page.status,
        media: media_of(ask.path.as_slice()),
        length: Some(page.length),
        location: None,
        cookie: CookieOut::Nothing,
        allow: false,
        state: Some(state.number()),
        close: closing,
    };
    let head = head_of(alloc, &head)?;
    let last = until(ask, closing, &page, now);
    Ok(Reply {
        given: Given::Page(PageReply {
            head,
            body: page.parts,
        }),
        built: page.built,
        last,
    })
}

/// The reply to a method that isn't served.
#[tactic(auto, unfolding(crate::specs::Reply::method_body))]
fn method_reply(alloc: Global, number: u64, closing: bool) -> Result<Reply, AllocError>
    ensures text { IfOk result (λ r. given_bytes r.given ≡ method_text number closing) }
    ensures built { IfOk result (λ r. r.built ≡ 0) }
    ensures last { IfOk result (λ r. r.last ≡ None) }
{
    let head = ReplyHead {
        status: 405,
        media: Media::Json,
        length: Some(17),
        location: None,
        cookie: CookieOut::Nothing,
        allow: true,
        state: Some(number),
        close: closing,
    };
    let text = text_of(alloc, &head, b"{\"code\":\"method\"}")?;
    Ok(Reply {
        given: Given::Text(text),
        built: 0,
        last: None,
    })
}

/// What is answered on a state that the house has seen, at a moment, without changing it.
#[tactic(auto, using(site_house::proofs::Moving::moves_same, crate::proofs::Made::stays_same, crate::proofs::Kept::needs_nothing))]
pub fn reply_on<H: House>(
    alloc: Global,
    house: &mut H,
    recent: &mut RecentReplies,
    state: &State,
    reading: Reading,
    ask: &Ask,
    now: u64,
    closing: bool,
) -> Result<Reply, AllocError>
    requires seen { IsSeenIn (H.sees house.old) state.now }
    requires right { IsAsk ask.now }
    requires recent { AreRecent (H.sees house.old) recent.old }
    ensures moves { Moves (H.sees house.old) (H.sees house.new) }
    ensures stays { Stays (H.sees house.old) (H.sees house.new) }
    ensures says { IfOk result (λ r. Needing (H.sees house.old) (H.sees house.new) (λ needs. Says reading state.now ask.now now closing (given_bytes r.given) r.built needs)) }
    ensures again { IfOk result (λ r. IfSome r.last (λ last. IsReplyUntil state.now ask.now now last (given_bytes r.given))) }
    ensures recent { AreRecent (H.sees house.new) recent.new }
{
    match reading {
        Reading::Page => {
            let reply = page_reply(alloc, house, recent, state, ask, now, closing)?;
            Ok(reply)
        }
        Reading::NoPairing => {
            let reply = method_reply(alloc, state.number(), closing)?;
            Ok(reply)
        }
        Reading::NoMedia => {
            let text = media_text(alloc, state.number(), closing)?;
            Ok(Reply {
                given: Given::Text(text),
                built: 0,
                last: None,
            })
        }
        Reading::BadJson => {
            let text = bad_json_text(alloc, state.number(), closing)?;
            Ok(Reply {
                given: Given::Text(text),
                built: 0,
                last: None,
            })
        }
    }
}

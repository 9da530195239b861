//! The reply where what keeps the rows failed: a fixed text.
ghost use Rattle.std.specs.Prelude.{◌≡◌};
ghost use Rattle.edit_replies.specs.Fixed.{keeper_reply, keeper_closing_reply};
ghost use Rattle.edit_replies.specs.Texts.{keeper_text};

/// The keeper failed, and the connection closes.
#[tactic(auto, unfolding(crate::specs::Fixed::keeper_closing_reply))]
fn keeper_and_close() -> &'static [u8]
    ensures { result.now ≡ keeper_closing_reply }
{
    b"HTTP/1.1 503 Service Unavailable\r\nContent-Type: application/json\r\nContent-Length: 17\r\nConnection: close\r\n\r\n{\"code\":\"keeper\"}"
}

/// The keeper failed, and the connection goes on.
#[tactic(auto, unfolding(crate::specs::Fixed::keeper_reply))]
fn keeper_and_go_on() -> &'static [u8]
    ensures { result.now ≡ keeper_reply }
{
    b"HTTP/1.1 503 Service Unavailable\r\nContent-Type: application/json\r\nContent-Length: 17\r\n\r\n{\"code\":\"keeper\"}"
}

/// The reply where what keeps the rows failed (RFC 9110, section 15.6.4). It carries no number of a state, and takes
/// no memory.
#[tactic(auto, using(crate::proofs::Keeper::keeper_is, crate::proofs::Keeper::keeper_closing_is))]
pub fn keeper_text(closing: bool) -> &'static [u8]
    ensures text { result.now ≡ keeper_text closing }
{
    if closing {
        keeper_and_close()
    } else {
        keeper_and_go_on()
    }
}

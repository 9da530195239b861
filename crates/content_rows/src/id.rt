//! Numbers and machine names that texts are.
ghost use Rattle.std.specs.Prelude.{◌≡◌};
ghost use Rattle.content_rows.specs.IdText.{id_of};
ghost use Rattle.content_rows.specs.LiteralName.{name_of};

use cacheability::Name;

/// The id that a text writes in decimal without a leading zero: from 1 to 4,294,967,294.
pub fn id_of(text: &[u8]) -> Option<u32>
    ensures { result ≡ id_of text.now }
{
    let Some(first) = text.first() else {
        return None;
    };
    if *first <= b'0' {
        return None;
    }
    let Ok(digits) = str::from_utf8(text) else {
        return None;
    };
    let Ok(id) = digits.parse::<u32>() else {
        return None;
    };
    if id >= 1 && id <= 4_294_967_294 {
        Some(id)
    } else {
        None
    }
}

/// The machine name that a text is, if it is one.
#[tactic(auto, using(crate::proofs::Names::name_told, crate::proofs::Names::name_none))]
pub fn name_of(text: &[u8]) -> Option<Name>
    ensures { result ≡ name_of text.now }
{
    match Name::new(text) {
        Ok(name) => Some(name),
        Err(_) => None,
    }
}

//! For whom something is shown.
ghost use Rattle.std.specs.Prelude.{◌≡◌, IfOk};
ghost use Rattle.site_access.specs.Account.{IsAccountOf};
ghost use Rattle.element_entries.specs.Standing.{IsStandingOf};

use crate::first::{Declared, first_contexts};
use crate::keys::shared_values;
use crate::standing::Standing;
use cache_contexts::ContextValue;
use content_rows::Items;
use content_state::{Ask, State, Viewer};
use site_access::{Account, Shared};
use std::alloc::{AllocError, Global};
use std::marker::Model;

/// For whom something is shown: on which state, to whom, who asks for what, and when, in seconds since 1970. It has the viewer's
/// account on that state, which is made once for all that is shown.
#[derive(Drop)]
pub struct Reader<'a> {
    pub(crate) state: &'a State,
    pub(crate) account: &'a Account,
    pub(crate) ask: &'a Ask,
    pub(crate) moment: u64,
    /// The values of the required contexts, where they were found: each key of what declares nothing shares them.
    pub(crate) required_values: Option<Shared<Items<ContextValue>>>,
}

impl<'a> Model for Reader<'a> {
    ghost use Rattle.std.specs.Prelude.{◌≡◌, IfSome, map};
    ghost use Rattle.site_access.specs.Account.{IsAccountOf};
    ghost use Rattle.cache_contexts.specs.Values.{visit_on, valued};
    ghost use Rattle.element_entries.specs.Keys.{required};
    ghost use Rattle.element_entries.specs.Readers.{Reader as ReaderValue};

    ghost Value = { ReaderValue };

    ghost view = { λ r. record { state = r.state.now; viewer = r.account.now.viewer; ask = r.ask.now; moment = r.moment } };

    ghost invariant = { λ r. IsAccountOf r.state.now.rows r.account.now.viewer r.account.now × IfSome r.required_values (λ values. values ≡ map (valued (visit_on r.state.now r.account.now.viewer r.ask.now r.moment)) required) };
}

impl<'a> Reader<'a> {
    /// The reader for whom this is the account on a state, and who asks for this at a moment.
    pub fn new(state: &'a State, account: &'a Account, ask: &'a Ask, moment: u64) -> Reader<'a>
        requires { IsAccountOf state.now.rows account.now.viewer account.now }
        ensures { result ≡ record { state = state.now; viewer = account.now.viewer; ask = ask.now; moment = moment } }
    {
        Reader {
            state,
            account,
            ask,
            moment,
            required_values: None,
        }
    }

    /// The reader of a whole page, equal to the one that `new` gives. It bears the values of the required contexts, which are found
    /// once, and each key of what declares nothing shares them. `Err` only where memory is wanting.
    pub fn with_values(
        alloc: Global,
        state: &'a State,
        account: &'a Account,
        ask: &'a Ask,
        moment: u64,
    ) -> Result<Reader<'a>, AllocError>
        requires { IsAccountOf state.now.rows account.now.viewer account.now }
        ensures { IfOk result (λ reader. reader ≡ record { state = state.now; viewer = account.now.viewer; ask = ask.now; moment = moment }) }
    {
        let reader = Reader::new(state, account, ask, moment);
        let first = first_contexts(Declared::Nothing);
        let values = shared_values(alloc, &reader, first.as_slice())?;
        Ok(Reader {
            state,
            account,
            ask,
            moment,
            required_values: Some(values),
        })
    }

    /// The same reader as `new` gives, of the viewer of what stands on the state, whose values of the required contexts it bears. `Err`
    /// only where these are held as often as can be counted.
    pub fn standing(
        state: &'a State,
        standing: &'a Standing,
        ask: &'a Ask,
        moment: u64,
    ) -> Result<Reader<'a>, AllocError>
        requires { IsStandingOf state.now standing.now.account.viewer standing.now }
        ensures { IfOk result (λ reader. reader ≡ record { state = state.now; viewer = standing.now.account.viewer; ask = ask.now; moment = moment }) }
    {
        let values = standing.required_values.share()?;
        Ok(Reader {
            state,
            account: &standing.account,
            ask,
            moment,
            required_values: Some(values),
        })
    }

    /// The state that it reads.
    pub fn state(&self) -> &'a State
        ensures { result.now ≡ self.now.state }
    {
        self.state
    }

    /// The account of its viewer on that state.
    pub fn account(&self) -> &'a Account
        ensures { IsAccountOf self.now.state.rows self.now.viewer result.now }
    {
        self.account
    }

    /// Its viewer.
    pub fn viewer(&self) -> &'a Viewer
        ensures { result.now ≡ self.now.viewer }
    {
        &self.account.viewer
    }

    /// What it asks for.
    pub fn ask(&self) -> &'a Ask
        ensures { result.now ≡ self.now.ask }
    {
        self.ask
    }

    /// When it does, in seconds since 1970.
    pub fn moment(&self) -> u64
        ensures { result ≡ self.now.moment }
    {
        self.moment
    }
}

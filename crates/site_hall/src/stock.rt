//! What a hall keeps of pages.
ghost use Rattle.std.specs.Prelude.{◌≡◌, ◌<◌, IfOk, IfErr, OnOk, OnErr};
ghost use Rattle.std.specs.NonZero.{non_zero_usize_get};
ghost use Rattle.site_hall.specs.Stock.{looked, tally_in, Finds, Puts};
ghost use Rattle.site_hall.specs.Opened.{stock_with, stock_in};

use crate::tally::Tally;
use cache_entries::{Bin, Found, Kept, Key};
use fragment_cache::Bins;
use std::alloc::{AllocError, AllocFailed, Global};
use std::marker::Model;
use std::num::NonZeroUsize;

/// How many things each bin has room for.
/// <https://www.drupal.org/docs/drupal-apis/cache-api/cache-api>
#[derive(Clone, Copy)]
pub struct Rooms {
    /// How many parts of pages.
    pub fragments: NonZeroUsize,
    /// How many pages by their paths.
    pub dynamic: NonZeroUsize,
    /// How many pages by their targets.
    pub anonymous: NonZeroUsize,
}

impl Rooms {
    /// The rooms of the program's bins: 4,096 parts of pages, 1,024 pages by their paths and 1,024 by their targets.
    pub fn of_program() -> Rooms
        ensures { stock_in result ≡ stock_with 4096 1024 1024 }
    {
        let thousand = room_for(1_024);
        Rooms {
            fragments: room_for(4_096),
            dynamic: thousand,
            anonymous: thousand,
        }
    }
}

/// Room for so many things.
fn room_for(count: usize) -> NonZeroUsize
    requires { 0 < count }
    ensures { non_zero_usize_get result ≡ count }
{
    match NonZeroUsize::new(count) {
        Some(room) => room,
        None => unreachable!(),
    }
}

/// What is kept of pages, and how often it was looked for, found and kept.
pub(crate) struct Stock {
    bins: Bins,
    tally: Tally,
}

impl Drop for Stock {
    fn drop(self) {
        let Stock { bins: _, tally: _ } = self;
    }
}

impl Model for Stock {
    ghost use Rattle.site_hall.specs.Stock.{Stock as StockValue, Holding};

    ghost Value = { StockValue };

    ghost view = { λ s. Holding s.bins s.tally };
}

impl Stock {
    /// Empty bins with so much room, and a tally in which nothing is counted. `Err` only where memory is wanting.
    pub(crate) fn new(alloc: Global, rooms: Rooms) -> Result<Stock, AllocError>
        ensures { IfOk result (λ stock. stock ≡ stock_in rooms) }
    {
        let Rooms {
            fragments,
            dynamic,
            anonymous,
        } = rooms;
        let bins = Bins::new(alloc, fragments, dynamic, anonymous)?;
        Ok(Stock {
            bins,
            tally: Tally {
                looks: 0,
                found: 0,
                kept: 0,
            },
        })
    }

    /// What stands under a key in a bin, which then goes first there. The look is counted. `Err` only where memory is
    /// wanting, and then all is as it was.
    pub(crate) fn look(&mut self, bin: Bin, key: &Key) -> Result<Found, AllocError>
        ensures finds { IfOk result (λ found. Finds self.old self.new bin key.now found) }
        ensures refused { OnErr result (self.new ≡ self.old) }
    {
        let found = self.bins.look(bin, key)?;
        self.tally = looked(&found, self.tally);
        Ok(found)
    }

    /// Keeps something under a key in a bin, and counts it. Where memory is wanting all is as it was, and the key and what was
    /// to be kept come back.
    pub(crate) fn keep(
        &mut self,
        bin: Bin,
        key: Key,
        kept: Kept,
    ) -> Result<(), AllocFailed<(Key, Kept)>>
        ensures puts { OnOk result (Puts self.old self.new bin key kept) }
        ensures refused { OnErr result (self.new ≡ self.old) }
        ensures back { IfErr result (λ f. f.value ≡ (key, kept)) }
    {
        self.bins.keep(bin, key, kept)?;
        self.tally.kept = self.tally.kept.saturating_add(1);
        Ok(())
    }

    /// How often something was looked for, found and kept.
    pub(crate) fn tally(&self) -> Tally
        ensures { result ≡ tally_in self.now }
    {
        self.tally
    }
}

/// A tally once one more look is counted, and whether something was found.
fn looked(found: &Found, tally: Tally) -> Tally
    ensures { result ≡ looked found.now tally }
{
    let looks = tally.looks.saturating_add(1);
    match found {
        Found::Entry(_) | Found::Redirect(_) => Tally {
            looks,
            found: tally.found.saturating_add(1),
            kept: tally.kept,
        },
        Found::Absent => Tally { looks, ..tally },
    }
}

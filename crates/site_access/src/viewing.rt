//! Which of many nodes a viewer may view, decided and noted together: a listing asks of each of its candidates.
ghost use Rattle.std.specs.Prelude.{◌≡◌, ◌++◌, ◌∷◌, [], All, IsSome, OnOk};
ghost use Rattle.cacheability.specs.Cacheability.{merged};
ghost use Rattle.cacheability.specs.declared.op.Op.TheVariants as op_is;
ghost use Rattle.indexed_rows.specs.Rows.{node_of};
ghost use Rattle.site_access.specs.Depends.{node_depends};
ghost use Rattle.site_access.specs.Account.{IsAccountOf};
ghost use Rattle.site_access.specs.Viewing.{viewable_of, NotesNodes};

use crate::account::Account;
use cacheability::{Cacheability, Op};
use content_state::State;
use std::alloc::{AllocError, Global};

impl Account {
    /// Puts those of the nodes, which are there, that the viewer may view behind those that were found, in their order,
    /// and adds what the decisions depend on to what is noted. The tags are gathered by halves, so that not each is put
    /// in its place among all. `Err` only where memory is wanting: some may be found and noted then.
    /// <https://www.drupal.org/docs/8/api/entity-api/access-on-entities>
    pub fn note_viewable(
        &self,
        alloc: Global,
        state: &State,
        ids: &[u32],
        found: &mut Vec<u32>,
        noted: &mut Cacheability,
    ) -> Result<(), AllocError>
        requires account { IsAccountOf state.now.rows self.now.viewer self.now }
        requires there { All (λ n. IsSome (node_of state.now.rows n)) ids.now }
        ensures answer { OnOk result (found.new.items ≡ found.old.items ++ viewable_of state.now.rows self.now.viewer ids.now) }
        ensures depends { OnOk result (NotesNodes state.now.rows self.now.viewer ids.now noted.old noted.new) }
    {
        if ids.len() <= 16 {
            return self.note_few(alloc, state, ids, found, noted);
        }
        let half = ids.len() / 2;
        self.note_viewable(alloc, state, &ids[..half], found, noted)?;
        let mut more = Cacheability::new(alloc);
        self.note_viewable(alloc, state, &ids[half..], found, &mut more)?;
        noted.merge(alloc, &more)
    }

    /// Puts those of a few nodes, which are there, that the viewer may view behind those that were found. They are asked one by
    /// one, and what each decision depends on is noted. `Err` only where memory is wanting.
    fn note_few(
        &self,
        alloc: Global,
        state: &State,
        ids: &[u32],
        found: &mut Vec<u32>,
        noted: &mut Cacheability,
    ) -> Result<(), AllocError>
        requires account { IsAccountOf state.now.rows self.now.viewer self.now }
        requires there { All (λ n. IsSome (node_of state.now.rows n)) ids.now }
        ensures answer { OnOk result (found.new.items ≡ found.old.items ++ viewable_of state.now.rows self.now.viewer ids.now) }
        ensures depends { OnOk result (NotesNodes state.now.rows self.now.viewer ids.now noted.old noted.new) }
    {
        'ids: for n in ids {
            self.note_one(alloc, state, *n, found, noted)?;
        }
        Ok(())
    }

    /// Puts a node, which is there, behind those that were found if the viewer may view it. What that depends on is noted.
    /// `Err` only where memory is wanting.
    fn note_one(
        &self,
        alloc: Global,
        state: &State,
        n: u32,
        found: &mut Vec<u32>,
        noted: &mut Cacheability,
    ) -> Result<(), AllocError>
        requires account { IsAccountOf state.now.rows self.now.viewer self.now }
        requires there { IsSome (node_of state.now.rows n) }
        ensures answer { OnOk result (found.new.items ≡ found.old.items ++ viewable_of state.now.rows self.now.viewer (n ∷ [])) }
        ensures depends { OnOk result (noted.new ≡ merged noted.old (node_depends state.now.rows self.now.viewer op_is.View n)) }
    {
        match self.note_node(alloc, state, Op::View, n, noted)? {
            Ok(()) => {
                found.push(n)?;
                Ok(())
            }
            Err(_) => Ok(()),
        }
    }
}

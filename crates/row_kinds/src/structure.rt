//! The settings of a site, its next ids, menus, listings and blocks, read and written.
ghost use Rattle.row_kinds.specs.Look.{nothing_said};
ghost use Rattle.row_kinds.specs.Rows.{link_in, link_data, site_in, site_data, seq_in, seq_data, menu_in, menu_data, listing_in, listing_data, block_in, block_data, IsTypedLink, IsTypedSeq, IsTypedMenu, IsTypedListing, IsTypedBlock};

use crate::field::{Read, Write, both, no_keys, object_of, read_at, with_key};
use content_rows::{Block, Link, Listing, Menu, Seq, Site};
use serde_json::Value;
use std::alloc::{AllocError, Global};

impl Read for Link {
    ghost of = { link_in };

    fn read(alloc: Global, value: &Value) -> Result<Self, AllocError> {
        let (id, weight) = both(read_at(alloc, value, "id"), read_at(alloc, value, "weight"))?;
        let (path, title) = both(
            read_at(alloc, value, "path"),
            read_at(alloc, value, "title"),
        )?;
        Ok(Link {
            id,
            parent: read_at(alloc, value, "parent")?,
            path,
            title,
            weight,
        })
    }
}

impl Write for Link {
    ghost shown = { link_data };

    ghost typed = { IsTypedLink };

    fn write(&self, alloc: Global) -> Result<Value, AllocError> {
        let map = no_keys(alloc);
        let map = with_key(alloc, map, "id", &self.id);
        let map = with_key(alloc, map, "parent", &self.parent);
        let map = with_key(alloc, map, "path", &self.path);
        let map = with_key(alloc, map, "title", &self.title);
        let map = with_key(alloc, map, "weight", &self.weight);
        object_of(map)
    }
}

impl Read for Site {
    ghost of = { site_in };

    fn read(alloc: Global, value: &Value) -> Result<Self, AllocError> {
        let (front, name) = both(
            read_at(alloc, value, "front"),
            read_at(alloc, value, "name"),
        )?;
        Ok(Site { front, name })
    }
}

impl Write for Site {
    ghost shown = { site_data };

    ghost typed = { nothing_said };

    fn write(&self, alloc: Global) -> Result<Value, AllocError> {
        let map = no_keys(alloc);
        let map = with_key(alloc, map, "front", &self.front);
        let map = with_key(alloc, map, "name", &self.name);
        object_of(map)
    }
}

impl Read for Seq {
    ghost of = { seq_in };

    fn read(alloc: Global, value: &Value) -> Result<Self, AllocError> {
        let (node, term) = both(read_at(alloc, value, "node"), read_at(alloc, value, "term"))?;
        Ok(Seq {
            node,
            term,
            user: read_at(alloc, value, "user")?,
        })
    }
}

impl Write for Seq {
    ghost shown = { seq_data };

    ghost typed = { IsTypedSeq };

    fn write(&self, alloc: Global) -> Result<Value, AllocError> {
        let map = no_keys(alloc);
        let map = with_key(alloc, map, "node", &self.node);
        let map = with_key(alloc, map, "term", &self.term);
        let map = with_key(alloc, map, "user", &self.user);
        object_of(map)
    }
}

impl Read for Menu {
    ghost of = { menu_in };

    fn read(alloc: Global, value: &Value) -> Result<Self, AllocError> {
        let (label, links) = both(
            read_at(alloc, value, "label"),
            read_at(alloc, value, "links"),
        )?;
        Ok(Menu { label, links })
    }
}

impl Write for Menu {
    ghost shown = { menu_data };

    ghost typed = { IsTypedMenu };

    fn write(&self, alloc: Global) -> Result<Value, AllocError> {
        let map = no_keys(alloc);
        let map = with_key(alloc, map, "label", &self.label);
        let map = with_key(alloc, map, "links", &self.links);
        object_of(map)
    }
}

impl Read for Listing {
    ghost of = { listing_in };

    fn read(alloc: Global, value: &Value) -> Result<Self, AllocError> {
        let (age, promoted) = both(
            read_at(alloc, value, "age"),
            read_at(alloc, value, "promoted"),
        )?;
        let (recent, term) = both(
            read_at(alloc, value, "recent"),
            read_at(alloc, value, "term"),
        )?;
        let (path, title) = both(
            read_at(alloc, value, "path"),
            read_at(alloc, value, "title"),
        )?;
        Ok(Listing {
            age,
            path,
            promoted,
            recent,
            term,
            title,
            types: read_at(alloc, value, "types")?,
        })
    }
}

impl Write for Listing {
    ghost shown = { listing_data };

    ghost typed = { IsTypedListing };

    fn write(&self, alloc: Global) -> Result<Value, AllocError> {
        let map = no_keys(alloc);
        let map = with_key(alloc, map, "age", &self.age);
        let map = with_key(alloc, map, "path", &self.path);
        let map = with_key(alloc, map, "promoted", &self.promoted);
        let map = with_key(alloc, map, "recent", &self.recent);
        let map = with_key(alloc, map, "term", &self.term);
        let map = with_key(alloc, map, "title", &self.title);
        let map = with_key(alloc, map, "types", &self.types);
        object_of(map)
    }
}

impl Read for Block {
    ghost of = { block_in };

    fn read(alloc: Global, value: &Value) -> Result<Self, AllocError> {
        let (age, name) = both(read_at(alloc, value, "age"), read_at(alloc, value, "name"))?;
        let (hide, kind) = both(read_at(alloc, value, "hide"), read_at(alloc, value, "kind"))?;
        let (region, weight) = both(
            read_at(alloc, value, "region"),
            read_at(alloc, value, "weight"),
        )?;
        let (label, paths) = both(
            read_at(alloc, value, "label"),
            read_at(alloc, value, "paths"),
        )?;
        let (roles, text) = both(
            read_at(alloc, value, "roles"),
            read_at(alloc, value, "text"),
        )?;
        Ok(Block {
            age,
            hide,
            kind,
            label,
            name,
            paths,
            region,
            roles,
            text,
            weight,
        })
    }
}

impl Write for Block {
    ghost shown = { block_data };

    ghost typed = { IsTypedBlock };

    fn write(&self, alloc: Global) -> Result<Value, AllocError> {
        let map = no_keys(alloc);
        let map = with_key(alloc, map, "age", &self.age);
        let map = with_key(alloc, map, "hide", &self.hide);
        let map = with_key(alloc, map, "kind", &self.kind);
        let map = with_key(alloc, map, "label", &self.label);
        let map = with_key(alloc, map, "name", &self.name);
        let map = with_key(alloc, map, "paths", &self.paths);
        let map = with_key(alloc, map, "region", &self.region);
        let map = with_key(alloc, map, "roles", &self.roles);
        let map = with_key(alloc, map, "text", &self.text);
        let map = with_key(alloc, map, "weight", &self.weight);
        object_of(map)
    }
}

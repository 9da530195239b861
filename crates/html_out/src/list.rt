//! A list of segments.
ghost use Rattle.std.specs.Prelude.{◌≡◌, ◌++◌, ◌∷◌, [], IfOk, IfErr, OnOk, OnErr, length, take};
ghost use Rattle.std.specs.Arc.{arc_value};
ghost use Rattle.html_out.specs.Part.{Text, Hole, text_length};
ghost use Rattle.html_out.specs.Segment.{part_of, parts_of};

use crate::part::Segment;
use crate::shared::Bytes;
use std::alloc::{AllocError, AllocFailed, Global};
use std::marker::Model;
use std::sync::Arc;

/// Bytes and holes, in order. A clause sees the list of its parts.
pub struct Segments<T: Drop> {
    segments: Vec<Segment<T>>,
}

impl<T: Drop> Drop for Segments<T> {
    fn drop(self) {
        let Segments { segments: _ } = self;
    }
}

impl<T: Drop> Model for Segments<T> {
    ghost use Rattle.std.specs.Prelude.{List};
    ghost use Rattle.std.specs.Coded.{coded_list};
    ghost use Rattle.html_out.specs.Part.{Part, part_code};
    ghost use Rattle.html_out.specs.Segment.{parts_of};

    ghost Value = { List (Part T) };

    ghost coded = { coded_list (part_code T.code) };

    ghost view = { λ s. parts_of s.segments.items };
}

impl<T: Drop> Segments<T> {
    /// No segment. This takes no memory.
    pub fn new(alloc: Global) -> Segments<T>
        ensures { result ≡ [] }
    {
        Segments {
            segments: Vec::new(alloc),
        }
    }

    /// Adds bytes at the end. For want of memory they come back, and nothing is added.
    pub fn push(&mut self, bytes: Arc<Bytes>) -> Result<(), AllocFailed<Arc<Bytes>>>
        ensures ok { OnOk result (self.new ≡ self.old ++ Text (arc_value bytes) ∷ []) }
        ensures err { OnErr result (self.new ≡ self.old) }
        ensures value_returned { IfErr result (λ refused. refused.value ≡ bytes) }
    {
        if self.segments.reserve(1).is_err() {
            return Err(AllocFailed { value: bytes });
        }
        match self.segments.push(Segment::Bytes(bytes)) {
            Ok(()) => Ok(()),
            Err(_) => unreachable!(),
        }
    }

    /// Adds a hole at the end. For want of memory it comes back, and nothing is added.
    pub fn push_hole(&mut self, hole: T) -> Result<(), AllocFailed<T>>
        ensures ok { OnOk result (self.new ≡ self.old ++ Hole hole ∷ []) }
        ensures err { OnErr result (self.new ≡ self.old) }
        ensures value_returned { IfErr result (λ refused. refused.value ≡ hole) }
    {
        if self.segments.reserve(1).is_err() {
            return Err(AllocFailed { value: hole });
        }
        match self.segments.push(Segment::Hole(hole)) {
            Ok(()) => Ok(()),
            Err(_) => unreachable!(),
        }
    }

    /// Adds all segments of the other list at the end; the bytes stay where they are and are shared. For want of memory
    /// nothing is added.
    pub fn append(&mut self, other: &Segments<T>) -> Result<(), AllocError>
    where
        T: Copy,
        ensures ok { OnOk result (self.new ≡ self.old ++ other.now) }
        ensures err { OnErr result (self.new ≡ self.old) }
    {
        let before = self.segments.len();
        let added = add_all(&mut self.segments, other.segments.as_slice());
        if added.is_err() {
            self.segments.truncate(before);
        }
        added
    }

    /// The segments, in order.
    pub fn parts(&self) -> &[Segment<T>]
        ensures { parts_of result.now ≡ self.now }
    {
        self.segments.as_slice()
    }

    /// How many bytes stand there, outside holes.
    pub fn len(&self) -> u128
        ensures { result ≡ text_length self.now }
    {
        let mut total = 0;
        for segment in self.segments.as_slice() {
            if let Segment::Bytes(bytes) = segment {
                total += bytes.len() as u128;
            }
        }
        total
    }
}

// Adds the segments, or for want of memory some of them.
fn add_all<T: Copy + Drop>(
    all: &mut Vec<Segment<T>>,
    segments: &[Segment<T>],
) -> Result<(), AllocError>
    ensures ok { OnOk result (parts_of all.new.items ≡ parts_of all.old.items ++ parts_of segments.now) }
    ensures err { OnErr result (take (length all.old.items) all.new.items ≡ all.old.items) }
{
    for segment in segments {
        all.push(another(segment)?)?;
    }
    Ok(())
}

// A copy of a segment, which shares its bytes.
fn another<T: Copy>(segment: &Segment<T>) -> Result<Segment<T>, AllocError>
    ensures { IfOk result (λ same. part_of same ≡ part_of segment.now) }
{
    match segment {
        Segment::Bytes(bytes) => Ok(Segment::Bytes(Arc::try_clone(bytes)?)),
        Segment::Hole(hole) => Ok(Segment::Hole(*hole)),
    }
}

//! Reading a file of cases, line by line.

use crate::escape::unescape;
use crate::section::{Case, Section, Unread};
use crate::words::{first_word, number};
use std::alloc::{AllocError, Global};

/// A text that has a name.
#[derive(Drop)]
struct Named {
    name: Vec<u8>,
    text: Vec<u8>,
}

/// What was read of a file: the texts and the cases so far, and the section whose text still grows.
#[derive(Drop)]
struct Reader {
    alloc: Global,
    texts: Vec<Named>,
    cases: Vec<Case>,
    open: Option<Section>,
}

/// Appends the text of that name. False where there is none.
fn add_named(texts: &[Named], name: &[u8], out: &mut Vec<u8>) -> Result<bool, AllocError> {
    match texts.iter().find(|named| named.name.as_slice() == name) {
        Some(named) => {
            out.extend_from_slice(named.text.as_slice())?;
            Ok(true)
        }
        None => Ok(false),
    }
}

/// Appends a text with escapes as often as the number before it says.
fn add_repeated(alloc: Global, line: &[u8], out: &mut Vec<u8>) -> Result<bool, AllocError> {
    let (count, text) = first_word(line);
    let mut piece = Vec::new(alloc);
    let Some(count) = number(count) else {
        return Ok(false);
    };
    if !unescape(text, &mut piece)? {
        return Ok(false);
    }
    for _ in 0..count {
        out.extend_from_slice(piece.as_slice())?;
    }
    Ok(true)
}

/// Appends a line as it stands, and its end.
fn add_line(line: &[u8], end: &[u8], out: &mut Vec<u8>) -> Result<bool, AllocError> {
    out.extend_from_slice(line)?;
    out.extend_from_slice(end)?;
    Ok(true)
}

/// Appends a piece of a text, which its mark tells how to read. False where it can't be read.
fn add_piece(
    alloc: Global,
    texts: &[Named],
    mark: u8,
    line: &[u8],
    out: &mut Vec<u8>,
) -> Result<bool, AllocError> {
    match mark {
        b'|' => add_line(line, b"\n", out),
        b'/' => add_line(line, b"\r\n", out),
        b'=' => add_line(line, b"", out),
        b'\\' => unescape(line, out),
        b'*' => add_repeated(alloc, line, out),
        _ => add_named(texts, line, out),
    }
}

/// Whether a line that begins so is a piece of a text.
fn is_mark(mark: u8) -> bool {
    matches!(mark, b'|' | b'/' | b'=' | b'\\' | b'*' | b'@')
}

/// A section without a text, from the line of its head.
fn section(alloc: Global, number: u64, line: &[u8]) -> Result<Section, AllocError> {
    let (word, rest) = first_word(line);
    Ok(Section {
        line: number,
        word: Vec::from_slice(alloc, word)?,
        rest: Vec::from_slice(alloc, rest)?,
        text: Vec::new(alloc),
    })
}

impl Reader {
    /// Nothing is read yet. The new site's file is the text `starter`.
    fn new(alloc: Global, starter: &[u8]) -> Result<Reader, AllocError> {
        let mut texts = Vec::new(alloc);
        texts.push(Named {
            name: Vec::from_slice(alloc, b"starter")?,
            text: Vec::from_slice(alloc, starter)?,
        })?;
        Ok(Reader {
            alloc,
            texts,
            cases: Vec::new(alloc),
            open: None,
        })
    }

    /// Adds a section to the last case. False where there is none.
    fn add_section(&mut self, section: Section) -> Result<bool, AllocError> {
        match self.cases.last_mut() {
            Some(case) => {
                case.sections.push(section)?;
                Ok(true)
            }
            None => Ok(false),
        }
    }

    /// Ends the section whose text grew: a text gets its name, and a case begins. False where it stands before any case.
    fn close(&mut self) -> Result<bool, AllocError> {
        let Some(section) = self.open.take() else {
            return Ok(true);
        };
        if section.word.as_slice() == b"text".as_slice() {
            self.texts.push(Named {
                name: section.rest,
                text: section.text,
            })?;
            Ok(true)
        } else if section.word.as_slice() == b"case".as_slice() {
            self.cases.push(Case {
                name: section.rest,
                sections: Vec::new(self.alloc),
            })?;
            Ok(true)
        } else {
            self.add_section(section)
        }
    }

    /// Begins a section with this head.
    fn begin(&mut self, number: u64, line: &[u8]) -> Result<(), Unread> {
        if !self.close()? {
            return Err(Unread::Line(number, "the section before it stands in no case"));
        }
        self.open = Some(section(self.alloc, number, line)?);
        Ok(())
    }

    /// Takes one more line.
    fn take(&mut self, number: u64, line: &[u8]) -> Result<(), Unread> {
        let Some((mark, rest)) = line.split_first() else {
            return Ok(());
        };
        if *mark == b'#' {
            return Ok(());
        }
        if !is_mark(*mark) {
            return self.begin(number, line);
        }
        self.take_piece(number, *mark, rest.get(1..).unwrap_or(&[]))
    }

    /// Takes one more piece of the section's text.
    fn take_piece(&mut self, number: u64, mark: u8, line: &[u8]) -> Result<(), Unread> {
        let Some(open) = &mut self.open else {
            return Err(Unread::Line(number, "it belongs to no section"));
        };
        if add_piece(
            self.alloc,
            self.texts.as_slice(),
            mark,
            line,
            &mut open.text,
        )? {
            Ok(())
        } else {
            Err(Unread::Line(number, "it can't be read"))
        }
    }
}

/// The cases of a file. `Line` tells the first line that can't be read.
pub fn read_cases(alloc: Global, file: &[u8], starter: &[u8]) -> Result<Vec<Case>, Unread> {
    let mut reader = Reader::new(alloc, starter)?;
    let mut number = 0_u64;
    for line in file.split(|byte| *byte == b'\n') {
        number = number.saturating_add(1);
        reader.take(number, line)?;
    }
    if !reader.close()? {
        return Err(Unread::Line(number, "the section before it stands in no case"));
    }
    Ok(reader.cases)
}

//! Texts that are computed, as builders write them on a canvas. None of them needs to be escaped.
ghost use Rattle.std.specs.Fmt.{decimal};
ghost use Rattle.content_state.specs.Plan.{write};
ghost use Rattle.site_dates.specs.Dates.{date_text_of, moment_text_of};
ghost use Rattle.user_roles.specs.Csrf.{csrf_value};
ghost use Rattle.render_canvas.specs.Canvas.{Renders};

use crate::canvas::Canvas;
use cacheability::Name;
use site_dates::{date_text, moment_text};
use user_roles::csrf_of;

impl<'a> Canvas<'a> {
    /// Writes a number in decimal.
    pub fn number(&mut self, number: u64)
        ensures { Renders (write (decimal number)) self.old tt self.new }
    {
        match number.to_string(self.alloc) {
            Ok(digits) => self.write(digits.as_bytes()),
            Err(_) => self.fail(),
        }
    }

    /// Writes the day of a moment, as `1970-01-01`.
    pub fn date(&mut self, moment: u64)
        ensures { Renders (write (date_text_of moment)) self.old tt self.new }
    {
        match date_text(self.alloc, moment) {
            Ok(text) => self.write(text.as_slice()),
            Err(_) => self.fail(),
        }
    }

    /// Writes a moment, as `1970-01-01T00:00:00Z`.
    pub fn moment(&mut self, moment: u64)
        ensures { Renders (write (moment_text_of moment)) self.old tt self.new }
    {
        match moment_text(self.alloc, moment) {
            Ok(text) => self.write(text.as_slice()),
            Err(_) => self.fail(),
        }
    }

    /// Writes the value that guards the forms of a session.
    pub fn csrf(&mut self, token: &Name)
        ensures { Renders (write (csrf_value token.now)) self.old tt self.new }
    {
        self.write(csrf_of(token).as_slice());
    }
}

//! Names of units with dots between them.
ghost use Rattle.std.specs.Prelude.{◌≡◌, ℕ, Bool, List, Option};
ghost use Rattle.rdf_terms.specs.Dotted.{ReadsUnits, skip_dots, dotted_at};

use crate::cursor::Cursor;

impl<'a> Cursor<'a> {
    /// The place behind the dots that begin here.
    pub fn skip_dots(&self) -> Cursor<'a>
        ensures { result ≡ skip_dots self.now }
    {
        self.skip(|c| c == '.')
    }

    /// The place behind units with dots between them: dots belong to it only where a unit follows.
    /// `unit` finds the place behind one unit, where one stands there.
    pub fn dotted<F: Fn(Cursor<'a>) -> Option<Cursor<'a>>>(&self, unit: F) -> Cursor<'a>
        requires callable { F.IsAlwaysCallable unit }
        requires reads { (one : List ℕ → Option (List ℕ)) × ReadsUnits (F.post unit) one }
        ensures { (one : List ℕ → Option (List ℕ)) → ReadsUnits (F.post unit) one →
            result ≡ dotted_at one self.now }
    {
        let mut rest = self.fork();
        while let Some(behind) = unit(rest.skip_dots()) {
            rest = behind;
        }
        rest
    }
}

//! Characters of a class that stand together.
ghost use Rattle.std.specs.Prelude.{◌≡◌, ℕ, Bool};
ghost use Rattle.rdf_terms.specs.Skips.{IsTest, skip, some_of, one_of};

use crate::cursor::Cursor;

impl<'a> Cursor<'a> {
    /// The place behind the characters that pass, which begin here.
    pub fn skip<F: Fn(char) -> bool>(&self, passes: F) -> Cursor<'a>
        requires { F.IsAlwaysCallable passes }
        ensures { (class : ℕ → Bool) → IsTest (F.post passes) class → result ≡ skip class self.now }
    {
        let mut rest = self.fork();
        let mut behind = self.fork();
        while let Some(c) = behind.bump() {
            if !passes(c) {
                return rest;
            }
            rest = behind.fork();
        }
        rest
    }

    /// The place behind a character that may be first and all that may follow it.
    #[tactic(auto, unfolding(crate::specs::Skips::some_of))]
    pub fn skip_some<F: Fn(char) -> bool, G: Fn(char) -> bool>(
        &self,
        first: F,
        passes: G,
    ) -> Option<Cursor<'a>>
        requires first { F.IsAlwaysCallable first }
        requires passes { G.IsAlwaysCallable passes }
        ensures { (one class : ℕ → Bool) → IsTest (F.post first) one →
            IsTest (G.post passes) class → result ≡ some_of one class self.now }
    {
        let mut rest = self.fork();
        if first(rest.bump()?) {
            Some(rest.skip(passes))
        } else {
            None
        }
    }

    /// The place behind the next character, where it passes.
    #[tactic(auto, unfolding(crate::specs::Skips::one_of))]
    pub fn one_of<F: Fn(char) -> bool>(&self, passes: F) -> Option<Cursor<'a>>
        requires { F.IsAlwaysCallable passes }
        ensures { (class : ℕ → Bool) → IsTest (F.post passes) class →
            result ≡ one_of class self.now }
    {
        let mut rest = self.fork();
        if passes(rest.bump()?) {
            Some(rest)
        } else {
            None
        }
    }
}

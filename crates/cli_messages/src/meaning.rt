//! What a fault means.
ghost use Rattle.std.specs.Prelude.{◌≡◌};

/// What a fault means, in words for a person.
#[derive(Clone, Copy, Debug, PartialEq, Eq)]
pub struct Meaning {
    /// The fault's number, as `E8`.
    pub number: &'static str,
    /// What is wrong.
    pub what: &'static str,
    /// What to do next. Empty where nothing can be told.
    pub next: &'static str,
}

impl Meaning {
    /// A fault that nothing can be advised of.
    pub(crate) fn new(number: &'static str, what: &'static str) -> Meaning
        ensures number { result.number ≡ number.entry }
        ensures what { result.what ≡ what.entry }
    {
        Meaning {
            number,
            what,
            next: "",
        }
    }

    /// The same fault, with what to do next.
    pub(crate) fn advising(self, next: &'static str) -> Meaning
        ensures { result ≡ record self { next = next.entry } }
    {
        Meaning { next, ..self }
    }
}

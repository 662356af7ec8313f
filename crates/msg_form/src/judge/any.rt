//! Tests of the parts of a form. They take no memory.

ghost use Rattle.std.specs.Prelude.{◌≡◌, Bool};
ghost use Rattle.std.specs.List.{list_any};

/// A test of a part.
pub(super) trait Test<T> {
    ghost passes: { Self → T → Bool };

    fn passes(&self, part: &T) -> bool
        ensures { result ≡ passes self.now part.now };
}

/// Whether one of the parts passes.
pub(super) fn any<T, P: Test<T>>(test: &P, parts: &[T]) -> bool
    ensures { result ≡ list_any (P.passes test.now) parts.now }
{
    parts.iter().any(|part| test.passes(part))
}

//! Tests all of which have to be passed.

ghost use Rattle.std.specs.Prelude.{◌≡◌};
ghost use Rattle.std.specs.List.{list_all};

/// Whether all of the tests were passed.
pub(crate) fn all_hold(tests: &[bool]) -> bool
    ensures { result ≡ list_all (λ test. test) tests.now }
{
    tests.iter().all(|test| *test)
}

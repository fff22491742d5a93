// The words of the law, computed on a short history.
ghost use Rattle.std.specs.Prelude.{◌≡◌, true};
ghost use Rattle.session.specs.Examples.{examples_test};

// The definitions tell of a short history what was done in it. This function does nothing: its contract is that test.
pub fn worked_history_holds()
    ensures computed { examples_test ≡ true }
{}

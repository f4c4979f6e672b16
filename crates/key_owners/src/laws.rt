ghost use Rattle.std.specs.Prelude.{List, ℕ};
ghost use Rattle.key_owners.specs.Lines.{PiecesJoin, Telling};

/// What is told doesn't depend on how a text is cut into pieces.
pub fn pieces_join()
    ensures { (a b c : Telling) (first second told more : List ℕ)
        → PiecesJoin a b c first second told more }
{}
